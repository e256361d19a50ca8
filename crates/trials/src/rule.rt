// The rule for making a plan, and for making it again after a change, written once more over the rounds alone. A chain is the part
// of the meeting that it begins with, so both are found in one way: by comparing all pairs of meetings of two rounds.
use crate::day::{Day, Numbered, moved};
use crate::entries::NONE;
use crate::number::number_of_rounds;
use changes::{Change, Changed};
use meetings::{Meeting, MeetingList, Side};
use std::alloc::{AllocError, Global};

pub(crate) const BOTH: [Side; 2] = [Side::Groups, Side::Stations];

pub(crate) fn is_beside(one: Meeting, other: Meeting) -> bool {
    one.group == other.group || one.station == other.station
}

fn has(among: &[Numbered], number: u16) -> bool {
    among.iter().any(|one| one.number == number)
}

fn in_round(among: &[Numbered], round: u16) -> usize {
    among.iter().filter(|one| one.round == round).count()
}

// A meeting, those beside it, those beside these, and so on.
fn part_of(heap: Global, first: Numbered, among: &[Numbered]) -> Result<Vec<Numbered>, AllocError> {
    let mut part = Vec::new(heap);
    part.push(first)?;
    // each that is found has its turn, and no more are found than there are
    for at in 0..among.len() {
        if let Some(one) = part.get(at).copied() {
            for other in among {
                if is_beside(one.meeting, other.meeting) && !has(&part, other.number) {
                    part.push(*other)?;
                }
            }
        }
    }
    Ok(part)
}

impl Day {
    // A list, planned.
    pub(crate) fn of(heap: Global, list: &MeetingList) -> Result<Day, AllocError> {
        let mut day = Day::unplanned(heap, list.meetings(), list.rooms())?;
        day.make_again(heap)?;
        Ok(day)
    }

    // The meetings of two rounds, by rising number.
    fn of_two(&self, heap: Global, a: u16, b: u16) -> Result<Vec<Numbered>, AllocError> {
        self.numbered
            .iter()
            .copied()
            .filter(|one| one.round == a || one.round == b)
            .collect(heap)
    }

    // The chain from what one side of a meeting has in round a: the meeting that the other side of that one has in b, and so on.
    pub(crate) fn chain(
        &self,
        heap: Global,
        side: Side,
        meeting: Meeting,
        a: u16,
        b: u16,
    ) -> Result<Vec<Numbered>, AllocError> {
        match self.met(side, meeting.party(side), a) {
            Some(first) => part_of(heap, first, &self.of_two(heap, a, b)?),
            None => Ok(Vec::new(heap)),
        }
    }

    pub(crate) fn exchange(&mut self, members: &[Numbered], a: u16, b: u16) {
        for one in &mut self.numbered {
            if has(members, one.number) {
                one.round = if one.round == a { b } else { a };
            }
        }
    }

    // The round for one meeting more: the lowest that is free for both, else one that is made free by a chain. None where there are
    // too few rounds.
    fn round_for(&mut self, heap: Global, meeting: Meeting) -> Result<Option<u16>, AllocError> {
        self.looks = self.looks.saturating_add(1);
        let free_for_both = self.lowest_free(&BOTH, meeting);
        if free_for_both.is_some() {
            return Ok(free_for_both);
        }
        let free_for_group = self.lowest_free(&[Side::Groups], meeting);
        let free_for_station = self.lowest_free(&[Side::Stations], meeting);
        let (Some(a), Some(b)) = (free_for_group, free_for_station) else {
            return Ok(None);
        };
        let chain = self.chain(heap, Side::Stations, meeting, a, b)?;
        self.exchange(&chain, a, b);
        self.chains = self.chains.saturating_add(1);
        // `as` here and below, since a `usize` has no `From` to a `u64`
        self.looks = self.looks.saturating_add(chain.len() as u64);
        Ok(Some(a))
    }

    // Gives a round to each meeting that has none, by rising number.
    pub(crate) fn put_in(&mut self, heap: Global) -> Result<(), AllocError> {
        for new in self.left(heap)? {
            if new.round == NONE {
                let round = self.round_for(heap, new.meeting)?.unwrap_or(NONE);
                for one in &mut self.numbered {
                    if one.number == new.number {
                        one.round = round;
                    }
                }
            }
        }
        Ok(())
    }

    // The fullest and the emptiest round, if the one has at least two meetings more than the other.
    pub(crate) fn uneven(&self) -> Option<(u16, u16)> {
        let most = (0..self.many).map(|round| self.size(round)).max()?;
        let least = (0..self.many).map(|round| self.size(round)).min()?;
        if most < least.saturating_add(2) {
            return None;
        }
        let fullest = (0..self.many).find(|round| self.size(*round) == most)?;
        let emptiest = (0..self.many).find(|round| self.size(*round) == least)?;
        Some((fullest, emptiest))
    }

    // Exchanges two rounds on the first part that has one meeting more in the first of them.
    fn exchange_between(&mut self, heap: Global, a: u16, b: u16) -> Result<(), AllocError> {
        let among = self.of_two(heap, a, b)?;
        let mut looked_at = Vec::new(heap);
        'parts: for first in &among {
            if !has(&looked_at, first.number) {
                let part = part_of(heap, *first, &among)?;
                looked_at.extend_from_slice(&part)?;
                if in_round(&part, a) == in_round(&part, b).saturating_add(1) {
                    self.exchange(&part, a, b);
                    self.exchanges = self.exchanges.saturating_add(1);
                    self.parts = self.parts.saturating_add(u32::from(part.len() > 1));
                    break 'parts;
                }
            }
        }
        self.looks = self.looks.saturating_add(looked_at.len() as u64);
        Ok(())
    }

    // Exchanges parts while the rounds are uneven.
    pub(crate) fn even_out(&mut self, heap: Global) -> Result<(), AllocError> {
        // each exchange brings one meeting to where it may stay, so there are no more than meetings
        'even: for _ in 0..self.numbered.len() {
            let Some((a, b)) = self.uneven() else {
                break 'even;
            };
            self.exchange_between(heap, a, b)?;
        }
        Ok(())
    }

    // As many rounds as the meetings that there are ask for.
    pub(crate) fn rounds_asked(&self, heap: Global) -> Result<u16, AllocError> {
        let meetings = self
            .numbered
            .iter()
            .filter(|one| one.there)
            .map(|one| one.meeting)
            .collect::<Vec<_>>(heap)?;
        Ok(number_of_rounds(&meetings, self.rooms))
    }

    // Takes out what has no round any more, puts in what has none, and evens the rounds out.
    pub(crate) fn make_again(&mut self, heap: Global) -> Result<(), AllocError> {
        let many = self.rounds_asked(heap)?;
        self.many = many;
        self.looks = 0;
        for one in &mut self.numbered {
            if one.round >= many {
                one.round = NONE;
            }
        }
        self.put_in(heap)?;
        self.even_out(heap)
    }

    // Makes a change that can be made.
    pub(crate) fn change(&mut self, heap: Global, change: Change) -> Result<Changed, AllocError> {
        let before = self.rounds(heap)?;
        self.note(change)?;
        self.make_again(heap)?;
        Ok(Changed {
            rounds: self.many,
            looks: self.looks,
            moved: moved(&before, &self.rounds(heap)?),
        })
    }
}
