// A day: each meeting that has a number, whether there is one, and its round. It uses nothing of the libraries but the meetings
// and the kinds of changes.
use crate::entries::NONE;
use changes::Change;
use meetings::{Meeting, MeetingId, Side};
use std::alloc::{AllocError, Global};

#[derive(Clone, Copy)]
pub(crate) struct Numbered {
    pub(crate) number: u16,
    pub(crate) meeting: Meeting,
    // it was not dropped
    pub(crate) there: bool,
    pub(crate) round: u16,
}

#[derive(Drop)]
pub(crate) struct Day {
    pub(crate) rooms: u16,
    pub(crate) many: u16,
    pub(crate) numbered: Vec<Numbered>,
    // for the last plan
    pub(crate) looks: u64,
    // for all plans so far: how many chains were exchanged, how many parts, and how many of these had more than one meeting
    pub(crate) chains: u32,
    pub(crate) exchanges: u32,
    pub(crate) parts: u32,
}

// How many of two lists of rounds, one for each number, are another round now.
pub(crate) fn moved(before: &[u16], now: &[u16]) -> u16 {
    let moved = before
        .iter()
        .zip(now)
        .filter(|(before, now)| **before != NONE && **now != NONE && before != now)
        .count();
    u16::try_from(moved).unwrap_or(NONE)
}

impl Day {
    // So many rooms and rounds, and no meetings.
    pub(crate) fn empty(heap: Global, rooms: u16, many: u16) -> Day {
        Day {
            rooms,
            many,
            numbered: Vec::new(heap),
            looks: 0,
            chains: 0,
            exchanges: 0,
            parts: 0,
        }
    }

    // Meetings, of which none has a round.
    pub(crate) fn unplanned(
        heap: Global,
        meetings: &[Meeting],
        rooms: u16,
    ) -> Result<Day, AllocError> {
        let mut day = Day::empty(heap, rooms, 0);
        for meeting in meetings {
            day.put(*meeting, NONE)?;
        }
        Ok(day)
    }

    // One meeting more, which gets the next number. None is cut off: a day has 4,000 numbers at most.
    pub(crate) fn put(&mut self, meeting: Meeting, round: u16) -> Result<(), AllocError> {
        self.numbered.push(Numbered {
            number: u16::try_from(self.numbered.len()).unwrap_or(NONE),
            meeting,
            there: true,
            round,
        })?;
        Ok(())
    }

    fn drop_meeting(&mut self, number: u16) {
        for numbered in &mut self.numbered {
            if numbered.number == number {
                numbered.there = false;
                numbered.round = NONE;
            }
        }
    }

    // Notes a change that can be made: whom it leaves, and how many rooms.
    pub(crate) fn note(&mut self, change: Change) -> Result<(), AllocError> {
        match change {
            Change::Add(meeting) => self.put(meeting, NONE)?,
            Change::Drop(MeetingId(number)) => self.drop_meeting(number),
            Change::GiveRoomUp => self.rooms = self.rooms.saturating_sub(1),
            Change::GetRoom => self.rooms = self.rooms.saturating_add(1),
        }
        Ok(())
    }

    // Gives each number its round from a list.
    pub(crate) fn take_rounds(&mut self, rounds: &[u16]) {
        for (one, round) in self.numbered.iter_mut().zip(rounds) {
            one.round = *round;
        }
    }

    // The round of each number.
    pub(crate) fn rounds(&self, heap: Global) -> Result<Vec<u16>, AllocError> {
        self.numbered.iter().map(|one| one.round).collect(heap)
    }

    // The meetings that there are.
    pub(crate) fn left(&self, heap: Global) -> Result<Vec<Numbered>, AllocError> {
        self.numbered
            .iter()
            .copied()
            .filter(|one| one.there)
            .collect(heap)
    }

    // The meeting that a party has in a round.
    pub(crate) fn met(&self, side: Side, party: u16, round: u16) -> Option<Numbered> {
        self.numbered.iter().copied().find(|one| one.round == round
            && one.meeting.party(side) == party)
    }

    // Whether all these sides of a meeting are free in a round.
    pub(crate) fn is_free(&self, sides: &[Side], meeting: Meeting, round: u16) -> bool {
        sides.iter().all(|side| self.met(*side, meeting.party(*side), round).is_none())
    }

    // The lowest round in which all these sides of a meeting are free.
    pub(crate) fn lowest_free(&self, sides: &[Side], meeting: Meeting) -> Option<u16> {
        (0..self.many).find(|round| self.is_free(sides, meeting, *round))
    }

    // How many meetings a round has.
    pub(crate) fn size(&self, round: u16) -> usize {
        self.numbered
            .iter()
            .filter(|one| one.round == round)
            .count()
    }

    // How many meetings a party has.
    pub(crate) fn held(&self, side: Side, party: u16) -> usize {
        self.numbered
            .iter()
            .filter(|one| one.there && one.meeting.party(side) == party)
            .count()
    }
}
