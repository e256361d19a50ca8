// All meetings that have a number, which of them there are, and how many of these each group and each station has.
ghost use Rattle.std.specs.Prelude.{◌≡◌, true};
ghost use Rattle.meetings.specs.Held.{contents};
ghost use Rattle.meetings.specs.Refusals.{IfMemory};
ghost use Rattle.changes.specs.declared.change.Change.TheVariants.{Add, Drop};
ghost use Rattle.changes.specs.Numbered.{can, rounds_for, whole};
ghost use Rattle.changes.specs.Registered.{Agrees, ByChange, registered};

use crate::change::Change;
use fewest::Tally;
use meetings::{MOST, MOST_MEETINGS, Meeting, MeetingId, MeetingList, Refusal};
use std::alloc::Global;

#[derive(Drop)]
pub struct Register {
    pub(crate) groups: u16,
    pub(crate) stations: u16,
    rooms: u16,
    meetings: Vec<Meeting>,
    there: Vec<bool>,
    many: u16,
    tally: Tally,
}

impl Register {
    // The register of a list, of which no meeting was dropped. Only memory can be wanting.
    pub fn of(heap: Global, list: &MeetingList) -> Result<Register, Refusal>
        ensures is { IfMemory result (λ n. registered n ≡ whole (contents list.now)) }
        ensures kept { IfMemory result Agrees }
    {
        let mut meetings = Vec::new(heap);
        meetings.extend_from_slice(list.meetings())?;
        let there = vec![in heap; true; meetings.len()]?;
        // `as`, since it is proved to fit
        let many = meetings.len() as u16;
        let tally = Tally::of(heap, list)?;
        Ok(Register {
            groups: list.groups(),
            stations: list.stations(),
            rooms: list.rooms(),
            meetings,
            there,
            many,
            tally,
        })
    }

    // Whether a change can be made.
    pub(crate) fn can(&self, change: Change) -> bool
        ensures { result ≡ can (registered self.now) change }
    {
        match change {
            Change::Add(meeting) => {
                meeting.group.0 < self.groups
                    && meeting.station.0 < self.stations
                    && self.meetings.len() < MOST_MEETINGS
            }
            Change::Drop(MeetingId(i)) => self.there.get(usize::from(i)).copied().unwrap_or(false),
            Change::GiveRoomUp => self.rooms > 1,
            Change::GetRoom => self.rooms < MOST,
        }
    }

    // All meetings that have a number.
    pub(crate) fn into_meetings(self) -> Vec<Meeting>
        ensures { result.items ≡ (registered self).list.meetings }
    {
        self.meetings
    }

    // The number of rounds of the meetings that there are.
    pub fn rounds(&self) -> u16
        requires { Agrees self.now }
        ensures { result ≡ rounds_for (registered self.now) }
    {
        self.tally.rounds(self.many, self.rooms)
    }

    // A meeting more, with the next number.
    #[tactic(auto, using(crate::proofs::Keeping::group_counted, crate::proofs::Keeping::station_counted, crate::proofs::Keeping::group_fits, crate::proofs::Keeping::station_fits, crate::proofs::Keeping::many_fits))]
    fn add(&mut self, meeting: Meeting) -> Result<(), Refusal>
        requires kept { Agrees self.old }
        requires can { can (registered self.old) (Add meeting) ≡ true }
        ensures { IfMemory result (λ u. ByChange self.old self.new (Add meeting)) }
    {
        self.meetings.push(meeting)?;
        self.there.push(true)?;
        self.tally.add(meeting);
        self.many += 1;
        Ok(())
    }

    // A meeting is dropped.
    #[tactic(auto, using(crate::proofs::Keeping::gone_group_counted, crate::proofs::Keeping::gone_station_counted, crate::proofs::Keeping::group_some, crate::proofs::Keeping::station_some, crate::proofs::Keeping::many_some))]
    pub fn drop_meeting(&mut self, id: MeetingId)
        requires kept { Agrees self.old }
        requires can { can (registered self.old) (Drop id) ≡ true }
        ensures { ByChange self.old self.new (Drop id) }
    {
        let meeting = self.meetings[id.0 as usize];
        self.there[id.0 as usize] = false;
        self.tally.remove(meeting);
        self.many -= 1;
    }

    // Makes a change. Only memory can be wanting.
    pub(crate) fn make(&mut self, change: Change) -> Result<(), Refusal>
        requires kept { Agrees self.old }
        requires can { can (registered self.old) change ≡ true }
        ensures { IfMemory result (λ u. ByChange self.old self.new change) }
    {
        match change {
            Change::Add(meeting) => self.add(meeting)?,
            Change::Drop(id) => self.drop_meeting(id),
            Change::GiveRoomUp => self.rooms -= 1,
            Change::GetRoom => self.rooms += 1,
        }
        Ok(())
    }
}
