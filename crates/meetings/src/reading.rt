// Reading a list of meetings from its bytes.
ghost use Rattle.std.specs.Prelude.{◌≡◌, ◌+◌, ◌^◌, ◌<◌, ◌≤◌, [], Err, IfOk, length, vec_items};
ghost use Rattle.meetings.specs.declared.refusal.Refusal.TheVariants.{Memory};
ghost use Rattle.meetings.specs.Bytes.{HasMeeting, limit, count, party_at, meeting_at, meetings_at, read_list, bytes_of};
ghost use Rattle.meetings.specs.Held.{contents};
ghost use Rattle.meetings.specs.Refusals.{outcome, Answers, place_of_limit};

use crate::limits::{MOST, MOST_MEETINGS};
use crate::list::MeetingList;
use crate::numbers::{Group, Meeting, Station};
use crate::refusal::{Limit, Refusal};
use std::alloc::Global;

// Where the meetings begin.
pub const HEAD: usize = 5;

// How many groups, stations or rooms there are.
fn within_limits(number: u8, which: Limit) -> Result<u16, Refusal>
    ensures { outcome (λ x. x) result ≡ limit number (place_of_limit which) }
{
    let number = u16::from(number);
    if !(1..=MOST).contains(&number) {
        return Err(Refusal::OutOfLimits(which));
    }
    Ok(number)
}

// How many meetings there are, from the low byte and the high one.
fn meeting_count(low: u8, high: u8) -> Result<u16, Refusal>
    ensures { outcome (λ x. x) result ≡ count low high }
{
    let many = u16::from_le_bytes([low, high]);
    if usize::from(many) > MOST_MEETINGS {
        return Err(Refusal::TooManyMeetings);
    }
    Ok(many)
}

// The bytes of a list, and how many groups and stations its meetings may name.
#[derive(Clone, Copy)]
pub struct Source<'a> {
    pub bytes: &'a [u8],
    pub groups: u16,
    pub stations: u16,
}

impl Source<'_> {
    // A group or a station: the byte at this place, where there is one, below the number of those that exist.
    fn party(&self, at: usize, many: u16) -> Result<u16, Refusal>
        ensures { outcome (λ x. x) result ≡ party_at self.now.bytes.now at many }
    {
        let Some(byte) = self.bytes.get(at) else {
            return Err(Refusal::Length(self.bytes.len()));
        };
        let number = u16::from(*byte);
        if number >= many {
            return Err(Refusal::NoSuchParty(at));
        }
        Ok(number)
    }

    // A meeting: its group and its station.
    pub fn meeting(&self, at: usize) -> Result<Meeting, Refusal>
        requires { at + 1 < 2 ^ 64 }
        ensures { outcome (λ x. x) result ≡ meeting_at self.now.bytes.now at self.now.groups self.now.stations }
    {
        let group = Group(self.party(at, self.groups)?);
        let station = Station(self.party(at + 1, self.stations)?);
        Ok(Meeting { group, station })
    }

    // So many meetings, up to the end of the bytes.
    #[tactic(auto, using(crate::proofs::Turns::read_one))]
    fn meetings(&self, heap: Global, many: u16) -> Result<Vec<Meeting>, Refusal>
        ensures answer { Answers vec_items result (meetings_at self.now.bytes.now self.now.groups self.now.stations many 5 []) }
        ensures memory { result ≡ Err Memory → (1 ≤ many) × (7 ≤ length self.now.bytes.now) }
    {
        let mut read = Vec::new(heap);
        // By number: chunks of two bytes would still need their places, and the last may be one byte.
        for i in 0..many {
            read.push(self.meeting(HEAD + 2 * usize::from(i))?)?;
        }
        let end = HEAD + 2 * usize::from(many);
        if self.bytes.len() > end {
            return Err(Refusal::Length(end));
        }
        Ok(read)
    }
}

// The list that the bytes say, or what is wrong with them first.
#[tactic(auto, using(crate::proofs::Accepted::parts_read))]
pub fn read(heap: Global, bytes: &[u8]) -> Result<MeetingList, Refusal>
    ensures answer { Answers contents result (read_list bytes.now) }
    ensures back { IfOk result (λ l. bytes_of (contents l) ≡ bytes.now) }
    ensures memory { result ≡ Err Memory → HasMeeting bytes.now }
{
    let [groups, stations, rooms, low, high, ..] = *bytes else {
        return Err(Refusal::Length(bytes.len()));
    };
    let groups = within_limits(groups, Limit::Groups)?;
    let stations = within_limits(stations, Limit::Stations)?;
    let rooms = within_limits(rooms, Limit::Rooms)?;
    let many = meeting_count(low, high)?;
    let source = Source {
        bytes,
        groups,
        stations,
    };
    let meetings = source.meetings(heap, many)?;
    Ok(MeetingList {
        groups,
        stations,
        rooms,
        meetings,
    })
}
