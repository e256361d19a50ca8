// How many meetings each group and each station has.
ghost use Rattle.std.specs.Prelude.{◌≡◌, ◌<◌, ◌≤◌, max, [], length, slice_index};
ghost use Rattle.meetings.specs.Held.{contents};
ghost use Rattle.meetings.specs.Lists.{Contents, Exist, most_meetings};
ghost use Rattle.meetings.specs.declared.numbers.Side.TheVariants.{Groups, Stations};
ghost use Rattle.meetings.specs.Refusals.{IfMemory};
ghost use Rattle.fewest.specs.Rounds.{busiest, divided_up, fewest, largest};
ghost use Rattle.fewest.specs.Tallies.{Counts, Tallied, one_fewer, one_more};

use meetings::{Meeting, MeetingList, Refusal};
use std::alloc::Global;

// The number of meetings of each group and of each station: by their numbers, which have no gaps.
#[derive(Drop)]
pub struct Tally {
    groups: Vec<u16>,
    stations: Vec<u16>,
}

// One pass over the meetings: each is counted for its group and for its station.
fn count_meetings(meetings: &[Meeting], groups: &mut [u16], stations: &mut [u16])
    requires few { length meetings.now ≤ most_meetings }
    requires exist { Exist (length groups.old) (length stations.old) meetings.now }
    requires no_groups { Tallied Groups [] groups.old }
    requires no_stations { Tallied Stations [] stations.old }
    ensures groups { Tallied Groups meetings.now groups.new }
    ensures stations { Tallied Stations meetings.now stations.new }
{
    for meeting in meetings {
        // `as`, since after a `From` it is not proved that the index is within the range
        groups[meeting.group.0 as usize] += 1;
        stations[meeting.station.0 as usize] += 1;
    }
}

// The largest of these numbers, 0 where there are none.
#[tactic(auto, using(crate::proofs::Numbers::largest_above, crate::proofs::Numbers::largest_within))]
pub fn largest_of(numbers: &[u16]) -> u16
    ensures { result ≡ largest numbers.now }
{
    numbers.iter().copied().max().unwrap_or(0)
}

// A getter for each field, as a list has them: one that takes a side would be a `match` over the two.
impl Tally {
    // Counts the meetings of a list. Only memory can be wanting.
    pub fn of(heap: Global, list: &MeetingList) -> Result<Tally, Refusal>
        ensures { IfMemory result (Counts (contents list.now)) }
    {
        let mut groups = vec![in heap; 0u16; usize::from(list.groups())]?;
        let mut stations = vec![in heap; 0u16; usize::from(list.stations())]?;
        count_meetings(list.meetings(), &mut groups, &mut stations);
        Ok(Tally { groups, stations })
    }

    // How many meetings each group has, by its number.
    pub fn groups(&self) -> &[u16]
        ensures { result.now ≡ self.now.groups.items }
    {
        self.groups.as_slice()
    }

    // How many meetings each station has, by its number.
    pub fn stations(&self) -> &[u16]
        ensures { result.now ≡ self.now.stations.items }
    {
        self.stations.as_slice()
    }

    // The most meetings that a group or a station has.
    pub fn busiest(&self) -> u16
        ensures of_list { (d : Contents) → Counts d self.now → result ≡ busiest d }
        ensures value { result ≡ max (largest self.now.groups.items) (largest self.now.stations.items) }
    {
        largest_of(&self.groups).max(largest_of(&self.stations))
    }

    // The fewest rounds for so many meetings, of which this is the tally: the larger of what the busiest has, and of what the
    // rooms ask for.
    #[tactic(auto, using(crate::proofs::NoFewer::rounded_up))]
    pub fn rounds(&self, many: u16, rooms: u16) -> u16
        requires { 1 ≤ rooms }
        ensures of_list { (d : Contents) → Counts d self.now → length d.meetings ≡ many → d.rooms ≡ rooms → result ≡ fewest d }
        ensures value { result ≡ max (max (largest self.now.groups.items) (largest self.now.stations.items)) (divided_up many rooms) }
    {
        self.busiest().max(many.div_ceil(rooms))
    }

    // Counts one meeting more, for its group and for its station.
    pub fn add(&mut self, meeting: Meeting)
        requires group { meeting.group.0 < length self.old.groups.items }
        requires station { meeting.station.0 < length self.old.stations.items }
        requires group_fits { slice_index self.old.groups.items meeting.group.0 < 65535 }
        requires station_fits { slice_index self.old.stations.items meeting.station.0 < 65535 }
        ensures groups { self.new.groups.items ≡ one_more self.old.groups.items meeting.group.0 }
        ensures stations { self.new.stations.items ≡ one_more self.old.stations.items meeting.station.0 }
    {
        self.groups[meeting.group.0 as usize] += 1;
        self.stations[meeting.station.0 as usize] += 1;
    }

    // Counts one meeting fewer.
    pub fn remove(&mut self, meeting: Meeting)
        requires group { meeting.group.0 < length self.old.groups.items }
        requires station { meeting.station.0 < length self.old.stations.items }
        requires group_some { 1 ≤ slice_index self.old.groups.items meeting.group.0 }
        requires station_some { 1 ≤ slice_index self.old.stations.items meeting.station.0 }
        ensures groups { self.new.groups.items ≡ one_fewer self.old.groups.items meeting.group.0 }
        ensures stations { self.new.stations.items ≡ one_fewer self.old.stations.items meeting.station.0 }
    {
        self.groups[meeting.group.0 as usize] -= 1;
        self.stations[meeting.station.0 as usize] -= 1;
    }
}
