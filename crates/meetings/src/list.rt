// The list of a day's meetings, with how many groups, stations and rooms there are.
ghost use Rattle.std.specs.Prelude.{◌≤◌, length};
ghost use Rattle.meetings.specs.Lists.{Exist, Within, most_meetings};

use crate::numbers::Meeting;

// A list whose numbers are within their limits, and whose meetings are of groups and stations that exist.
#[derive(Drop)]
pub struct MeetingList {
    pub(crate) groups: u16,
    pub(crate) stations: u16,
    pub(crate) rooms: u16,
    pub(crate) meetings: Vec<Meeting>,
    ghost groups_within: { Within groups },
    ghost stations_within: { Within stations },
    ghost rooms_within: { Within rooms },
    ghost few: { length meetings.items ≤ most_meetings },
    ghost exist: { Exist groups stations meetings.items },
}
