// Two kinds of changes, from plain numbers.
ghost use Rattle.std.specs.Prelude.{◌≡◌};
ghost use Rattle.meetings.specs.Lists.{meeting};
ghost use Rattle.changes.specs.Bytes.{meeting_id};
ghost use Rattle.changes.specs.declared.change.Change.TheVariants.{Add, Drop};

use changes::Change;
use meetings::{Group, Meeting, MeetingId, Station};

// A meeting of this group and this station is added.
pub(crate) fn add(group: u16, station: u16) -> Change
    ensures { result ≡ Add (meeting group station) }
{
    Change::Add(Meeting {
        group: Group(group),
        station: Station(station),
    })
}

// The meeting with this number is dropped.
pub(crate) fn drop_one(number: u16) -> Change
    ensures { result ≡ Drop (meeting_id number) }
{
    Change::Drop(MeetingId(number))
}
