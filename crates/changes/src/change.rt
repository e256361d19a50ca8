// A change of a day.
ghost use Rattle.std.specs.Prelude.{◌≡◌};
ghost use Rattle.changes.specs.Kinds.{number_of};

use meetings::{Meeting, MeetingId};

#[derive(Clone, Copy, PartialEq, Eq, Debug)]
pub enum Change {
    // A meeting more, with the next number.
    Add(Meeting),
    // A meeting is dropped; its number stays unused.
    Drop(MeetingId),
    GiveRoomUp,
    GetRoom,
}

impl Change {
    // The number of the kind, as changes are written. A match, since a variant that holds something has no discriminant.
    pub fn number(&self) -> u8
        ensures { result ≡ number_of self.now }
    {
        match self {
            Change::Add(_) => 0,
            Change::Drop(_) => 1,
            Change::GiveRoomUp => 2,
            Change::GetRoom => 3,
        }
    }
}
