// Putting in all meetings of a list.
ghost use Rattle.std.specs.Prelude.{◌≡◌, ◌+◌, ◌*◌, ◌≤◌, length, replicate};
ghost use Rattle.fewest.specs.Plans.{none};
ghost use Rattle.chains.specs.Boards.{meetings_on, rounds_on};
ghost use Rattle.chains.specs.Finding.{Unused};
ghost use Rattle.chains.specs.Rows.{ManyWithin};
ghost use Rattle.placing.specs.OnBoard.{PutsOn};
ghost use Rattle.placing.specs.Putting.{placed, put_all};
ghost use Rattle.placing.specs.Statements.{NoneBusier, PlacedAll};

use crate::put::put_in;
use chains::{Board, Found};
use meetings::MeetingId;

// Puts in all meetings, in their order, none of which has a round yet. No group and no station has more meetings than there are
// rounds, so each gets a round; with n groups and k stations the looks are 1 + n + k at most for each.
pub fn put_in_all(board: &mut Board<'_>, rounds: u16, found: &mut Found) -> u64
    requires out { rounds_on board.old ≡ replicate (length (meetings_on board.old)) none }
    requires within { ManyWithin board.old.shape rounds }
    requires none_busier { NoneBusier rounds (meetings_on board.old) }
    requires unused { Unused found.old (length (meetings_on board.old)) }
    ensures rule { PutsOn board.old board.new found.old found.new (put_all rounds (meetings_on board.old)) result }
    ensures placed { PlacedAll board.old.shape.groups board.old.shape.stations rounds (meetings_on board.old) (placed (rounds_on board.new) result) }
    ensures few { result ≤ none * (1 + none) }
{
    let mut looks = 0;
    // by their numbers, which is what a plan knows meetings by; `as`, since it is proved that they fit
    for meeting in 0..board.meetings.len() as u16 {
        looks += put_in(board, rounds, MeetingId(meeting), found).looks;
        found.clear();
    }
    looks
}
