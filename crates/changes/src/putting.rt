// Putting meetings in on a board whose sizes are kept, and noting which meetings that touches.
ghost use Rattle.std.specs.Prelude.{◌≡◌, ◌+◌, ◌*◌, ◌≤◌, [], length};
ghost use Rattle.fewest.specs.Plans.{none};
ghost use Rattle.chains.specs.Boards.{meetings_on, rounds_on};
ghost use Rattle.chains.specs.Finding.{Finds, Unused, among_all, found_in, with_new};
ghost use Rattle.placing.specs.OnBoard.{PutOn, ReadyOn};
ghost use Rattle.placing.specs.Putting.{placed, put};
ghost use Rattle.placing.specs.Statements.{PutIn};
ghost use Rattle.placing.specs.Steps.{all_named, put_steps};
ghost use Rattle.balance.specs.Sizes.{sizes_of};
ghost use Rattle.changes.specs.Making.{put_each, put_each_steps};
ghost use Rattle.changes.specs.OnBoard.{CanPut};

use crate::sizes::add_one;
use chains::{Board, Found};
use meetings::MeetingId;
use placing::put_in;

// Puts a meeting in. Answers the looks.
fn put_in_counted(
    board: &mut Board<'_>,
    rounds: u16,
    meeting: MeetingId,
    sizes: &mut [u16],
    found: &mut Found,
    touched: &mut Found,
) -> u64
    requires ready { ReadyOn board.old found.old rounds meeting.0 }
    requires within { rounds ≤ length sizes.old }
    requires few { length sizes.old ≤ none }
    requires counted { sizes.old ≡ sizes_of (length sizes.old) (rounds_on board.old) }
    requires touched { length (meetings_on board.old) ≤ among_all touched.old }
    ensures rule { PutOn board.old board.new (put rounds (meetings_on board.old) (rounds_on board.old) meeting.0) result }
    ensures placed { PutIn board.old.shape.groups board.old.shape.stations rounds (meetings_on board.old) (rounds_on board.old) meeting.0 (placed (rounds_on board.new) result) }
    ensures counted { sizes.new ≡ sizes_of (length sizes.old) (rounds_on board.new) }
    ensures forgotten { Finds found.old found.new [] }
    ensures touched { Finds touched.old touched.new (with_new (found_in touched.old) (all_named (put_steps rounds (meetings_on board.old) (rounds_on board.old) meeting.0))) }
    ensures few { result ≤ 1 + none }
{
    let put = put_in(board, rounds, meeting, found);
    add_one(sizes, put.fuller);
    touched.add_all(found.list());
    touched.add_all(&[meeting.0]);
    found.clear();
    put.looks
}

// Puts in meetings that wait, one by one. Answers the looks.
pub(crate) fn put_in_each(
    board: &mut Board<'_>,
    rounds: u16,
    waiting: &[u16],
    sizes: &mut [u16],
    found: &mut Found,
    touched: &mut Found,
) -> u64
    requires can { CanPut board.old rounds waiting.now }
    requires within { rounds ≤ length sizes.old }
    requires few { length sizes.old ≤ none }
    requires counted { sizes.old ≡ sizes_of (length sizes.old) (rounds_on board.old) }
    requires unused { Unused found.old (length (meetings_on board.old)) }
    requires touched { length (meetings_on board.old) ≤ among_all touched.old }
    ensures rule { PutOn board.old board.new (put_each rounds (meetings_on board.old) waiting.now (placed (rounds_on board.old) 0)) result }
    ensures counted { sizes.new ≡ sizes_of (length sizes.old) (rounds_on board.new) }
    ensures forgotten { Finds found.old found.new [] }
    ensures touched { Finds touched.old touched.new (with_new (found_in touched.old) (all_named (put_each_steps rounds (meetings_on board.old) waiting.now (rounds_on board.old)))) }
    ensures few { result ≤ length waiting.now * (1 + none) }
{
    let mut looks = 0;
    for meeting in waiting {
        looks += put_in_counted(board, rounds, MeetingId(*meeting), sizes, found, touched);
    }
    looks
}
