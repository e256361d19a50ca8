// Making a plan again: those that wait are put in, and the rounds are evened out.
ghost use Rattle.std.specs.Prelude.{◌≡◌, ◌*◌, ◌≤◌, [], length, vec_capacity};
ghost use Rattle.fewest.specs.Plans.{none};
ghost use Rattle.chains.specs.Boards.{meetings_on, rounds_on};
ghost use Rattle.chains.specs.Finding.{Finds, Unused, among_all};
ghost use Rattle.chains.specs.Partial.{Partial};
ghost use Rattle.chains.specs.Rows.{ManyWithin};
ghost use Rattle.placing.specs.OnBoard.{PutOn};
ghost use Rattle.placing.specs.Putting.{placed};
ghost use Rattle.balance.specs.Evening.{even_out, even_steps};
ghost use Rattle.balance.specs.OnBoard.{RoomForTwo};
ghost use Rattle.balance.specs.Sizes.{sizes_of};
ghost use Rattle.changes.specs.Making.{put_each, steps_putting};
ghost use Rattle.changes.specs.OnBoard.{CanPut, Touches};

use crate::putting::put_in_each;
use balance::even_out;
use chains::{Board, Found};

// Evens out the first so many rounds, which are all in which there is a meeting. Answers the looks.
fn even_out_first(
    board: &mut Board<'_>,
    rounds: u16,
    sizes: &mut [u16],
    ordered: &mut Vec<u16>,
    found: &mut Found,
    touched: &mut Found,
) -> u64
    requires plan { Partial rounds (meetings_on board.old) (rounds_on board.old) }
    requires within { ManyWithin board.old.shape rounds }
    requires long { rounds ≤ length sizes.old }
    requires few { length sizes.old ≤ none }
    requires counted { sizes.old ≡ sizes_of (length sizes.old) (rounds_on board.old) }
    requires unused { Unused found.old (length (meetings_on board.old)) }
    requires room { RoomForTwo board.old.shape (vec_capacity ordered.old) }
    requires touched { length (meetings_on board.old) ≤ among_all touched.old }
    ensures rule { PutOn board.old board.new (even_out rounds (meetings_on board.old) (placed (rounds_on board.old) 0)) result }
    ensures counted { sizes.new ≡ sizes_of (length sizes.old) (rounds_on board.new) }
    ensures forgotten { Finds found.old found.new [] }
    ensures touched { Touches touched.old touched.new (even_steps rounds (meetings_on board.old) (placed (rounds_on board.old) 0)) }
    ensures room { vec_capacity ordered.new ≡ vec_capacity ordered.old }
    ensures few { result ≤ none * none }
{
    even_out(
        board,
        &mut sizes[0..usize::from(rounds)],
        ordered,
        found,
        touched,
    )
}

// Puts in all that wait, and evens the rounds out. Answers the looks.
pub(crate) fn make_again(
    board: &mut Board<'_>,
    rounds: u16,
    waiting: &[u16],
    sizes: &mut [u16],
    ordered: &mut Vec<u16>,
    found: &mut Found,
    touched: &mut Found,
) -> u64
    requires can { CanPut board.old rounds waiting.now }
    requires long { rounds ≤ length sizes.old }
    requires few { length sizes.old ≤ none }
    requires counted { sizes.old ≡ sizes_of (length sizes.old) (rounds_on board.old) }
    requires unused { Unused found.old (length (meetings_on board.old)) }
    requires room { RoomForTwo board.old.shape (vec_capacity ordered.old) }
    requires touched { length (meetings_on board.old) ≤ among_all touched.old }
    ensures rule { PutOn board.old board.new (even_out rounds (meetings_on board.old) (put_each rounds (meetings_on board.old) waiting.now (placed (rounds_on board.old) 0))) result }
    ensures counted { sizes.new ≡ sizes_of (length sizes.old) (rounds_on board.new) }
    ensures forgotten { Finds found.old found.new [] }
    ensures touched { Touches touched.old touched.new (steps_putting rounds (meetings_on board.old) waiting.now (rounds_on board.old)) }
    ensures room { vec_capacity ordered.new ≡ vec_capacity ordered.old }
{
    let put = put_in_each(board, rounds, waiting, sizes, found, touched);
    put + even_out_first(board, rounds, sizes, ordered, found, touched)
}
