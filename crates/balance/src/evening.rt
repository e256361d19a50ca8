// Evening out the rounds.
ghost use Rattle.std.specs.Prelude.{◌≡◌, ◌*◌, ◌≤◌, [], length, vec_capacity};
ghost use Rattle.fewest.specs.Plans.{none};
ghost use Rattle.chains.specs.Boards.{meetings_on, rounds_on, two_on};
ghost use Rattle.chains.specs.Finding.{Finds, among_all, found_in, with_new};
ghost use Rattle.placing.specs.Putting.{placed};
ghost use Rattle.placing.specs.Steps.{all_named};
ghost use Rattle.balance.specs.Evening.{even_out, even_steps};
ghost use Rattle.balance.specs.Looking.{look};
ghost use Rattle.balance.specs.OnBoard.{CanExchange, EvensOn, ExchangedOn, ReadyToEven};
ghost use Rattle.balance.specs.Statements.{EvenedOut};

use crate::looks::look;
use crate::ordered::order_two;
use crate::searching::{Search, uneven_rounds};
use crate::sizes::move_one;
use chains::{Board, Found, TwoRounds};

// Exchanges two rounds on the first part that has one more meeting in the first of them, and adds the part to what was touched.
// Answers how many meetings were looked at.
fn exchange_between(
    board: &mut Board<'_>,
    rounds: TwoRounds,
    ordered: &mut Vec<u16>,
    found: &mut Found,
    touched: &mut Found,
) -> u64
    requires can { CanExchange board.old found.old (vec_capacity ordered.old) rounds }
    requires touched { length (meetings_on board.old) ≤ among_all touched.old }
    ensures touched { Finds touched.old touched.new (with_new (found_in touched.old) (look (two_on board.old rounds)).taken) }
    ensures exchanged { ExchangedOn board.old board.new found.old found.new rounds result }
    ensures few { result ≤ none }
    ensures room { vec_capacity ordered.new ≡ vec_capacity ordered.old }
{
    order_two(board, rounds, ordered);
    let start = look(board, rounds, ordered, found);
    board.exchange(rounds, &found.list()[start..]);
    touched.add_all(&found.list()[start..]);
    // `as`, since a `usize` has no `From` to a `u64`
    let looks = found.list().len() as u64;
    found.clear();
    looks
}

// Evens the rounds out: while the fullest has at least two meetings more than the emptiest, one goes from the one to the other.
// There are as many rounds as sizes, which stay those of the rounds. All meetings that had a round have one still, and no two
// rounds differ by more than one in the end. The list of two rounds' meetings is lent for its room, and is empty then. The
// meetings of each part on which two rounds are exchanged are added to what was touched. Answers the looks, one for each meeting
// of a part looked at.
pub fn even_out(
    board: &mut Board<'_>,
    sizes: &mut [u16],
    ordered: &mut Vec<u16>,
    found: &mut Found,
    touched: &mut Found,
) -> u64
    requires ready { ReadyToEven board.old sizes.old found.old (vec_capacity ordered.old) }
    requires touched { length (meetings_on board.old) ≤ among_all touched.old }
    ensures rule { EvensOn board.old board.new sizes.old sizes.new found.old found.new (even_out (length sizes.old) (meetings_on board.old) (placed (rounds_on board.old) 0)) result }
    ensures evened { EvenedOut board.old.shape.groups board.old.shape.stations (length sizes.old) (meetings_on board.old) (placed (rounds_on board.old) 0) (placed (rounds_on board.new) result) }
    ensures touched { Finds touched.old touched.new (with_new (found_in touched.old) (all_named (even_steps (length sizes.old) (meetings_on board.old) (placed (rounds_on board.old) 0)))) }
    ensures few { result ≤ none * none }
    ensures ordered { ordered.new.items ≡ [] }
    ensures room { vec_capacity ordered.new ≡ vec_capacity ordered.old }
{
    let mut looks = 0;
    let mut search = Search::start(sizes);
    while let Some(rounds) = uneven_rounds(sizes, &mut search) {
        looks += exchange_between(board, rounds, ordered, found, touched);
        move_one(sizes, rounds);
    }
    ordered.clear();
    looks
}
