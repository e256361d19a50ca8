// Counting the meetings that were moved.
ghost use Rattle.std.specs.Prelude.{◌≡◌, ℕ, ◌<◌, ◌≤◌, true, [], length, count_by};
ghost use Rattle.fewest.specs.Plans.{none};
ghost use Rattle.chains.specs.Boards.{meetings_on, rounds_on};
ghost use Rattle.chains.specs.Chains.{holds};
ghost use Rattle.chains.specs.Finding.{Finds, found_in};
ghost use Rattle.chains.specs.Partial.{round_of};
ghost use Rattle.chains.specs.Statements.{Once};
ghost use Rattle.changes.specs.Days.{moved};
ghost use Rattle.changes.specs.OnBoard.{CopiedFor};

use chains::{Board, Found, NONE};

// Whether a meeting that had one round, or none, and has another now, or none, was moved.
fn was_moved(before: u16, now: u16) -> bool
    ensures { result ≡ moved before now }
{
    before != NONE && now != NONE && before != now
}

// Counts those of these meetings that were moved, and notes their rounds for the next change.
fn count_moved(rounds: &[u16], before: &mut [u16], touched: &[u16]) -> u16
    requires here { (i : ℕ) → holds touched.now i ≡ true → i < length rounds.now }
    requires long { length rounds.now ≤ length before.old }
    requires once { Once touched.now }
    requires few { length touched.now ≤ none }
    ensures moved { result ≡ count_by (λ i. moved (round_of before.old i) (round_of rounds.now i)) touched.now }
    ensures noted { CopiedFor before.old before.new rounds.now touched.now }
{
    let mut many = 0;
    for meeting in touched {
        // `as`, since after a `From` it is not proved which entry is written
        let at = *meeting as usize;
        let now = rounds[at];
        if was_moved(before[at], now) {
            many += 1;
        }
        before[at] = now;
    }
    many
}

// The same on a board, of the meetings that were touched. These are forgotten then.
pub(crate) fn moved_on(board: &Board<'_>, before: &mut [u16], touched: &mut Found) -> u16
    requires here { (i : ℕ) → holds (found_in touched.old) i ≡ true → i < length (meetings_on board.now) }
    requires long { length (meetings_on board.now) ≤ length before.old }
    requires once { Once (found_in touched.old) }
    ensures moved { result ≡ count_by (λ i. moved (round_of before.old i) (round_of (rounds_on board.now) i)) (found_in touched.old) }
    ensures noted { CopiedFor before.old before.new (rounds_on board.now) (found_in touched.old) }
    ensures forgotten { Finds touched.old touched.new [] }
{
    let moved = count_moved(board.rounds, before, touched.list());
    touched.clear();
    moved
}
