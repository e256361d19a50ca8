// How many meetings each round has, and the fullest and the emptiest.
ghost use Rattle.std.specs.Prelude.{◌≡◌, ◌+◌, ◌-◌, ◌<◌, ◌≤◌, length, ◌==◌, ◌≢◌, replicate, slice_index, slice_set, position};
ghost use Rattle.fewest.specs.Plans.{none};
ghost use Rattle.chains.specs.Boards.{rounds_on};
ghost use Rattle.chains.specs.Partial.{Unless};
ghost use Rattle.balance.specs.Sizes.{Least, emptiest, fullest, sizes_of};

use chains::{Board, TwoRounds};
use fewest::largest_of;
use meetings::Round;

// No meetings in any round.
fn clear(sizes: &mut [u16])
    ensures { sizes.new ≡ replicate (length sizes.old) 0 }
{
    sizes.fill(0);
}

// Counts how many meetings each of these rounds has; a meeting without one of them is not counted.
pub fn count_rounds(rounds: &[u16], sizes: &mut [u16])
    requires few { length rounds.now ≤ none }
    ensures { sizes.new ≡ sizes_of (length sizes.old) rounds.now }
{
    clear(sizes);
    for round in rounds {
        // `as`, since after a `From` it is not proved which entry is written
        let at = *round as usize;
        if at < sizes.len() {
            sizes[at] += 1;
        }
    }
}

// The same on a board.
pub(crate) fn count_sizes(board: &Board<'_>, sizes: &mut [u16])
    ensures { sizes.new ≡ sizes_of (length sizes.old) (rounds_on board.now) }
{
    count_rounds(board.rounds, sizes);
}

// The first round of this size.
pub(crate) fn first_of(sizes: &[u16], size: u16) -> Option<usize>
    ensures { result ≡ position (λ x. x == size) sizes.now }
{
    sizes.iter().position(|other| *other == size)
}

// The least of these numbers, 0 where there are none.
pub(crate) fn least_of(numbers: &[u16]) -> u16
    ensures least { Least numbers.now result }
    ensures nothing { length numbers.now ≡ 0 → result ≡ 0 }
{
    numbers.iter().copied().min().unwrap_or(0)
}

// The lowest-numbered round with the most meetings, none if there are no rounds.
pub(crate) fn fullest(sizes: &[u16]) -> Option<Round>
    requires few { length sizes.now ≤ none }
    ensures { Unless (length sizes.now) (λ c. c.0) result (fullest (length sizes.now) (slice_index sizes.now)) }
{
    // `as`, since it is proved to fit
    first_of(sizes, largest_of(sizes)).map(|round| Round(round as u16))
}

// The lowest-numbered round with the fewest meetings, none if there are no rounds.
pub(crate) fn emptiest(sizes: &[u16]) -> Option<Round>
    requires few { length sizes.now ≤ none }
    ensures { Unless (length sizes.now) (λ c. c.0) result (emptiest (length sizes.now) (slice_index sizes.now)) }
{
    first_of(sizes, least_of(sizes)).map(|round| Round(round as u16))
}

// One meeting less in the first round, and one more in the second.
pub(crate) fn move_one(sizes: &mut [u16], rounds: TwoRounds)
    requires a { rounds.a.0 < length sizes.old }
    requires b { rounds.b.0 < length sizes.old }
    requires some { 1 ≤ slice_index sizes.old rounds.a.0 }
    requires different { rounds.a.0 ≢ rounds.b.0 }
    requires few { slice_index sizes.old rounds.b.0 < none }
    ensures { sizes.new ≡ slice_set (slice_set sizes.old rounds.a.0 (slice_index sizes.old rounds.a.0 - 1)) rounds.b.0 (slice_index sizes.old rounds.b.0 + 1) }
{
    sizes[rounds.a.0 as usize] -= 1;
    sizes[rounds.b.0 as usize] += 1;
}
