// Searching for the fullest and the emptiest round. Each is searched from where it was found before, since while rounds are evened
// out no size grows beyond the greatest, and none falls below the least.
ghost use Rattle.std.specs.Prelude.{◌≤◌, MatchOption, length, nat_lt, slice_index};
ghost use Rattle.fewest.specs.Plans.{none};
ghost use Rattle.chains.specs.Partial.{Unless};
ghost use Rattle.balance.specs.Searching.{FoundAt, NextOf, Searched, SearchedTo};
ghost use Rattle.balance.specs.Sizes.{IfUneven, emptiest, fullest, more};

use crate::sizes::{emptiest, first_of, fullest, least_of};
use chains::TwoRounds;
use fewest::largest_of;
use meetings::Round;

// A size that no other beats, and the first round that may have it.
#[derive(Clone, Copy)]
pub(crate) struct Reached {
    pub(crate) size: u16,
    pub(crate) round: Round,
}

// How far the fullest round was searched, and the emptiest.
#[derive(Clone, Copy)]
pub(crate) struct Search {
    pub(crate) full: Reached,
    pub(crate) empty: Reached,
}

impl Search {
    // Before any round was searched.
    pub(crate) fn start(sizes: &[u16]) -> Search
        ensures { Searched sizes.now result }
    {
        Search {
            full: Reached {
                size: largest_of(sizes),
                round: Round(0),
            },
            empty: Reached {
                size: least_of(sizes),
                round: Round(0),
            },
        }
    }
}

// The next round of this size, from one round on.
fn next_of(sizes: &[u16], size: u16, round: Round) -> Option<Round>
    requires few { length sizes.now ≤ none }
    requires within { round.0 ≤ length sizes.now }
    ensures { NextOf sizes.now size round.0 result }
{
    let from = round.0 as usize;
    // `as`, since it is proved to fit
    first_of(&sizes[from..], size).map(|far| Round((from + far) as u16))
}

// The fullest round.
fn fullest_from(sizes: &[u16], reached: Reached) -> Option<Round>
    requires few { length sizes.now ≤ none }
    requires searched { SearchedTo more sizes.now reached }
    ensures { Unless (length sizes.now) (λ c. c.0) result (fullest (length sizes.now) (slice_index sizes.now)) }
{
    match next_of(sizes, reached.size, reached.round) {
        Some(round) => Some(round),
        None => fullest(sizes),
    }
}

// The emptiest round.
fn emptiest_from(sizes: &[u16], reached: Reached) -> Option<Round>
    requires few { length sizes.now ≤ none }
    requires searched { SearchedTo nat_lt sizes.now reached }
    ensures { Unless (length sizes.now) (λ c. c.0) result (emptiest (length sizes.now) (slice_index sizes.now)) }
{
    match next_of(sizes, reached.size, reached.round) {
        Some(round) => Some(round),
        None => emptiest(sizes),
    }
}

// The fullest and the emptiest round, if the one has at least two meetings more than the other.
pub(crate) fn uneven_rounds(sizes: &[u16], search: &mut Search) -> Option<TwoRounds>
    requires few { length sizes.now ≤ none }
    requires searched { Searched sizes.now search.old }
    ensures rounds { IfUneven (length sizes.now) (slice_index sizes.now) result }
    ensures found { MatchOption result (Unit {0}) (FoundAt sizes.now search.new) }
{
    let a = fullest_from(sizes, search.full)?;
    let b = emptiest_from(sizes, search.empty)?;
    let most = sizes[a.0 as usize];
    let least = sizes[b.0 as usize];
    if u32::from(most) < u32::from(least) + 2 {
        return None;
    }
    search.full = Reached {
        size: most,
        round: a,
    };
    search.empty = Reached {
        size: least,
        round: b,
    };
    Some(TwoRounds { a, b })
}
