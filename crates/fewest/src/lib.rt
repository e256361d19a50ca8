// The fewest rounds: how often each group and station meets, the busiest, and the number of rounds.
#![tactic(auto)]

mod rounds;
mod tally;
mod theorems;

pub use rounds::fewest_rounds;
pub use tally::{Tally, largest_of};
pub use theorems::{
    busiest_is_largest, counted_by_rounds, days_are_right, fewest_is_least, no_plan_has_fewer,
    no_rounds_without_meetings,
};
