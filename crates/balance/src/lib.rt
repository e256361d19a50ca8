// Evening out the rounds, and planning a whole day: the fewest rounds, within the rooms, even.
#![tactic(auto)]

mod evening;
mod looks;
mod ordered;
mod planned;
mod planning;
mod scratch;
mod searching;
mod sizes;
mod theorems;

pub use evening::even_out;
pub use planned::Planned;
pub use planning::{plan, plan_bytes};
pub use sizes::count_rounds;
pub use theorems::{
    evening_out_ends, looking_finds_the_first, one_exchange_is_nearer, part_with_one_more,
    rounds_are_enough, rounds_are_evened_out, rounds_can_be_even,
};
