// Putting meetings in: the lowest common free round, else a chain.
#![tactic(auto)]

mod all;
mod free;
mod put;
mod theorems;

pub use all::put_in_all;
pub use put::{Put, put_in};
pub use theorems::{
    all_meetings_are_put_in, chain_opens_a_round, each_meeting_is_put_in, rounds_are_enough,
};
