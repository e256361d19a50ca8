// Chains of two rounds: the board, the part of a meeting, and exchanging its rounds.
#![tactic(auto)]

mod board;
mod exchanging;
mod following;
mod found;
mod neighbours;
mod reading;
mod rows;
mod shapes;
mod starting;
mod theorems;
mod writing;

pub use board::{Board, NONE};
pub use found::Found;
pub use neighbours::TwoRounds;
pub use reading::{round_in, row_in};
pub use shapes::Shape;
pub use starting::empty;
pub use theorems::{
    chain_is_whole_part, chain_never_comes_to_group, exchange_counts, exchange_keeps_plan,
    following_ends, others_keep_their_rounds, parts_are_closed_and_linked, parts_are_short,
    rounds_say_all,
};
