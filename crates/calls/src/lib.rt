// The planning call and the call for changes as C and Rust have them: bytes, three lent slices, and an answer of plain numbers.
#![tactic(auto)]

mod answers;
mod changing;
mod planning;

pub use answers::{PlanAnswer, RowAnswer};
pub use changing::cirdumash_change;
pub use planning::cirdumash_plan;
