// Plans in bytes, and a checker that accepts a plan from anybody just where it is one of the fewest rounds.
#![tactic(auto)]

mod alone;
mod checking;
mod given;
mod kept;
mod reading;
mod rooms;
mod seen;
mod theorems;
mod writing;

pub use checking::{check, check_bytes};
pub use given::{GivenPlan, is_dropped};
pub use reading::read_plan;
pub use theorems::{
    accepted_where_of_the_fewest_rounds, changed_plans_are_accepted, made_plans_are_accepted,
    plans_read_as_written, plans_written_as_read, refused_for_the_first_fault,
    standing_plans_are_accepted,
};
pub use writing::write_plan;
