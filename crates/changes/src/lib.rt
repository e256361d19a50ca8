// Changing a day: meetings are added and dropped, rooms are given up and got, and after each change there is a plan again, made
// from the one before.
#![tactic(auto)]

mod change;
mod changed;
mod day;
mod kept;
mod making;
mod making_again;
mod moving;
mod putting;
mod reading;
mod register;
mod row;
mod rows;
mod sizes;
mod taking;
mod tested;
mod testing;
mod theorems;
mod writing;

pub use change::Change;
pub use changed::Changed;
pub use day::{change_bytes, change_day};
pub use reading::read_changes;
pub use register::Register;
pub use theorems::{
    accepted_rows_can_be_made, bytes_refused_for_the_first_that_say_none,
    change_leaves_a_day_that_stands, every_row_leaves_days_that_stand, first_day_stands,
    rows_have_bytes, rows_read_as_written, rows_refused_for_the_first_that_cannot,
    rows_tested_as_made, rows_written_as_read,
};
pub use writing::write_changes;
