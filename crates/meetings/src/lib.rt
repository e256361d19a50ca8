// Meetings of groups with stations: their numbers, the list of a day, its bytes, and why something is refused.
#![tactic(auto)]

mod held;
mod limits;
mod list;
mod memory;
mod numbers;
mod reading;
mod refusal;
mod theorems;
mod writing;

pub use limits::{MOST, MOST_MEETINGS};
pub use list::MeetingList;
pub use numbers::{Group, Meeting, MeetingId, Round, Side, Station};
pub use reading::{HEAD, Source, read};
pub use refusal::{Lent, Limit, Refusal};
pub use theorems::{
    read_as_written, refusals_told_apart, refused_for_the_first_fault, written_as_read,
};
pub use writing::write;
