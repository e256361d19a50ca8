// What the programs share: reading what they are given, writing a file, and how a program ends.
#![tactic(auto)]

mod ending;
mod reading;
mod writing;

pub use ending::{answered, ended, failed, refused};
pub use reading::bytes_of;
pub use writing::{write_file, written_or_none};
