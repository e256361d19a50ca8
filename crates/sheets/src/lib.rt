// What is told: the report of a plan and of a row of changes, and a sheet for each group and each station.
#![tactic(auto)]

mod entering;
mod line;
mod making;
mod printing;
mod report;
mod report_texts;
mod reporting;
mod sheets;
mod texts;
mod theorems;

pub use making::sheets_of;
pub use printing::print_sheets;
pub use report::{Made, Report};
pub use report_texts::{changes_text, report_text};
pub use reporting::made_of;
pub use sheets::Sheets;
pub use texts::text_of;
pub use theorems::{rows_tell_just_the_meetings, sheets_tell_the_same};
