// What is proved of changes for every day and every row, each as the contract of a function that does nothing.
ghost use Rattle.changes.specs.Days.{FirstDayStands};
ghost use Rattle.changes.specs.Statements.{EveryChange, EveryRow};
ghost use Rattle.changes.specs.Rows.{OnlyWhatCan, ReadAsFirst, ReadThenWritten, RefusedAsFirst, TestedAsMade, WrittenAsBytes, WrittenThenRead};

// The first day of a proper list stands.
#[tactic(auto, using(crate::proofs::FirstDay::first_stands))]
pub fn first_day_stands()
    ensures { FirstDayStands }
{}

// A row that can be made is tested as what it comes to.
#[tactic(auto, using(crate::proofs::RowAccepted::tested_as_made))]
pub fn rows_tested_as_made()
    ensures { TestedAsMade }
{}

// A row that is accepted can be made.
#[tactic(auto, using(crate::proofs::RowAccepted::only_what_can))]
pub fn accepted_rows_can_be_made()
    ensures { OnlyWhatCan }
{}

// A row is refused for the first change that cannot be made.
#[tactic(auto, using(crate::proofs::RowRefused::refused_as_first))]
pub fn rows_refused_for_the_first_that_cannot()
    ensures { RefusedAsFirst }
{}

// Bytes are refused for the first of them that say no change that can be made.
#[tactic(auto, using(crate::proofs::RowRefused::read_as_first))]
pub fn bytes_refused_for_the_first_that_say_none()
    ensures { ReadAsFirst }
{}

// Bytes that are accepted say a row that can be made, and are what that row is written as.
pub fn rows_written_as_read()
    ensures { ReadThenWritten }
{}

// What a row that can be made is written as is accepted, and says that row.
#[tactic(auto, using(crate::proofs::RowWritten::written_then_read))]
pub fn rows_read_as_written()
    ensures { WrittenThenRead }
{}

// A row that can be made from a proper list is written by its bytes.
#[tactic(auto, using(crate::proofs::RowWritten::written_as_bytes))]
pub fn rows_have_bytes()
    ensures { WrittenAsBytes }
{}

// Every change that can be made leaves a day that stands, made from the day before by the rule.
#[tactic(auto, using(crate::proofs::NextDay::changes))]
pub fn change_leaves_a_day_that_stands()
    ensures { EveryChange }
{}

// So does every change of a row.
#[tactic(auto, using(crate::proofs::NextDay::rows))]
pub fn every_row_leaves_days_that_stand()
    ensures { EveryRow }
{}
