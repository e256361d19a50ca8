// What is proved of sheets for every plan, each as the contract of a function that does nothing.
ghost use Rattle.sheets.specs.Met.{RowsTellMeetings, SheetsAgree};

// A row tells with whom the party has a meeting, and that it has none where it says so.
#[tactic(auto, using(crate::proofs::Meeting::rows_tell_meetings))]
pub fn rows_tell_just_the_meetings()
    ensures { RowsTellMeetings }
{}

// A group's row has a station in a round just where the station's row has the group there.
#[tactic(auto, using(crate::proofs::Meeting::sheets_agree))]
pub fn sheets_tell_the_same()
    ensures { SheetsAgree }
{}
