// What is proved of lists and refusals for all of them, each as the contract of a function that does nothing.
ghost use Rattle.meetings.specs.Faults.{FirstFault};
ghost use Rattle.meetings.specs.RoundTrips.{ReadThenWritten, WrittenThenRead};
ghost use Rattle.meetings.specs.ToldApart.{ToldApart};

// Bytes that are accepted say a proper list, and are what that list is written as.
pub fn written_as_read()
    ensures { ReadThenWritten }
{}

// What a proper list is written as is accepted, and says that list.
#[tactic(auto, using(crate::proofs::Written::written_then_read))]
pub fn read_as_written()
    ensures { WrittenThenRead }
{}

// Bytes that are accepted have no fault, and a refusal tells the first: no fault shows at a byte before it.
#[tactic(auto, using(crate::proofs::FirstFault::first_fault))]
pub fn refused_for_the_first_fault()
    ensures { FirstFault }
{}

// A refusal is told by its number and its place.
#[tactic(auto, using(crate::proofs::ToldApart::told_apart))]
pub fn refusals_told_apart()
    ensures { ToldApart }
{}
