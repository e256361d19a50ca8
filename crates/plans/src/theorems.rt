// What is proved of plans for all of them, each as the contract of a function that does nothing.
ghost use Rattle.plans.specs.Bytes.{ReadThenWritten, WrittenThenRead};
ghost use Rattle.plans.specs.Statements.{AcceptsChanged, AcceptsFewest, AcceptsPlanned, AcceptsStanding, RefusesFirst};

// Bytes that are accepted are as the plan that they say is written, and that has a round for each meeting.
#[tactic(auto, using(crate::proofs::BytesRead::read_then_written))]
pub fn plans_written_as_read()
    ensures { ReadThenWritten }
{}

// What a plan is written as is accepted, and says that plan.
#[tactic(auto, using(crate::proofs::BytesRead::written_then_read))]
pub fn plans_read_as_written()
    ensures { WrittenThenRead }
{}

// A plan is accepted just where it is one of the fewest rounds for the meetings that it does not drop.
#[tactic(auto, using(crate::proofs::Accepted::accepts_fewest))]
pub fn accepted_where_of_the_fewest_rounds()
    ensures { AcceptsFewest }
{}

// A plan is refused for its first fault, and just for that.
#[tactic(auto, using(crate::proofs::FirstFault::refuses_first))]
pub fn refused_for_the_first_fault()
    ensures { RefusesFirst }
{}

// The plan of a day that stands is accepted.
#[tactic(auto, using(crate::proofs::Made::accepts_standing))]
pub fn standing_plans_are_accepted()
    ensures { AcceptsStanding }
{}

// So is the plan that planning makes of a list.
#[tactic(auto, using(crate::proofs::Made::accepts_planned))]
pub fn made_plans_are_accepted()
    ensures { AcceptsPlanned }
{}

// So is the last plan of every row of changes.
#[tactic(auto, using(crate::proofs::Made::accepts_changed))]
pub fn changed_plans_are_accepted()
    ensures { AcceptsChanged }
{}
