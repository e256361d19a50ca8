// What is proved of putting in for every list, each as the contract of a function that does nothing.
ghost use Rattle.placing.specs.Statements.{ChainOpens, Enough, Puts, PutsAll};

// A chain opens a round for a meeting without a common free one.
pub fn chain_opens_a_round()
    ensures { ChainOpens }
{}

// Each meeting can be put in.
pub fn each_meeting_is_put_in()
    ensures { Puts }
{}

// All meetings are put in, with bounded looks.
pub fn all_meetings_are_put_in()
    ensures { PutsAll }
{}

// So many rounds are enough as the busiest has meetings.
#[tactic(auto, using(crate::proofs::PutAll::enough))]
pub fn rounds_are_enough()
    ensures { Enough }
{}
