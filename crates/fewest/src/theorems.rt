// What is proved of the number of rounds for every list, each as the contract of a function that does nothing.
ghost use Rattle.fewest.specs.Counting.{ByRounds};
ghost use Rattle.fewest.specs.Days.{DaysRight};
ghost use Rattle.fewest.specs.Statements.{Busiest, FewestLeast, NoneWithoutMeetings, NoFewer};

// What is counted round by round is counted whole.
#[tactic(auto, using(crate::proofs::Counting::by_rounds))]
pub fn counted_by_rounds()
    ensures { ByRounds }
{}

// The busiest number is that of some party, or 0, and no party has more.
pub fn busiest_is_largest()
    ensures { Busiest }
{}

// The number of rounds is the least that suffices for the busiest and for the rooms.
#[tactic(auto, using(crate::proofs::NoFewer::fewest_least))]
pub fn fewest_is_least()
    ensures { FewestLeast }
{}

// There are no rounds exactly where there are no meetings.
#[tactic(auto, using(crate::proofs::NoFewer::none_without_meetings))]
pub fn no_rounds_without_meetings()
    ensures { NoneWithoutMeetings }
{}

// No plan within the rooms has fewer rounds.
pub fn no_plan_has_fewer()
    ensures { NoFewer }
{}

// The table of small days is right.
#[tactic(auto, using(crate::proofs::Worked::days_right))]
pub fn days_are_right()
    ensures { DaysRight }
{}
