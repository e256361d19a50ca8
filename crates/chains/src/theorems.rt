// What is proved of chains for every list, each as the contract of a function that does nothing.
ghost use Rattle.chains.specs.Statements.{ChainWhole, Ends, ExchangeCounts, ExchangeKeeps, NeverComes, OneBoard, OthersStay, Parts, Short};

// Following ends by itself.
#[tactic(auto, using(crate::proofs::Walks::ends))]
pub fn following_ends()
    ensures { Ends }
{}

// The part of a meeting is all that is linked to it, each meeting once, and its two rounds differ by one at most.
pub fn parts_are_closed_and_linked()
    ensures { Parts }
{}

// A chain from a station that is free in the other round is the whole part.
pub fn chain_is_whole_part()
    ensures { ChainWhole }
{}

// A chain never comes to the group that it is followed for.
pub fn chain_never_comes_to_group()
    ensures { NeverComes }
{}

// A part of the meetings of n groups and k stations has n + k meetings at most.
pub fn parts_are_short()
    ensures { Short }
{}

// Exchanging two rounds on a closed set keeps a partial plan.
pub fn exchange_keeps_plan()
    ensures { ExchangeKeeps }
{}

// Every meeting outside keeps its round, and every other round its number of meetings.
pub fn others_keep_their_rounds()
    ensures { OthersStay }
{}

// Each of the two rounds gets what was in the other of the part, and loses what was in it.
#[tactic(auto, using(crate::proofs::Exchange::exchange_counts))]
pub fn exchange_counts()
    ensures { ExchangeCounts }
{}

// The rounds say all that a board holds.
#[tactic(auto, using(crate::proofs::OneBoard::one_board))]
pub fn rounds_say_all()
    ensures { OneBoard }
{}
