// What is proved of evening out for every list, each as the contract of a function that does nothing.
ghost use Rattle.balance.specs.Statements.{Ends, Enough, Even, EvensOut, FindsFirst, OneExchange, PartWithOneMore};

// If one round has more meetings than another there is a part with just one more.
pub fn part_with_one_more()
    ensures { PartWithOneMore }
{}

// Looking finds the first such part.
pub fn looking_finds_the_first()
    ensures { FindsFirst }
{}

// One exchange makes the rounds one step nearer to even.
pub fn one_exchange_is_nearer()
    ensures { OneExchange }
{}

// Evening out ends by itself, after as many exchanges as the rounds are far from even.
pub fn evening_out_ends()
    ensures { Ends }
{}

// Evening out leaves even rounds, in which all meetings that had a round have one.
pub fn rounds_are_evened_out()
    ensures { EvensOut }
{}

// So many rounds are enough, with so many rooms.
pub fn rounds_are_enough()
    ensures { Enough }
{}

// And the meetings can be spread evenly over them.
pub fn rounds_can_be_even()
    ensures { Even }
{}
