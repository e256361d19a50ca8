// The number of rounds.
ghost use Rattle.std.specs.Prelude.{◌≡◌, IfOk};
ghost use Rattle.meetings.specs.Held.{contents};
ghost use Rattle.meetings.specs.Refusals.{IfMemory};
ghost use Rattle.fewest.specs.Rounds.{fewest};
ghost use Rattle.fewest.specs.Statements.{Least, LeastOfPlans};

use crate::tally::Tally;
use meetings::{MeetingList, Refusal};
use std::alloc::Global;

// The number alone.
fn tallied_rounds(heap: Global, list: &MeetingList) -> Result<u16, Refusal>
    ensures { IfMemory result (λ x. x ≡ fewest (contents list.now)) }
{
    let tally = Tally::of(heap, list)?;
    // `as`, since it is proved to fit
    Ok(tally.rounds(list.meetings().len() as u16, list.rooms()))
}

// The fewest rounds in which all meetings can be held: the larger of what the busiest group or station has, and of what the
// rooms ask for. It is the least number that suffices for the busiest and for the rooms, and no plan within the rooms has
// fewer. Only memory can be wanting.
#[tactic(auto, using(crate::proofs::NoFewer::least_said, crate::proofs::NoFewer::no_fewer_answered))]
pub fn fewest_rounds(heap: Global, list: &MeetingList) -> Result<u16, Refusal>
    ensures answer { IfMemory result (λ x. x ≡ fewest (contents list.now)) }
    ensures least { IfOk result (Least (contents list.now)) }
    ensures no_fewer { IfOk result (LeastOfPlans (contents list.now)) }
{
    tallied_rounds(heap, list)
}
