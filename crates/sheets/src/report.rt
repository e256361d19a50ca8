// What is told of a day.
ghost use Rattle.std.specs.Prelude.{◌≡◌, replicate};
ghost use Rattle.fewest.specs.Plans.{none};
ghost use Rattle.meetings.specs.Refusals.{IfMemory};

use balance::Planned;
use chains::NONE;
use meetings::Refusal;
use std::alloc::Global;

// What planning answers, how many meetings each round has, and the round of each meeting.
#[derive(Drop)]
pub struct Report {
    pub planned: Planned,
    pub of_rounds: Vec<u16>,
    pub of_meetings: Vec<u16>,
}

// The report of a day, and the bytes of the plan that it tells.
#[derive(Drop)]
pub struct Made {
    pub report: Report,
    pub plan: Vec<u8>,
}

// So many entries without a round or a meeting: they are lent, so none is a number. A `vec!` in place is not enough: the
// report's contract does not say what the slices held before planning, so a wrong filling would not be refused.
pub(crate) fn nothing(heap: Global, many: usize) -> Result<Vec<u16>, Refusal>
    ensures { IfMemory result (λ v. v.items ≡ replicate many none) }
{
    Ok(vec![in heap; NONE; many]?)
}
