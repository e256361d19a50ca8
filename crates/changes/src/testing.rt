// Testing a row of changes before any is made.
ghost use Rattle.meetings.specs.Held.{contents};
ghost use Rattle.meetings.specs.Refusals.{Answers};
ghost use Rattle.changes.specs.Tested.{row_tested, tested_lists};

use crate::change::Change;
use crate::register::Register;
use crate::tested::Tested;
use meetings::{MeetingList, Refusal};
use std::alloc::Global;

// All meetings that have a number after these changes, and the number of rounds after each, or the first that cannot be made.
pub(crate) fn test(heap: Global, list: &MeetingList, changes: &[Change]) -> Result<Tested, Refusal>
    ensures { Answers tested_lists result (row_tested (contents list.now) changes.now) }
{
    let mut register = Register::of(heap, list)?;
    let mut rounds = Vec::new(heap);
    for (at, change) in changes.iter().enumerate() {
        if !register.can(*change) {
            return Err(Refusal::BadChange(at));
        }
        register.make(*change)?;
        rounds.push(register.rounds())?;
    }
    Ok(Tested {
        meetings: register.into_meetings(),
        rounds,
    })
}
