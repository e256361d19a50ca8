// The sheets that bytes say, as text.
ghost use Rattle.std.specs.Prelude.{string_bytes};
ghost use Rattle.meetings.specs.Held.{contents};
ghost use Rattle.meetings.specs.Refusals.{Answers, accepted, then};
ghost use Rattle.plans.specs.Checking.{checked};
ghost use Rattle.sheets.specs.Texts.{plan_text, printed};

use crate::making::sheets_of;
use crate::texts::text_of;
use meetings::{MeetingList, Refusal, read};
use plans::read_plan;
use std::alloc::Global;

// The text of the sheets of a plan.
fn plan_sheets(
    heap: Global,
    list: &MeetingList,
    rounds: u16,
    of_meetings: &[u16],
) -> Result<String, Refusal>
    ensures { Answers string_bytes result (then (checked (contents list.now) rounds of_meetings.now) (λ _. accepted (plan_text (contents list.now) rounds of_meetings.now))) }
{
    let sheets = sheets_of(heap, list, rounds, of_meetings)?;
    text_of(heap, list, &sheets)
}

// The text of the sheets of the list and the plan that bytes say: a sheet for each group, and then one for each station. A list that
// breaks a rule is refused first, as reading does, then the plan, as checking it does.
pub fn print_sheets(heap: Global, day: &[u8], plan: &[u8]) -> Result<String, Refusal>
    ensures { Answers string_bytes result (printed day.now plan.now) }
{
    let list = read(heap, day)?;
    let plan = read_plan(heap, &list, plan)?;
    plan_sheets(heap, &list, plan.rounds, &plan.of_meetings)
}
