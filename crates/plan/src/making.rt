// Making what is told of a day, and its plan.
ghost use Rattle.std.specs.Prelude.{◌≡◌, IfOk, string_bytes};
ghost use Rattle.meetings.specs.Bytes.{read_list};
ghost use Rattle.meetings.specs.Refusals.{Answers, accepted, then};
ghost use Rattle.plans.specs.Checking.{checked_bytes, fine};
ghost use Rattle.sheets.specs.ReportTexts.{report_text};
ghost use Rattle.sheets.specs.Reports.{told_of};

use meetings::Refusal;
use sheets::{made_of, report_text};
use std::alloc::Global;

// The report as text, and the bytes of the plan.
#[derive(Drop)]
pub(crate) struct Told {
    pub(crate) text: String,
    pub(crate) plan: Vec<u8>,
}

// What is told of the list that the bytes say. The rule of checking accepts the plan for these bytes.
pub(crate) fn told_of(heap: Global, bytes: &[u8]) -> Result<Told, Refusal>
    ensures told { Answers (λ t. string_bytes t.text) result (then (read_list bytes.now) (λ d. accepted (report_text (told_of d)))) }
    ensures accepted { IfOk result (λ t. checked_bytes bytes.now t.plan.items ≡ fine) }
{
    let made = made_of(heap, bytes)?;
    let text = report_text(heap, &made.report)?;
    Ok(Told {
        text,
        plan: made.plan,
    })
}
