// What is told of a plan.
ghost use Rattle.std.specs.Prelude.{◌≡◌, ℕ, List, IfOk};
ghost use Rattle.std.specs.Process.{exit_status};
ghost use Rattle.meetings.specs.Refusals.{accepted};
ghost use Rattle.sheets.specs.Texts.{printed};

use programs::answered;
use sheets::print_sheets;
use std::io;
use std::process::ExitCode;

// Prints the sheets of the list and the plan that the bytes say, or the refusal. The status is 0 only where the rule prints sheets.
#[tactic(auto, using(crate::proofs::Printing::only_printed))]
pub(crate) fn told_of<R: Print + AllocGlobal>(
    rt: &R,
    day: &[u8],
    plan: &[u8],
) -> io::Result<ExitCode>
    ensures { IfOk result (λ e. exit_status e ≡ 0 → (text : List ℕ) × (printed day.now plan.now ≡ accepted text)) }
{
    answered(rt, print_sheets(rt.alloc(), day, plan))
}
