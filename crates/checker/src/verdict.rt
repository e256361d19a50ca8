// What is told of a plan.
ghost use Rattle.std.specs.Prelude.{◌≡◌, IfOk, MatchResult};
ghost use Rattle.std.specs.Process.{exit_status};
ghost use Rattle.plans.specs.Checking.{checked_bytes, fine};
ghost use Rattle.plans.specs.Given.{FewestPlan};
ghost use Rattle.plans.specs.Statements.{OfPlan};

use meetings::Refusal;
use plans::check_bytes;
use programs::refused;
use std::io;
use std::process::ExitCode;

// One line, and the status 0 just where the plan was accepted.
fn told(rt: &impl Print, checked: Result<(), Refusal>) -> io::Result<ExitCode>
    ensures { IfOk result (λ e. MatchResult checked (λ _. exit_status e ≡ 0) (λ _. exit_status e ≡ 1)) }
{
    match checked {
        Ok(()) => {
            println!(rt; "accepted")?;
            Ok(ExitCode::SUCCESS)
        }
        Err(refusal) => refused(rt, refusal),
    }
}

// What is told of the plan and the list that the bytes say. The status is 0 only where the rule accepts the plan.
fn told_by_rule<R: Print + AllocGlobal>(rt: &R, day: &[u8], plan: &[u8]) -> io::Result<ExitCode>
    ensures { IfOk result (λ e. exit_status e ≡ 0 → checked_bytes day.now plan.now ≡ fine) }
{
    told(rt, check_bytes(rt.alloc(), day, plan))
}

// And then the plan is one of the fewest rounds.
pub(crate) fn told_of<R: Print + AllocGlobal>(
    rt: &R,
    day: &[u8],
    plan: &[u8],
) -> io::Result<ExitCode>
    ensures accepted { IfOk result (λ e. exit_status e ≡ 0 → checked_bytes day.now plan.now ≡ fine) }
    ensures fewest { IfOk result (λ e. exit_status e ≡ 0 → OfPlan day.now plan.now (λ d p. FewestPlan d p.rounds p.at)) }
{
    told_by_rule(rt, day, plan)
}
