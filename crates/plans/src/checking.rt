// Checking a plan from anybody.
ghost use Rattle.std.specs.Prelude.{◌≡◌, ℕ, ◌<◌, ◌≤◌, length, IfOk, ◌≢◌};
ghost use Rattle.meetings.specs.Held.{contents};
ghost use Rattle.meetings.specs.Lists.{most_meetings};
ghost use Rattle.meetings.specs.Refusals.{Answers, outcome};
ghost use Rattle.fewest.specs.Plans.{none};
ghost use Rattle.chains.specs.Partial.{round_of};
ghost use Rattle.plans.specs.Checking.{as_long, checked, checked_bytes, each, in_rounds};
ghost use Rattle.plans.specs.Faults.{PlanOrFault};
ghost use Rattle.plans.specs.Statements.{OfPlan};

use crate::alone::nobody_twice;
use crate::given::{bytes_for, is_dropped};
use crate::kept::is_fewest;
use crate::reading::read_plan;
use crate::rooms::none_crowded;
use meetings::{MeetingId, MeetingList, Refusal, read};
use std::alloc::Global;

// As many rounds as meetings. Where they are not, the place is that of the bytes of the plan.
fn as_long(many: usize, long: usize) -> Result<(), Refusal>
    requires { many ≤ most_meetings }
    ensures answer { outcome (λ _. tt) result ≡ as_long many long }
    ensures same { IfOk result (λ _. long ≡ many) }
{
    if long < many {
        return Err(Refusal::Length(bytes_for(long)));
    }
    if long > many {
        return Err(Refusal::Length(bytes_for(many)));
    }
    Ok(())
}

// Each meeting has none, or one of so many rounds.
fn in_rounds(of_meetings: &[u16], rounds: u16) -> Result<(), Refusal>
    requires { length of_meetings.now ≤ none }
    ensures answer { outcome (λ _. tt) result ≡ each (in_rounds rounds of_meetings.now) (length of_meetings.now) 0 }
    ensures below { IfOk result (λ _. (i : ℕ) → i < length of_meetings.now → (round_of of_meetings.now i ≢ none) → round_of of_meetings.now i < rounds) }
{
    for (i, round) in of_meetings.iter().enumerate() {
        if !is_dropped(*round) && *round >= rounds {
            // `as`, since it is proved to fit
            return Err(Refusal::NoSuchRound(MeetingId(i as u16)));
        }
    }
    Ok(())
}

// What the rule says of a plan.
#[tactic(auto, unfolding(crate::specs::Checking::checked))]
fn check_by_rule(
    heap: Global,
    list: &MeetingList,
    rounds: u16,
    of_meetings: &[u16],
) -> Result<(), Refusal>
    ensures { Answers (λ _. tt) result (checked (contents list.now) rounds of_meetings.now) }
{
    as_long(list.meetings().len(), of_meetings.len())?;
    in_rounds(of_meetings, rounds)?;
    nobody_twice(heap, list, rounds, of_meetings)?;
    none_crowded(heap, rounds, of_meetings, list.rooms())?;
    is_fewest(heap, list, rounds, of_meetings)
}

// Whether so many rounds, and these of the meetings, 65,535 for a dropped one, are a plan of the fewest rounds for the meetings that
// are not dropped; evenness is not asked. Else the first fault is told.
#[tactic(auto, using(crate::proofs::Verdicts::verdict_of_list))]
pub fn check(
    heap: Global,
    list: &MeetingList,
    rounds: u16,
    of_meetings: &[u16],
) -> Result<(), Refusal>
    ensures answer { Answers (λ _. tt) result (checked (contents list.now) rounds of_meetings.now) }
    ensures verdict { PlanOrFault (contents list.now) rounds of_meetings.now result }
{
    check_by_rule(heap, list, rounds, of_meetings)
}

// The same of a list and a plan that bytes say: a list that breaks a rule is refused first, as reading does, then a plan that ends
// too early or goes on, and then as `check` does.
#[tactic(auto, using(crate::proofs::Verdicts::verdict_of_bytes))]
pub fn check_bytes(heap: Global, day: &[u8], plan: &[u8]) -> Result<(), Refusal>
    ensures answer { Answers (λ _. tt) result (checked_bytes day.now plan.now) }
    ensures verdict { OfPlan day.now plan.now (λ d p. PlanOrFault d p.rounds p.at result) }
{
    let list = read(heap, day)?;
    let plan = read_plan(heap, &list, plan)?;
    check(heap, &list, plan.rounds, &plan.of_meetings)
}
