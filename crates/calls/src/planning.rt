// The planning call.
ghost use Rattle.std.specs.Prelude.{◌≡◌, length};
ghost use Rattle.meetings.specs.Bytes.{read_list};
ghost use Rattle.meetings.specs.Refusals.{then};
ghost use Rattle.balance.specs.Lent.{OfBytes, PlannedLent, PlansDay, Unchanged, planned_of};
ghost use Rattle.calls.specs.Coded.{Leaves, Says, coded_plan};

use crate::answers::{PlanAnswer, plan_answer};
use balance::plan_bytes;
use std::alloc::Global;

// Plans the day that the bytes say, as `balance::plan_bytes` does: the answer is what that answers, and the lent slices hold what
// it leaves.
#[tactic(auto, using(crate::proofs::Coding::says_plan, crate::proofs::Coding::leaves_plan, crate::proofs::Coding::promised_plan))]
#[unsafe(no_mangle)]
pub extern "C" fn cirdumash_plan(
    heap: Global,
    day: &[u8],
    rounds: &mut [u16],
    group_rows: &mut [u16],
    station_rows: &mut [u16],
) -> PlanAnswer
    ensures answer { Says coded_plan result (then (read_list day.now) (λ d. planned_of d (length rounds.old) (length group_rows.old) (length station_rows.old))) }
    ensures lent { Leaves result.refusal (OfBytes day.now (λ d. PlannedLent d rounds.old rounds.new group_rows.old group_rows.new station_rows.old station_rows.new)) (Unchanged rounds.old rounds.new group_rows.old group_rows.new station_rows.old station_rows.new) }
    ensures planned { result.refusal ≡ 0 → OfBytes day.now (λ d. PlansDay d rounds.new (record { rounds = result.rounds; looks = result.looks })) }
{
    plan_answer(plan_bytes(heap, day, rounds, group_rows, station_rows))
}
