// Making the report and the plan of a day.
ghost use Rattle.std.specs.Prelude.{◌≡◌, ◌*◌, length, IfOk};
ghost use Rattle.meetings.specs.Bytes.{read_list};
ghost use Rattle.meetings.specs.Held.{contents};
ghost use Rattle.meetings.specs.Refusals.{accepted, then, Answers, IfMemory};
ghost use Rattle.fewest.specs.Rounds.{fewest};
ghost use Rattle.balance.specs.Lent.{OfBytes, PlansDay};
ghost use Rattle.plans.specs.Bytes.{bytes_of_plan};
ghost use Rattle.plans.specs.Checking.{checked_bytes, fine};
ghost use Rattle.sheets.specs.Reports.{ToldBy, plan_told, told, told_of};

use crate::report::{Made, Report, nothing};
use balance::{Planned, count_rounds, plan};
use fewest::fewest_rounds;
use meetings::{MeetingList, Refusal};
use plans::write_plan;
use std::alloc::Global;

// Plans in slices that are lent just as long as the number of rounds asks for, so that none of them is refused. A function of its
// own: that only memory can be wanting is proved of this call by itself.
fn plan_exactly(
    heap: Global,
    list: &MeetingList,
    of_meetings: &mut [u16],
    group_rows: &mut [u16],
    station_rows: &mut [u16],
) -> Result<Planned, Refusal>
    requires each { length of_meetings.old ≡ length (contents list.now).meetings }
    requires groups { length group_rows.old ≡ (contents list.now).groups * fewest (contents list.now) }
    requires stations { length station_rows.old ≡ (contents list.now).stations * fewest (contents list.now) }
    ensures told { IfMemory result (λ p. ToldBy (contents list.now) p of_meetings.new) }
    ensures planned { IfOk result (PlansDay (contents list.now) of_meetings.new) }
{
    plan(heap, list, of_meetings, group_rows, station_rows)
}

// The report of a list. The rows are lent just as long as the number of rounds asks for, so only memory can be wanting.
fn report_on(heap: Global, list: &MeetingList) -> Result<Report, Refusal>
    ensures told { IfMemory result (λ report. told report ≡ told_of (contents list.now)) }
    ensures planned { IfOk result (λ report. PlansDay (contents list.now) report.of_meetings.items report.planned) }
{
    let rounds = usize::from(fewest_rounds(heap, list)?);
    let mut of_meetings = nothing(heap, list.meetings().len())?;
    let mut group_rows = nothing(heap, usize::from(list.groups()) * rounds)?;
    let mut station_rows = nothing(heap, usize::from(list.stations()) * rounds)?;
    let planned = plan_exactly(
        heap,
        list,
        &mut of_meetings,
        &mut group_rows,
        &mut station_rows,
    )?;
    let mut of_rounds = vec![in heap; 0u16; rounds]?;
    count_rounds(&of_meetings, &mut of_rounds);
    Ok(Report {
        planned,
        of_rounds,
        of_meetings,
    })
}

// The report of a list, and the plan that it tells as bytes. Only memory can be wanting.
fn made_on(heap: Global, list: &MeetingList) -> Result<Made, Refusal>
    ensures told { IfMemory result (λ m. told m.report ≡ told_of (contents list.now)) }
    ensures plan { IfOk result (λ m. m.plan.items ≡ bytes_of_plan (plan_told (told m.report))) }
    ensures planned { IfOk result (λ m. PlansDay (contents list.now) m.report.of_meetings.items m.report.planned) }
{
    let report = report_on(heap, list)?;
    let plan = write_plan(heap, report.planned.rounds, &report.of_meetings)?;
    Ok(Made { report, plan })
}

// The same of the list that the bytes say. What is told is a plan within the rooms and even, and no plan has fewer rounds.
fn made_by_rule(heap: Global, bytes: &[u8]) -> Result<Made, Refusal>
    ensures told { Answers (λ m. told m.report) result (then (read_list bytes.now) (λ d. accepted (told_of d))) }
    ensures plan { IfOk result (λ m. m.plan.items ≡ bytes_of_plan (plan_told (told m.report))) }
    ensures planned { IfOk result (λ m. OfBytes bytes.now (λ d. PlansDay d m.report.of_meetings.items m.report.planned)) }
{
    let list = meetings::read(heap, bytes)?;
    made_on(heap, &list)
}

// And the rule of checking accepts the plan, for these bytes of the list.
pub fn made_of(heap: Global, bytes: &[u8]) -> Result<Made, Refusal>
    ensures told { Answers (λ m. told m.report) result (then (read_list bytes.now) (λ d. accepted (told_of d))) }
    ensures plan { IfOk result (λ m. m.plan.items ≡ bytes_of_plan (plan_told (told m.report))) }
    ensures accepted { IfOk result (λ m. checked_bytes bytes.now m.plan.items ≡ fine) }
    ensures planned { IfOk result (λ m. OfBytes bytes.now (λ d. PlansDay d m.report.of_meetings.items m.report.planned)) }
{
    made_by_rule(heap, bytes)
}
