// Making a row of changes on a day.
ghost use Rattle.std.specs.Prelude.{◌≡◌, ℕ, ◌*◌, ◌≤◌, List, length, take, IfOk};
ghost use Rattle.meetings.specs.Bytes.{bytes_of};
ghost use Rattle.meetings.specs.Held.{contents};
ghost use Rattle.meetings.specs.Lists.{most, most_meetings};
ghost use Rattle.meetings.specs.Refusals.{Answers, IfMemory};
ghost use Rattle.fewest.specs.Rounds.{fewest};
ghost use Rattle.changes.specs.Days.{first_day};
ghost use Rattle.changes.specs.Numbered.{whole};
ghost use Rattle.changes.specs.Rows.{CanAll};
ghost use Rattle.changes.specs.Told.{OfRow, RowPromised, told};
ghost use Rattle.plans.specs.Bytes.{bytes_of_plan};
ghost use Rattle.plans.specs.Checking.{checked_bytes, fine};
ghost use Rattle.day.specs.Reports.{AcceptedFor, KeepsPromise, added, last_of, plan_last, rounds_after, told_of};

use crate::listing::list_told;
use changes::{Change, Changed, change_day, read_changes};
use fewest::fewest_rounds;
use meetings::{MOST, MOST_MEETINGS, MeetingList, Refusal, read};
use plans::write_plan;
use std::alloc::Global;

// The most entries of the rows of a side. No day has more rounds than meetings.
const MOST_ENTRIES: usize = MOST as usize * MOST_MEETINGS;

// A slice to be lent. What it holds does not matter.
fn lent(heap: Global, long: usize) -> Result<Vec<u16>, Refusal>
    ensures { IfMemory result (λ v. length v.items ≡ long) }
{
    Ok(vec![in heap; 0u16; long]?)
}

// What is told of each change, and the bytes of the last plan and of the list that it is for.
#[derive(Drop)]
pub(crate) struct Made {
    pub(crate) told: Vec<Changed>,
    pub(crate) plan: Vec<u8>,
    pub(crate) list: Vec<u8>,
}

// How many meetings a row adds.
fn added(changes: &[Change]) -> usize
    ensures { result ≡ added changes.now }
{
    changes
        .iter()
        .filter(|change| matches!(change, Change::Add(_)))
        .count()
}

// How many numbers of meetings are given out in the end, those of the list and of the added ones.
pub(crate) fn numbers(list: &MeetingList, changes: &[Change]) -> usize
    requires { CanAll (whole (contents list.now)) changes.now }
    ensures all { result ≡ length (last_of (contents list.now) changes.now).list.meetings }
    ensures few { result ≤ most_meetings }
{
    list.meetings().len() + added(changes)
}

// The number of rounds in the end: after the last change, or that of the list.
fn rounds_told(heap: Global, list: &MeetingList, each: &[Changed]) -> Result<u16, Refusal>
    ensures { IfMemory result (λ r. r ≡ rounds_after (fewest (contents list.now)) each.now) }
{
    match each.last() {
        Some(changed) => Ok(changed.rounds),
        None => fewest_rounds(heap, list),
    }
}

// The bytes of the last plan. Only memory can be wanting.
fn plan_told(
    heap: Global,
    list: &MeetingList,
    changes: &[Change],
    each: &[Changed],
    rounds: &[u16],
) -> Result<Vec<u8>, Refusal>
    requires can { CanAll (whole (contents list.now)) changes.now }
    requires told { each.now ≡ told (first_day (contents list.now)) changes.now }
    requires enough { most_meetings ≤ length rounds.now }
    requires last { take (length (last_of (contents list.now) changes.now).list.meetings) rounds.now ≡ (last_of (contents list.now) changes.now).at }
    ensures { IfMemory result (λ v. v.items ≡ bytes_of_plan (plan_last (contents list.now) changes.now)) }
{
    let many = numbers(list, changes);
    let number = rounds_told(heap, list, each)?;
    write_plan(heap, number, &rounds[0..many])
}

// Makes the changes in slices that are lent as long as any row of changes asks for, so that none of them is refused.
fn changed_in(
    heap: Global,
    list: &MeetingList,
    changes: &[Change],
    rounds: &mut [u16],
    group_rows: &mut [u16],
    station_rows: &mut [u16],
) -> Result<Vec<Changed>, Refusal>
    requires can { CanAll (whole (contents list.now)) changes.now }
    requires rounds { most_meetings ≤ length rounds.old }
    requires groups { most * most_meetings ≤ length group_rows.old }
    requires stations { most * most_meetings ≤ length station_rows.old }
    ensures told { IfMemory result (λ ts. ts.items ≡ told (first_day (contents list.now)) changes.now) }
    ensures last { IfOk result (λ _. take (length (last_of (contents list.now) changes.now).list.meetings) rounds.new ≡ (last_of (contents list.now) changes.now).at) }
    ensures promised { IfOk result (λ ts. RowPromised (contents list.now) changes.now ts.items rounds.new) }
{
    change_day(heap, list, changes, rounds, group_rows, station_rows)
}

// What is told of a row, the last plan and its list. Only memory can be wanting.
fn made_on(heap: Global, list: &MeetingList, changes: &[Change]) -> Result<Made, Refusal>
    requires { CanAll (whole (contents list.now)) changes.now }
    ensures told { IfMemory result (λ m. m.told.items ≡ told (first_day (contents list.now)) changes.now) }
    ensures plan { IfOk result (λ m. m.plan.items ≡ bytes_of_plan (plan_last (contents list.now) changes.now)) }
    ensures list { IfOk result (λ m. m.list.items ≡ bytes_of (last_of (contents list.now) changes.now).list) }
    ensures promised { IfOk result (λ m. (xs : List ℕ) × RowPromised (contents list.now) changes.now m.told.items xs) }
{
    let mut rounds = lent(heap, MOST_MEETINGS)?;
    let mut group_rows = lent(heap, MOST_ENTRIES)?;
    let mut station_rows = lent(heap, MOST_ENTRIES)?;
    let told = changed_in(
        heap,
        list,
        changes,
        &mut rounds,
        &mut group_rows,
        &mut station_rows,
    )?;
    let plan = plan_told(heap, list, changes, &told, &rounds)?;
    let list = list_told(heap, list, changes)?;
    Ok(Made { told, plan, list })
}

// The same of the list and the row that the bytes say. There are rounds of the last day of which the promise of a row holds.
fn made_by_rule(heap: Global, day: &[u8], changes: &[u8]) -> Result<Made, Refusal>
    ensures told { Answers (λ m. m.told.items) result (told_of day.now changes.now) }
    ensures plan { IfOk result (λ m. OfRow day.now changes.now (λ d cs. m.plan.items ≡ bytes_of_plan (plan_last d cs))) }
    ensures list { IfOk result (λ m. OfRow day.now changes.now (λ d cs. m.list.items ≡ bytes_of (last_of d cs).list)) }
    ensures promised { IfOk result (λ m. KeepsPromise day.now changes.now m.told.items) }
{
    let list = read(heap, day)?;
    let changes = read_changes(heap, &list, changes)?;
    made_on(heap, &list, &changes)
}

// And the rule of checking accepts the plan, for all bytes that say the list of the last day, so for those that are made here.
pub(crate) fn made_of(heap: Global, day: &[u8], changes: &[u8]) -> Result<Made, Refusal>
    ensures told { Answers (λ m. m.told.items) result (told_of day.now changes.now) }
    ensures plan { IfOk result (λ m. OfRow day.now changes.now (λ d cs. m.plan.items ≡ bytes_of_plan (plan_last d cs))) }
    ensures list { IfOk result (λ m. OfRow day.now changes.now (λ d cs. m.list.items ≡ bytes_of (last_of d cs).list)) }
    ensures accepted { IfOk result (λ m. OfRow day.now changes.now (λ d cs. AcceptedFor (last_of d cs).list m.plan.items)) }
    ensures checked { IfOk result (λ m. OfRow day.now changes.now (λ d cs. checked_bytes m.list.items m.plan.items ≡ fine)) }
    ensures promised { IfOk result (λ m. KeepsPromise day.now changes.now m.told.items) }
{
    made_by_rule(heap, day, changes)
}
