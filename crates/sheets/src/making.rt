// Making the sheets of a plan.
ghost use Rattle.std.specs.Prelude.{◌≡◌, IfOk};
ghost use Rattle.meetings.specs.Held.{contents};
ghost use Rattle.meetings.specs.Lists.{parties};
ghost use Rattle.meetings.specs.Refusals.{Answers, IfMemory};
ghost use Rattle.chains.specs.Partial.{Partial};
ghost use Rattle.plans.specs.Checking.{checked};
ghost use Rattle.sheets.specs.Told.{RowsOf, SheetsOf};

use crate::entering::enter_all;
use crate::sheets::Sheets;
use meetings::{MeetingList, Refusal, Side};
use plans::check;
use std::alloc::Global;

// The rows of a side. Only memory can be wanting.
fn rows_of(
    heap: Global,
    list: &MeetingList,
    rounds: u16,
    of_meetings: &[u16],
    side: Side,
    many: u16,
) -> Result<Vec<Option<u16>>, Refusal>
    requires many { many ≡ parties side (contents list.now).groups (contents list.now).stations }
    requires partial { Partial rounds (contents list.now).meetings of_meetings.now }
    ensures { IfMemory result (λ v. RowsOf (contents list.now) rounds of_meetings.now side v.items) }
{
    let mut rows = vec![in heap; None; many as usize * rounds as usize]?;
    enter_all(list.meetings(), of_meetings, side, rounds, &mut rows);
    Ok(rows)
}

// The sheets of a plan with so many rounds, and with these of the meetings, 65,535 for a dropped one. A plan that is not one of the
// fewest rounds is refused, as checking it does.
pub fn sheets_of(
    heap: Global,
    list: &MeetingList,
    rounds: u16,
    of_meetings: &[u16],
) -> Result<Sheets, Refusal>
    ensures answer { Answers (λ _. tt) result (checked (contents list.now) rounds of_meetings.now) }
    ensures told { IfOk result (SheetsOf (contents list.now) rounds of_meetings.now) }
{
    check(heap, list, rounds, of_meetings)?;
    let groups = rows_of(heap, list, rounds, of_meetings, Side::Groups, list.groups())?;
    let stations = rows_of(
        heap,
        list,
        rounds,
        of_meetings,
        Side::Stations,
        list.stations(),
    )?;
    Ok(Sheets {
        rounds,
        groups,
        stations,
    })
}
