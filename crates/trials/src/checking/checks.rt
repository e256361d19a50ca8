// What is told of a plan, and what should be.
use crate::checking::faults::{beside, first_fault, not_fewest};
use crate::checking::least::counted;
use crate::lists::list_of;
use crate::same::{same, same_for};
use crate::told::{Fault, told};
use meetings::{MeetingList, write};
use plans::{check, check_bytes, write_plan};
use std::alloc::{AllocError, Global};
use std::process::Abort;
use std::test::Fail;

// What is told of a plan. Of the bytes of the list and the plan the same is told.
pub(crate) fn told_of(
    rt: &impl Abort,
    heap: Global,
    list: &MeetingList,
    rounds: u16,
    of_meetings: &[u16],
) -> Result<Option<Fault>, Fail> {
    let by_list = told(check(heap, list, rounds, of_meetings));
    let day = write(heap, list)?;
    let plan = write_plan(heap, rounds, of_meetings)?;
    same(rt, &told(check_bytes(heap, &day, &plan)), &by_list);
    Ok(by_list)
}

// The meetings of five groups and five stations, rooms, rounds, the round of each meeting, and what is told.
pub(crate) type Case<'a> = (&'a [(u8, u8)], u8, u16, &'a [u16], Option<Fault>);

// Of each of these plans what stands beside it is told.
pub(crate) fn check_cases(rt: &impl Abort, heap: Global, cases: &[Case<'_>]) -> Result<(), Fail> {
    for (meetings, rooms, rounds, of_meetings, right) in cases {
        let list = list_of(heap, 5, 5, *rooms, meetings)?;
        same_for(
            rt,
            &told_of(rt, heap, &list, *rounds, of_meetings)?,
            right,
            &(meetings, rounds, of_meetings),
        );
    }
    Ok(())
}

// What should be told of a plan that has a round for each meeting.
pub(crate) fn right(
    heap: Global,
    list: &MeetingList,
    rounds: u16,
    of_meetings: &[u16],
) -> Result<Option<Fault>, AllocError> {
    let placed = beside(heap, list, of_meetings)?;
    let least = counted(heap, &placed, list.rooms())?;
    Ok(first_fault(&placed, rounds, list.rooms()).or_else(|| not_fewest(rounds, least)))
}

// One meeting of a plan is moved to each other round, to the one past the last, and to none. Answers how many of these are plans.
pub(crate) fn check_moved(
    rt: &impl Abort,
    heap: Global,
    list: &MeetingList,
    rounds: u16,
    of_meetings: &[u16],
    at: usize,
) -> Result<u32, Fail> {
    let mut accepted = 0u32;
    for round in (0..=rounds).chain([u16::MAX]) {
        let moved = of_meetings
            .iter()
            .enumerate()
            .map(|(number, its)| if number == at { round } else { *its })
            .collect::<Vec<_>>(heap)?;
        let told = told_of(rt, heap, list, rounds, &moved)?;
        same_for(rt, &told, &right(heap, list, rounds, &moved)?, &moved);
        accepted = accepted.saturating_add(u32::from(told.is_none()));
    }
    Ok(accepted)
}
