// Every plan of every small list, beside a search over all plans.
use crate::checking::faults::{beside, first_fault, not_fewest};
use crate::checking::least::{counted, digits, rows, tried};
use crate::entries::NONE;
use crate::lists::list_of;
use crate::same::{holds, same, same_for};
use crate::told::{Fault, told};
use meetings::MeetingList;
use plans::check;
use std::alloc::{AllocError, Global};
use std::process::Abort;
use std::test::Fail;

// A list of so many meetings among two groups and two stations: each digit says a meeting.
fn small_list(heap: Global, number: u16, many: usize, rooms: u8) -> Result<MeetingList, Fail> {
    let meetings = digits(heap, number, 4, many)?
        .iter()
        // `as`, since it is proved to fit
        .map(|digit| ((digit / 2 % 2) as u8, (digit % 2) as u8))
        .collect::<Vec<_>>(heap)?;
    Ok(list_of(heap, 2, 2, rooms, &meetings)?)
}

// A plan in which each digit says a round, also the one past the last, or none.
fn small_plan(heap: Global, number: u16, many: usize, rounds: u16) -> Result<Vec<u16>, AllocError> {
    digits(heap, number, rounds.saturating_add(2), many)?
        .iter()
        .map(|digit| if *digit > rounds { NONE } else { *digit })
        .collect(heap)
}

// What should be told. The number of rounds is searched only where there is no other fault.
fn right(
    rt: &impl Abort,
    heap: Global,
    list: &MeetingList,
    rounds: u16,
    of_meetings: &[u16],
) -> Result<Option<Fault>, Fail> {
    let placed = beside(heap, list, of_meetings)?;
    let fault = first_fault(&placed, rounds, list.rooms());
    if fault.is_some() {
        return Ok(fault);
    }
    let least = tried(heap, &placed, list.rooms())?;
    same(rt, &counted(heap, &placed, list.rooms())?, &least);
    Ok(not_fewest(rounds, least))
}

// Every plan of a list, with up to three rounds. Answers how many of them are accepted.
fn check_plans(rt: &impl Abort, heap: Global, list: &MeetingList) -> Result<u32, Fail> {
    let many = list.meetings().len();
    let mut accepted = 0u32;
    for rounds in 0..=3u16 {
        for number in 0..rows(rounds + 2, many) {
            let plan = small_plan(heap, number, many, rounds)?;
            let told = told(check(heap, list, rounds, &plan));
            same_for(rt, &told, &right(rt, heap, list, rounds, &plan)?, &plan);
            accepted = accepted.saturating_add(u32::from(told.is_none()));
        }
    }
    Ok(accepted)
}

// Up to four meetings, and one to three rooms: some 800,000 plans.
#[test]
fn every_small_plan(rt: HostRuntime) -> Result<(), Fail> {
    let heap = rt.alloc();
    let mut accepted = 0u32;
    for many in 0..5usize {
        for number in 0..rows(4, many) {
            for rooms in 1..=3u8 {
                let list = small_list(heap, number, many, rooms)?;
                accepted = accepted.saturating_add(check_plans(&rt, heap, &list)?);
            }
        }
    }
    // else the plans would show little
    holds(&rt, accepted > 1000, &accepted);
    Ok(())
}
