// What is refused: a list before its plan, and a plan as checking it does.
use crate::same::{same, same_for};
use crate::told::{Fault, told};
use meetings::{MeetingList, read};
use plans::{check, write_plan};
use sheets::{made_of, print_sheets, sheets_of};
use std::alloc::Global;
use std::process::Abort;
use std::test::Fail;

// The list and the plan of the document on bytes, three rounds: 0, 1 and 2.
const DAY: [u8; 11] = [1, 2, 9, 3, 0, 0, 0, 0, 0, 0, 1];

// A list, the rounds, the round of each meeting, and what is told.
type Case<'a> = (&'a [u8], u16, &'a [u16], Option<Fault>);

const CASES: [Case<'static>; 15] = [
    // the list, whatever the plan
    (&[], 3, &[0, 1, 2], Some((1, 0))),
    (&[1, 2, 9, 3], 3, &[], Some((1, 4))),
    (&[1, 2, 121, 0, 0], 0, &[9], Some((2, 2))),
    (&[1, 2, 9, 161, 15], 4, &[0, 0], Some((3, 3))),
    (&[1, 2, 9, 1, 0, 0, 2], 1, &[1], Some((4, 6))),
    // then the plan: its length, told as of the bytes
    (&DAY, 3, &[], Some((1, 2))),
    (&DAY, 3, &[3, 3], Some((1, 6))),
    (&DAY, 3, &[0, 1, 2, 0], Some((1, 8))),
    // a round that there is not, a clash of a group and of a station, too many in a round
    (&DAY, 3, &[0, 1, 3], Some((7, 2))),
    (&DAY, 3, &[0, 1, 1], Some((8, 2))),
    (&[2, 1, 2, 2, 0, 0, 0, 1, 0], 2, &[1, 1], Some((8, 8193))),
    (&[2, 2, 1, 2, 0, 0, 0, 1, 1], 2, &[1, 1], Some((9, 1))),
    // not the fewest rounds, also where a meeting is dropped
    (&DAY, 4, &[0, 1, 2], Some((10, 4))),
    (&DAY, 3, &[0, 1, 65535], Some((10, 3))),
    (&DAY, 3, &[2, 0, 1], None),
];

// A list that is read, and a plan.
fn check_plan(
    rt: &impl Abort,
    heap: Global,
    list: &MeetingList,
    rounds: u16,
    of_meetings: &[u16],
    right: Option<Fault>,
) {
    same(rt, &told(check(heap, list, rounds, of_meetings)), &right);
    same(
        rt,
        &told(sheets_of(heap, list, rounds, of_meetings)),
        &right,
    );
}

fn check_case(rt: &impl Abort, heap: Global, case: &Case<'_>) -> Result<(), Fail> {
    let (day, rounds, of_meetings, right) = *case;
    let plan = write_plan(heap, rounds, of_meetings)?;
    same_for(rt, &told(print_sheets(heap, day, &plan)), &right, &day);
    match read(heap, day) {
        Ok(list) => check_plan(rt, heap, &list, rounds, of_meetings, right),
        // then it is not planned either
        Err(_) => same(rt, &told(made_of(heap, day)), &right),
    }
    Ok(())
}

#[test]
fn lists_and_plans_that_are_refused(rt: HostRuntime) -> Result<(), Fail> {
    for case in &CASES {
        check_case(&rt, rt.alloc(), case)?;
    }
    Ok(())
}
