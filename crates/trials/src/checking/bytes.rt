// Plans as bytes: what they say, what is refused at its place, and a list before a plan.
use crate::same::{same, same_for};
use crate::told::{Fault, told};
use meetings::read;
use plans::{check_bytes, read_plan, write_plan};
use std::alloc::Global;
use std::process::Abort;
use std::test::Fail;

// Three groups, two stations and a room; three meetings, which take three rounds.
const DAY: [u8; 11] = [3, 2, 1, 3, 0, 0, 0, 1, 1, 2, 0];

// Three rounds: 2, 0 and 1.
const PLAN: [u8; 8] = [3, 0, 2, 0, 0, 0, 1, 0];

// The low byte comes first. No number is too large to be read.
#[test]
fn plans_written_and_read(rt: HostRuntime) -> Result<(), Fail> {
    let heap = rt.alloc();
    // the list's meetings, rounds, the round of each meeting, the plan's bytes
    let cases: [(&[u8], u16, &[u16], &[u8]); 5] = [
        (&DAY, 3, &[2, 0, 1], &PLAN),
        (
            &DAY,
            258,
            &[513, 65535, 255],
            &[2, 1, 1, 2, 255, 255, 255, 0],
        ),
        (
            &DAY,
            65535,
            &[256, 65534, 0],
            &[255, 255, 0, 1, 254, 255, 0, 0],
        ),
        (&[1, 1, 1, 1, 0, 0, 0], 1, &[256], &[1, 0, 0, 1]),
        (&[1, 1, 1, 0, 0], 256, &[], &[0, 1]),
    ];
    for (day, rounds, of_meetings, bytes) in cases {
        let list = read(heap, day)?;
        let written = write_plan(heap, rounds, of_meetings)?;
        same(&rt, &written.as_slice(), &bytes);
        let plan = read_plan(heap, &list, bytes)?;
        same(&rt, &plan.rounds, &rounds);
        same(&rt, &plan.of_meetings.as_slice(), &of_meetings);
    }
    Ok(())
}

// The bytes of a plan, cut off and gone on with.
fn check_lengths(rt: &impl Abort, heap: Global) -> Result<(), Fail> {
    let list = read(heap, &DAY)?;
    // the lengths themselves are tried, so they are counted
    for length in 0..PLAN.len() {
        let short = &PLAN[..length];
        same(rt, &told(read_plan(heap, &list, short)), &Some((1, length)));
        same(
            rt,
            &told(check_bytes(heap, &DAY, short)),
            &Some((1, length)),
        );
    }
    same(rt, &told(read_plan(heap, &list, &PLAN)), &None);
    let mut long = Vec::new(heap);
    long.extend_from_slice(&PLAN)?;
    for byte in [0u8, 0, 255, 1, 1] {
        long.push(byte)?;
        same(rt, &told(read_plan(heap, &list, &long)), &Some((1, 8)));
        same(rt, &told(check_bytes(heap, &DAY, &long)), &Some((1, 8)));
    }
    Ok(())
}

#[test]
fn bytes_that_are_refused(rt: HostRuntime) -> Result<(), Fail> {
    check_lengths(&rt, rt.alloc())?;
    // a list is refused before a plan
    let cases: [(&[u8], &[u8], Option<Fault>); 15] = [
        // the plan is too short
        (&[], &[], Some((1, 0))),
        (&[3, 2, 1, 3], &[3], Some((1, 4))),
        (&[3, 2, 1, 3, 0, 0, 0], &[3], Some((1, 7))),
        (&[3, 2, 1, 1, 0, 0, 0, 0], &[3], Some((1, 7))),
        (&[3, 2, 121, 0, 0], &[3], Some((2, 2))),
        // 4,001 meetings
        (&[3, 2, 1, 161, 15], &[3], Some((3, 3))),
        (&[3, 2, 1, 1, 0, 3, 0], &[3], Some((4, 5))),
        // or says another fault
        (&[0, 2, 1, 1, 0, 0, 0], &[1, 0, 1, 0], Some((2, 0))),
        (&[3, 2, 1, 1, 0, 0, 2], &[9, 0, 0, 0], Some((4, 6))),
        // the plan alone
        (&DAY, &[3, 0, 2, 0, 0, 0, 3, 0, 0], Some((1, 8))),
        (&DAY, &[3, 0, 2, 0, 3, 0, 0], Some((1, 7))),
        (&DAY, &[3, 0, 2, 0, 0, 1, 2, 0], Some((7, 1))),
        (&DAY, &[3, 0, 2, 0, 0, 0, 2, 0], Some((8, 8192 + 2))),
        (&DAY, &[4, 1, 2, 0, 0, 0, 1, 0], Some((10, 260))),
        (&DAY, &PLAN, None),
    ];
    for (day, plan, right) in cases {
        same_for(
            &rt,
            &told(check_bytes(rt.alloc(), day, plan)),
            &right,
            &(day, plan),
        );
    }
    Ok(())
}
