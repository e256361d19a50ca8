// Planning from bytes: what is refused, in which order, and a day that is accepted.
use crate::lent::{Lengths, Slices};
use crate::same::same;
use crate::told::{Fault, told};
use balance::Planned;
use meetings::read;
use std::alloc::Global;
use std::process::Abort;
use std::test::Fail;

// Three groups, two stations and a room; three meetings, which take three rounds.
const DAY: [u8; 11] = [3, 2, 1, 3, 0, 0, 0, 1, 1, 2, 0];

// The bytes are refused by number and place, and nothing lent has changed.
fn check_refused(
    rt: &impl Abort,
    heap: Global,
    bytes: &[u8],
    lengths: Lengths,
    right: Fault,
) -> Result<(), Fail> {
    let mut lent = Slices::new(heap, lengths)?;
    same(rt, &told(lent.plan_bytes(heap, bytes)), &Some(right));
    same(rt, &lent, &Slices::new(heap, lengths)?);
    Ok(())
}

// All three slices are too short for two meetings, which is told only where the bytes say a day.
#[test]
fn bytes_are_refused_before_slices(rt: HostRuntime) -> Result<(), Fail> {
    let cases: [(&[u8], Fault); 13] = [
        (&[], (1, 0)),
        (&[3, 2, 2, 2, 0, 2], (1, 6)),
        (&[3, 2, 2, 2, 0, 2, 1, 0, 0, 0], (1, 9)),
        (&[0, 2, 2, 2, 0, 2, 1, 0, 0], (2, 0)),
        (&[3, 121, 2, 2, 0, 2, 1, 0, 0], (2, 1)),
        (&[3, 2, 0, 2, 0, 2, 1, 0, 0], (2, 2)),
        // 4,001 meetings
        (&[3, 2, 2, 161, 15], (3, 3)),
        (&[3, 2, 2, 2, 0, 3, 1, 0, 0], (4, 5)),
        (&[3, 2, 2, 2, 0, 2, 1, 0, 2], (4, 8)),
        // the first fault is told
        (&[3, 2, 121, 2, 0, 3, 1, 0, 2], (2, 2)),
        (&[3, 2, 2, 2, 0, 3, 1, 0], (4, 5)),
        (&[3, 2, 2, 2, 0, 2, 1, 0], (1, 8)),
        (&[3, 2, 2, 2, 0, 2, 1, 0, 0], (5, 0)),
    ];
    for (bytes, right) in cases {
        check_refused(&rt, rt.alloc(), bytes, Lengths::new(1, 2, 1), right)?;
    }
    // the slices in their order; 3, 9 and 6 entries are just enough
    let short = [
        (Lengths::new(2, 8, 5), 0usize),
        (Lengths::new(3, 8, 5), 1),
        (Lengths::new(3, 9, 5), 2),
    ];
    for (lengths, place) in short {
        check_refused(&rt, rt.alloc(), &DAY, lengths, (5, place))?;
    }
    Ok(())
}

#[test]
fn bytes_are_planned_as_their_list(rt: HostRuntime) -> Result<(), Fail> {
    let heap = rt.alloc();
    let list = read(heap, &DAY)?;
    let lengths = Lengths::new(5, 11, 8);
    let mut by_list = Slices::new(heap, lengths)?;
    let mut by_bytes = Slices::new(heap, lengths)?;
    let planned = by_bytes.plan_bytes(heap, &DAY)?;
    // one room: the second meeting keeps round 0, and the first goes to round 2
    same(
        &rt,
        &planned,
        &Planned {
            rounds: 3,
            looks: 3 + 1,
        },
    );
    same(&rt, &planned, &by_list.plan(heap, &list)?);
    same(&rt, &by_bytes, &by_list);
    Ok(())
}
