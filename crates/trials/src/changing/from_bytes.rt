// A day and a row of changes from bytes: what is refused, in which order, and what is accepted.
use crate::lent::{Lengths, Slices};
use crate::same::{same, same_for};
use crate::told::{Fault, told};
use changes::Changed;
use std::alloc::Global;
use std::process::Abort;
use std::test::Fail;

// Three groups, two stations and a room; three meetings, which take three rounds.
const DAY: [u8; 11] = [3, 2, 1, 3, 0, 0, 0, 1, 1, 2, 0];

// The bytes are refused by number and place, and nothing lent has changed.
fn check_refused(
    rt: &impl Abort,
    heap: Global,
    day: &[u8],
    changes: &[u8],
    lengths: Lengths,
    right: Fault,
) -> Result<(), Fail> {
    let mut lent = Slices::new(heap, lengths)?;
    let answer = lent.change_bytes(heap, day, changes);
    same_for(rt, &told(answer), &Some(right), &changes);
    same(rt, &lent, &Slices::new(heap, lengths)?);
    Ok(())
}

// All three slices are too short, which is told only where the bytes say a day and a row.
#[test]
fn a_list_is_refused_before_a_row_and_a_row_before_slices(rt: HostRuntime) -> Result<(), Fail> {
    let cases: [(&[u8], &[u8], Fault); 11] = [
        (&[3, 2, 1, 3], &[4], (1, 4)),
        (&[3, 2, 1, 3, 0, 0, 0], &[4], (1, 7)),
        (&[3, 2, 121, 0, 0], &[0, 3], (2, 2)),
        // 4,001 meetings
        (&[3, 2, 1, 161, 15], &[1], (3, 3)),
        (&[3, 2, 1, 1, 0, 3, 0], &[2], (4, 5)),
        (&DAY, &[0, 2], (1, 2)),
        (&DAY, &[0, 2, 2], (4, 2)),
        (&DAY, &[3, 4], (6, 1)),
        (&DAY, &[2, 0, 3], (6, 0)),
        (&DAY, &[1, 3, 0], (6, 0)),
        (&DAY, &[3], (5, 0)),
    ];
    for (day, changes, right) in cases {
        check_refused(&rt, rt.alloc(), day, changes, Lengths::new(2, 8, 5), right)?;
    }
    // the slices in their order; 4, 9 and 6 entries are just enough for a meeting more
    let short = [
        (Lengths::new(3, 9, 6), 0usize),
        (Lengths::new(4, 8, 5), 1),
        (Lengths::new(4, 9, 5), 2),
    ];
    for (lengths, place) in short {
        check_refused(&rt, rt.alloc(), &DAY, &[3, 0, 1, 0], lengths, (5, place))?;
    }
    Ok(())
}

// The rounds are 2, 0 and 1 at first. With a room more there are two, and meeting 0 goes to round 0. A third meeting for station 0
// has a round of its own.
#[test]
fn bytes_that_are_accepted(rt: HostRuntime) -> Result<(), Fail> {
    let heap = rt.alloc();
    let mut lent = Slices::new(heap, Lengths::new(5, 10, 6))?;
    let told = lent.change_bytes(heap, &DAY, &[3, 0, 1, 0])?;
    let right = [(2u16, 1u64, 1u16), (3, 1, 0)].map(|(rounds, looks, moved)| Changed {
        rounds,
        looks,
        moved,
    });
    same(&rt, &told.as_slice(), &right.as_slice());
    // 60,004 and 60,009 lie beyond
    same(
        &rt,
        &lent.rounds.as_slice(),
        &[0, 0, 1, 2, 60004].as_slice(),
    );
    same(
        &rt,
        &lent.group_rows.as_slice(),
        &[0, 65535, 65535, 1, 65535, 3, 65535, 2, 65535, 60009].as_slice(),
    );
    same(
        &rt,
        &lent.station_rows.as_slice(),
        &[0, 2, 3, 1, 65535, 65535].as_slice(),
    );
    Ok(())
}
