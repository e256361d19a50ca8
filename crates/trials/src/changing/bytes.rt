// Rows of changes as bytes: what they say, and each refusal at its place.
use crate::changing::kinds::{add, drop_one};
use crate::lists::list_of;
use crate::made_lists::spread_list;
use crate::same::{same, same_for};
use crate::told::{Fault, told};
use changes::Change::{GetRoom, GiveRoomUp};
use changes::{Change, read_changes, write_changes};
use std::test::Fail;

#[test]
fn rows_that_are_accepted(rt: HostRuntime) -> Result<(), Fail> {
    let heap = rt.alloc();
    let list = spread_list(heap, 300, 40)?;
    let cases: [(&[u8], &[Change]); 3] = [
        (&[], &[]),
        // the low byte comes first: 1 + 256
        (
            &[0, 119, 2, 1, 1, 1, 2, 3, 3],
            &[add(119, 2), drop_one(257), GiveRoomUp, GetRoom, GetRoom],
        ),
        (
            &[1, 43, 1, 0, 0, 0, 1, 44, 1],
            &[drop_one(299), add(0, 0), drop_one(300)],
        ),
    ];
    for (bytes, changes) in cases {
        let read = read_changes(heap, &list, bytes)?;
        same(&rt, &read.as_slice(), &changes);
        let written = write_changes(heap, changes)?;
        same(&rt, &written.as_slice(), &bytes);
    }
    Ok(())
}

// Three groups, two stations and two rooms; five meetings.
#[test]
fn rows_that_are_refused(rt: HostRuntime) -> Result<(), Fail> {
    let heap = rt.alloc();
    let list = list_of(heap, 3, 2, 2, &[(0, 0), (0, 1), (1, 0), (2, 0), (2, 1)])?;
    let cases: [(&[u8], Fault); 22] = [
        // bytes that end too early
        (&[0], (1, 1)),
        (&[0, 2], (1, 2)),
        (&[1], (1, 1)),
        (&[1, 4], (1, 2)),
        (&[2, 0, 0], (1, 3)),
        // a group or a station that does not exist
        (&[0, 3, 0], (4, 1)),
        (&[0, 2, 2], (4, 2)),
        (&[1, 0, 0, 3, 0, 0, 255], (4, 6)),
        // a kind that does not exist
        (&[4], (6, 0)),
        (&[2, 3, 255, 0, 0], (6, 2)),
        // a change that cannot be made
        (&[1, 5, 0], (6, 0)),
        (&[1, 0, 1], (6, 0)),
        (&[1, 4, 0, 1, 4, 0], (6, 1)),
        (&[3, 2, 2, 2], (6, 3)),
        // the first fault is told, in the order of the bytes
        (&[0, 3], (4, 1)),
        (&[0, 3, 2], (4, 1)),
        (&[0, 3, 0, 1, 5, 0], (4, 1)),
        (&[1, 5], (1, 2)),
        (&[1, 5, 0, 0, 3, 0], (6, 0)),
        (&[2, 2, 4], (6, 1)),
        (&[4, 0], (6, 0)),
        (&[2, 2, 0], (6, 1)),
    ];
    for (bytes, right) in cases {
        same_for(
            &rt,
            &told(read_changes(heap, &list, bytes)),
            &Some(right),
            &bytes,
        );
    }
    Ok(())
}

// A party that one byte does not hold is of no list.
#[test]
fn parties_without_bytes(rt: HostRuntime) -> Result<(), Fail> {
    let heap = rt.alloc();
    let written = write_changes(heap, &[add(255, 255), drop_one(65535)])?;
    same(
        &rt,
        &written.as_slice(),
        &[0, 255, 255, 1, 255, 255].as_slice(),
    );
    let cases: [(&[Change], usize); 2] = [
        (&[GetRoom, add(256, 0)], 1),
        (&[add(0, 256), add(256, 0)], 0),
    ];
    for (changes, place) in cases {
        same(&rt, &told(write_changes(heap, changes)), &Some((6, place)));
    }
    Ok(())
}
