// What is refused, at its place, and in which order; and slices that are just long enough.
use crate::changing::checks::{check_row, ruled};
use crate::changing::kinds::{add, drop_one};
use crate::lent::{Lengths, Slices};
use crate::lists::list_of;
use crate::same::{same, same_for};
use crate::told::{Fault, told};
use changes::Change;
use changes::Change::{GetRoom, GiveRoomUp};
use meetings::MeetingList;
use std::alloc::Global;
use std::process::Abort;
use std::test::Fail;

// Three groups, two stations and two rooms. The five meetings take three rounds, as station 0 has three.
fn small_list(heap: Global) -> Result<MeetingList, Fail> {
    Ok(list_of(heap, 3, 2, 2, &[(0, 0), (0, 1), (1, 0), (2, 0), (2, 1)])?)
}

// A row is refused by number and place, and nothing lent has changed.
fn check_refused(
    rt: &impl Abort,
    heap: Global,
    list: &MeetingList,
    changes: &[Change],
    lengths: Lengths,
    right: Fault,
) -> Result<(), Fail> {
    let mut lent = Slices::new(heap, lengths)?;
    let answer = lent.change(heap, list, changes);
    same_for(rt, &told(answer), &Some(right), &changes);
    same(rt, &lent, &Slices::new(heap, lengths)?);
    Ok(())
}

#[test]
fn changes_that_cannot_be_made(rt: HostRuntime) -> Result<(), Fail> {
    let heap = rt.alloc();
    let list = small_list(heap)?;
    let cases: [(&[Change], usize); 16] = [
        (&[add(3, 0)], 0),
        (&[add(0, 2)], 0),
        (&[add(65535, 65535)], 0),
        (&[drop_one(5)], 0),
        (&[drop_one(65535)], 0),
        // a number is used once
        (&[drop_one(4), drop_one(4)], 1),
        (&[drop_one(4), add(2, 1), drop_one(4)], 2),
        (&[add(1, 1), drop_one(5), drop_one(5)], 2),
        (&[add(1, 1), drop_one(6)], 1),
        // it is there only after it was added
        (&[drop_one(5), add(1, 1)], 0),
        (&[GiveRoomUp, GiveRoomUp], 1),
        (&[GiveRoomUp, GetRoom, GiveRoomUp, GiveRoomUp], 3),
        // of two the earlier is told
        (&[add(3, 2), drop_one(5)], 0),
        (&[GetRoom, drop_one(9), GiveRoomUp, add(0, 2)], 1),
        (&[GiveRoomUp, GiveRoomUp, drop_one(5)], 1),
        (&[GiveRoomUp, add(3, 0), GiveRoomUp], 1),
    ];
    for (changes, place) in cases {
        // it is told before slices that are too short
        for lengths in [Lengths::new(9, 50, 50), Lengths::new(0, 0, 0)] {
            check_refused(&rt, heap, &list, changes, lengths, (6, place))?;
        }
    }
    Ok(())
}

// For each row the lengths that are just enough, as the numbers and the most rounds that there ever are ask for.
#[test]
fn slices_that_are_too_short(rt: HostRuntime) -> Result<(), Fail> {
    let heap = rt.alloc();
    let list = small_list(heap)?;
    let cases: [(&[Change], usize, u16); 6] = [
        // the first day has the most rounds
        (&[], 5, 3),
        (&[drop_one(0), drop_one(2), drop_one(1)], 5, 3),
        // five rounds in between
        (&[GiveRoomUp, GetRoom], 5, 5),
        // and in the end
        (&[GetRoom, GiveRoomUp, GiveRoomUp], 5, 5),
        // a dropped meeting keeps its number
        (&[add(1, 1), drop_one(5)], 6, 3),
        (&[drop_one(0), add(0, 0), add(0, 0), add(0, 0)], 8, 5),
    ];
    for (changes, numbers, most) in cases {
        let enough = Lengths::just_enough(&list, numbers, most);
        let Lengths {
            rounds,
            group_rows,
            station_rows,
        } = enough;
        let less = |length: usize| length.saturating_sub(1);
        let short = [
            (Lengths::new(less(rounds), group_rows, station_rows), 0usize),
            (Lengths::new(rounds, less(group_rows), station_rows), 1),
            (Lengths::new(rounds, group_rows, less(station_rows)), 2),
            // the first is told, and what one has too many is no help to another
            (
                Lengths::new(less(rounds), less(group_rows), less(station_rows)),
                0,
            ),
            (Lengths::new(100, less(group_rows), 0), 1),
            (Lengths::new(100, 100, less(station_rows)), 2),
        ];
        for (lengths, place) in short {
            check_refused(&rt, heap, &list, changes, lengths, (5, place))?;
        }
        let (day, told) = ruled(heap, &list, changes)?;
        // what lies beyond stays as it was
        for lengths in [enough, Lengths::new(10, 47, 31)] {
            check_row(&rt, heap, &list, changes, lengths, &day, &told)?;
        }
    }
    Ok(())
}
