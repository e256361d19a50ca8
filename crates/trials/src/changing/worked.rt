// Worked changes: the rounds, the looks and how many were moved follow from the rule by hand.
use crate::changing::checks::{check_row, ruled};
use crate::changing::kinds::{add, drop_one};
use crate::entries::NONE;
use crate::lent::Lengths;
use crate::lists::list_of;
use crate::same::same;
use changes::Change::{GetRoom, GiveRoomUp};
use changes::{Change, Changed};
use std::alloc::Global;
use std::process::Abort;
use std::test::Fail;

// A day and a row of changes: the meetings of five groups and five stations, rooms, and the changes; then for each change the
// rounds, the looks and how many were moved, and in the end the round of each meeting.
type Case<'a> = (
    &'a [(u8, u8)],
    u8,
    &'a [Change],
    &'a [(u16, u64, u16)],
    &'a [u16],
);

fn check_case(rt: &impl Abort, heap: Global, case: Case<'_>) -> Result<(), Fail> {
    let (meetings, rooms, changes, told, rounds) = case;
    let list = list_of(heap, 5, 5, rooms, meetings)?;
    let told = told
        .iter()
        .map(|(rounds, looks, moved)| Changed {
            rounds: *rounds,
            looks: *looks,
            moved: *moved,
        })
        .collect::<Vec<_>>(heap)?;
    let (day, _) = ruled(heap, &list, changes)?;
    // 12 rounds are enough for each of them
    let lengths = Lengths::just_enough(&list, rounds.len(), 12);
    let lent = check_row(rt, heap, &list, changes, lengths, &day, &told)?;
    same(rt, &lent.rounds.as_slice(), &rounds);
    Ok(())
}

// No two meetings have a group or a station in common. With one room they have rounds 1, 2, 3 and 0, with two rooms 1, 1, 0 and 0.
const ALL_APART: [(u8, u8); 4] = [(0, 0), (1, 1), (2, 2), (3, 3)];

const TWO_BY_TWO: [(u8, u8); 4] = [(0, 0), (0, 1), (1, 0), (1, 1)];

#[test]
fn one_change(rt: HostRuntime) -> Result<(), Fail> {
    let cases: [Case<'_>; 21] = [
        // AN ADDED MEETING. Both are free in round 0
        (
            &[(0, 0), (0, 1), (1, 0)],
            2,
            &[add(1, 1)],
            &[(2, 1, 0)],
            &[0, 1, 1, 0],
        ),
        // a chain of one: meeting 2 goes from 0 to 1
        (
            &[(1, 1), (0, 1), (2, 0)],
            4,
            &[add(0, 0)],
            &[(2, 1 + 1, 1)],
            &[0, 1, 1, 0],
        ),
        // a chain of two: meeting 2 goes from 1 to 0, and meeting 1 from 0 to 1
        (
            &[(0, 0), (1, 1), (1, 2)],
            4,
            &[add(0, 2)],
            &[(2, 1 + 2, 2)],
            &[0, 1, 0, 1],
        ),
        // a chain of one, meeting 0 from 1 to 0; then the part of 0, 3 and 2 is exchanged, and meeting 0 is back in 1
        (
            &[(1, 2), (0, 1), (2, 0)],
            2,
            &[add(2, 2)],
            &[(2, 1 + 1 + 3, 1)],
            &[1, 0, 1, 0],
        ),
        // a round more, for the group
        (&[(0, 0), (0, 1)], 9, &[add(0, 0)], &[(3, 1, 0)], &[0, 1, 2]),
        // a round more, for the room: it is put into 0, from where meeting 1 goes to 2
        (
            &[(0, 0), (1, 1)],
            1,
            &[add(2, 2)],
            &[(3, 1 + 1, 1)],
            &[1, 2, 0],
        ),
        // a round more, and a part of three is exchanged, the added one with it
        (
            &[(2, 0), (1, 2), (0, 1)],
            3,
            &[add(2, 2)],
            &[(2, 1 + 3, 2)],
            &[1, 1, 0, 0],
        ),
        (&[], 4, &[add(2, 3)], &[(1, 1, 0)], &[0]),
        // A DROPPED MEETING. Nothing else happens
        (
            &TWO_BY_TWO,
            2,
            &[drop_one(3)],
            &[(2, 0, 0)],
            &[0, 1, 1, NONE],
        ),
        // the part of meetings 0 and 1 is passed over, and meeting 3 goes from 0 to 1
        (
            &[(0, 0), (0, 1), (1, 2), (2, 3), (3, 4)],
            3,
            &[drop_one(2)],
            &[(2, 2 + 1, 1)],
            &[0, 1, NONE, 1, 0],
        ),
        // a round less: meeting 2 was in it
        (
            &[(0, 0), (0, 1), (0, 2)],
            3,
            &[drop_one(0)],
            &[(2, 1, 1)],
            &[NONE, 1, 0],
        ),
        // a round less: meeting 4 goes from it to 0, and meeting 0 to 1 for it; then the part of 0, 4 and 2 is exchanged, and
        // meeting 0 is back in 0
        (
            &[(1, 1), (0, 0), (2, 0), (0, 2), (2, 1)],
            2,
            &[drop_one(1)],
            &[(2, 1 + 1 + 3, 2)],
            &[0, NONE, 0, 1, 1],
        ),
        (&[(4, 4)], 4, &[drop_one(0)], &[(0, 0, 0)], &[NONE]),
        // A ROOM IS GIVEN UP. The rounds are as many as group 0 has meetings
        (&[(0, 0), (0, 1)], 2, &[GiveRoomUp], &[(2, 0, 0)], &[0, 1]),
        // a round more, for meeting 0
        (
            &[(0, 0), (1, 1), (2, 2)],
            3,
            &[GiveRoomUp],
            &[(2, 1, 1)],
            &[1, 0, 0],
        ),
        // two rounds more: meeting 2 goes from 0 to 2, and then meeting 0 from 1 to 3
        (
            &ALL_APART,
            2,
            &[GiveRoomUp],
            &[(4, 1 + 1, 2)],
            &[3, 1, 2, 0],
        ),
        // a round more: meeting 2 goes from 0 to 2, and then the part of 0, 2 and 1 is exchanged, so that it is in 1
        (
            &[(3, 1), (1, 2), (3, 2), (0, 3), (0, 3), (2, 0)],
            3,
            &[GiveRoomUp],
            &[(3, 1 + 3, 3)],
            &[2, 2, 1, 0, 1, 0],
        ),
        // A ROOM IS GOT
        (&[(0, 0), (0, 1)], 1, &[GetRoom], &[(2, 0, 0)], &[0, 1]),
        // a round less, in which meeting 0 was
        (
            &[(0, 0), (1, 1), (2, 2)],
            2,
            &[GetRoom],
            &[(1, 1, 1)],
            &[0, 0, 0],
        ),
        // two rounds less: meetings 1 and 2 are put into 0; then meeting 0 is passed over, and meeting 1 goes to 1
        (&ALL_APART, 1, &[GetRoom], &[(2, 2 + 2, 2)], &[1, 1, 0, 0]),
        // two rounds less: meeting 0 goes from 3 to 0, and meeting 3 from 2 to 1, from where meeting 2 goes to 0, and meeting 1
        // from there to 1
        (
            &[(1, 3), (0, 1), (0, 0), (1, 0)],
            1,
            &[GetRoom],
            &[(2, 1 + 1 + 2, 4)],
            &[0, 1, 0, 1],
        ),
    ];
    for case in cases {
        check_case(&rt, rt.alloc(), case)?;
    }
    Ok(())
}

#[test]
fn rows_of_changes(rt: HostRuntime) -> Result<(), Fail> {
    let cases: [Case<'_>; 8] = [
        // none
        (&ALL_APART, 1, &[], &[], &[1, 2, 3, 0]),
        // dropped and added again, with another number
        (
            &TWO_BY_TWO,
            2,
            &[drop_one(0), add(0, 0), drop_one(4), add(0, 0)],
            &[(2, 0, 0), (2, 1, 0), (2, 0, 0), (2, 1, 0)],
            &[NONE, 1, 1, 0, NONE, 0],
        ),
        // all are dropped, from the last on and from the first on, where meeting 1 goes from 1 to 0; and one is added
        (
            &[(0, 0), (0, 1)],
            9,
            &[drop_one(1), drop_one(0), add(4, 4)],
            &[(1, 0, 0), (0, 0, 0), (1, 1, 0)],
            &[NONE, NONE, 0],
        ),
        (
            &[(0, 0), (0, 1)],
            9,
            &[drop_one(0), drop_one(1), GiveRoomUp],
            &[(1, 1, 1), (0, 0, 0), (0, 0, 0)],
            &[NONE, NONE],
        ),
        // nothing at first; meeting 3 is put into 0 in the end, from where meeting 2 goes to 1
        (
            &[],
            1,
            &[GetRoom, add(2, 3), add(2, 3), add(1, 1), add(0, 0)],
            &[
                (0, 0, 0),
                (1, 1, 0),
                (2, 1, 0),
                (2, 1, 0),
                (2, 1 + 2 + 1, 1),
            ],
            &[0, 1, 1, 0],
        ),
        // a room more and a room less
        (
            &ALL_APART,
            2,
            &[GiveRoomUp, GetRoom, GetRoom, GetRoom],
            &[(4, 2, 2), (2, 2 + 1, 2), (2, 0, 0), (1, 2, 2)],
            &[0, 0, 0, 0],
        ),
        // the round that is no more has two meetings
        (
            &ALL_APART,
            2,
            &[drop_one(2), drop_one(3)],
            &[(2, 0, 0), (1, 2, 2)],
            &[0, 0, NONE, NONE],
        ),
        // meeting 4 is put in by a chain of three, meetings 2, 1 and 3; then all but the added one are a part that is exchanged
        (
            &[(2, 1), (1, 2), (1, 0), (0, 2), (2, 0)],
            2,
            &[GetRoom, add(4, 4)],
            &[(2, 1 + 3, 4), (2, 1 + 5, 5)],
            &[1, 0, 1, 1, 0, 0],
        ),
    ];
    for case in cases {
        check_case(&rt, rt.alloc(), case)?;
    }
    Ok(())
}
