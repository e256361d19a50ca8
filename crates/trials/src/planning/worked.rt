// Worked days: the rounds and the looks follow from the rule by hand.
use crate::lent::{Lengths, Slices};
use crate::lists::list_of;
use crate::planned::is_planned;
use crate::same::same;
use balance::Planned;
use meetings::MeetingList;
use std::alloc::Global;
use std::process::Abort;
use std::test::Fail;

// One chain of one meeting: station 0 has meeting 2 in round 0, and the group of that is free in round 1.
pub(crate) const CHAIN_OF_ONE: [(u8, u8); 4] = [(1, 1), (0, 1), (2, 0), (0, 0)];

// One chain of two: group 2 has meeting 3 in round 1, and the station of that is free in round 0.
const CHAIN_OF_TWO: [(u8, u8); 5] = [(1, 1), (0, 1), (2, 0), (2, 2), (0, 0)];

// Three rounds. Meeting 5 is put in by a chain of two, meetings 2 and 0 in rounds 2 and 0; then meeting 8 by one of four,
// meetings 5, 4, 0 and 1 in rounds 2 and 1.
pub(crate) const TWO_CHAINS: [(u8, u8); 9] = [
    (1, 1),
    (1, 2),
    (1, 0),
    (2, 2),
    (2, 1),
    (2, 0),
    (0, 3),
    (0, 3),
    (0, 0),
];

// Evening out: round 1 has two meetings of each part, and round 0 one.
pub(crate) const TWO_PARTS: [(u8, u8); 6] = [(0, 0), (0, 1), (1, 0), (2, 2), (2, 3), (3, 2)];

fn check_rounds(
    rt: &impl Abort,
    heap: Global,
    list: &MeetingList,
    many: u16,
    rounds: &[u16],
    looks: u64,
) -> Result<(), Fail> {
    let mut lent = Slices::new(heap, Lengths::just_enough(list, rounds.len(), many))?;
    same(
        rt,
        &lent.plan(heap, list)?,
        &Planned {
            rounds: many,
            looks,
        },
    );
    same(rt, &lent.rounds.as_slice(), &rounds);
    assert!(rt; is_planned(list.meetings(), &lent.rounds, many, list.rooms()));
    Ok(())
}

#[test]
fn days_that_were_worked(rt: HostRuntime) -> Result<(), Fail> {
    // meetings, rooms, how many rounds, the rounds, the looks; five groups and five stations
    let cases: [(&[(u8, u8)], u8, u16, &[u16], u64); 12] = [
        (&[(0, 0), (0, 1), (1, 0), (1, 1)], 2, 2, &[0, 1, 1, 0], 4),
        (&[(0, 0), (0, 0), (0, 1)], 9, 3, &[0, 1, 2], 3),
        (&[], 4, 0, &[], 0),
        (
            &[(0, 0), (0, 1), (0, 2), (1, 0), (2, 0)],
            2,
            3,
            &[0, 1, 2, 1, 2],
            5,
        ),
        (&CHAIN_OF_ONE, 4, 2, &[0, 1, 1, 0], 4 + 1),
        (&CHAIN_OF_TWO, 4, 2, &[0, 1, 1, 0, 0], 5 + 2),
        (&TWO_CHAINS, 4, 3, &[1, 2, 0, 0, 2, 1, 0, 1, 2], 9 + 2 + 4),
        // all three are put into round 0; meeting 0 goes to round 1, and then meeting 1 to round 2
        (&[(0, 0), (1, 1), (2, 2)], 1, 3, &[1, 2, 0], 3 + 1 + 1),
        // of two fullest rounds, and of two emptiest, the lower comes first: meeting 0 goes from 0 to 2, and then 2 from 1 to 3
        (
            &[(0, 0), (1, 1), (0, 1), (1, 0)],
            1,
            4,
            &[2, 0, 3, 1],
            4 + 1 + 1,
        ),
        // meetings 0 and 1 are a part with as many in the one round as in the other, and passed over
        (
            &[(0, 0), (0, 1), (1, 2), (2, 3)],
            2,
            2,
            &[0, 1, 1, 0],
            4 + 2 + 1,
        ),
        // meetings 0, 1 and 2 are a part with one more in the emptier round, and passed over
        (
            &[(0, 0), (0, 1), (1, 0), (2, 2), (3, 3), (4, 4)],
            3,
            2,
            &[0, 1, 1, 1, 0, 0],
            6 + 3 + 1,
        ),
        // a part of three is exchanged
        (&TWO_PARTS, 3, 2, &[1, 0, 0, 0, 1, 1], 6 + 3),
    ];
    for (meetings, rooms, many, rounds, looks) in cases {
        let list = list_of(rt.alloc(), 5, 5, rooms, meetings)?;
        check_rounds(&rt, rt.alloc(), &list, many, rounds, looks)?;
    }
    Ok(())
}

// The longest chains for so many groups and stations. The last meeting is of group 0, which is busy in round 0, and of station
// 0, which is busy in round 1. Its chain is in rounds 1 and 0 in turn, so in round 1 it has as many meetings as in round 0 or
// one more. In round 1 it has no more than there are other groups, and in round 0 no more than there are stations besides
// station 0 and the one that group 0 meets there. Here group g meets station g - 1 in round 1, and station g in round 0.
#[test]
fn longest_chains(rt: HostRuntime) -> Result<(), Fail> {
    let heap = rt.alloc();
    for (groups, stations) in [(2u8, 3u8), (3, 4), (5, 4), (8, 9), (119, 120), (120, 120)] {
        let in_one = (groups - 1).min(stations - 1);
        let in_zero = (groups - 1).min(stations - 2);
        let mut meetings = Vec::new(heap);
        // those of the chain are exchanged
        let mut rounds = Vec::new(heap);
        for group in 1..=in_zero {
            meetings.push((group, group))?;
            rounds.push(1u16)?;
        }
        meetings.push((0, stations - 1))?;
        rounds.push(0)?;
        for group in 1..=in_one {
            meetings.push((group, group - 1))?;
            rounds.push(0)?;
        }
        meetings.push((0, 0))?;
        rounds.push(1)?;
        let list = list_of(heap, groups, stations, 120, &meetings)?;
        let chain = u64::from(in_zero) + u64::from(in_one);
        check_rounds(&rt, heap, &list, 2, &rounds, chain + 2 + chain)?;
    }
    Ok(())
}
