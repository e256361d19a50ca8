// Other ways to plan look as good at first. On some days they take rounds too many, and planning does not.
use crate::lent::{Lengths, Slices};
use crate::lists::list_of;
use crate::planned::is_planned;
use crate::planning::put_ways::{busiest_first, first_fit, wrong_end};
use crate::planning::room_ways::{rooms_forgotten, round_by_round, single_moves};
use crate::planning::worked::{CHAIN_OF_ONE, TWO_CHAINS, TWO_PARTS};
use crate::same::{same, same_for};
use fewest::fewest_rounds;
use meetings::MeetingList;
use std::alloc::{AllocError, Global};
use std::test::Fail;

#[derive(Clone, Copy, Debug)]
enum Way {
    FirstFit,
    BusiestFirst,
    WrongEnd,
    RoundByRound,
    SingleMoves,
    RoomsForgotten,
}

impl Way {
    // How many rounds it takes.
    fn rounds(self, heap: Global, list: &MeetingList) -> Result<u16, AllocError> {
        let (meetings, rooms) = (list.meetings(), list.rooms());
        match self {
            Way::FirstFit => first_fit(heap, meetings),
            Way::BusiestFirst => busiest_first(heap, meetings),
            Way::WrongEnd => wrong_end(heap, meetings, rooms),
            Way::RoundByRound => round_by_round(heap, meetings, rooms),
            Way::SingleMoves => single_moves(heap, meetings, rooms),
            Way::RoomsForgotten => rooms_forgotten(heap, meetings, rooms),
        }
    }
}

// Groups 0 and 1 have four meetings each. Stations 0 and 2 are busier than station 1.
const TWO_BUSY_GROUPS: [(u8, u8); 8] = [
    (0, 1),
    (1, 1),
    (0, 0),
    (0, 0),
    (0, 0),
    (1, 2),
    (1, 2),
    (1, 2),
];

#[test]
fn other_ways_take_more_rounds(rt: HostRuntime) -> Result<(), Fail> {
    let heap = rt.alloc();
    // the way, the meetings, rooms, the way's rounds, the fewest; four groups and four stations
    let days: [(Way, &[(u8, u8)], u8, u16, u16); 7] = [
        (Way::FirstFit, &CHAIN_OF_ONE, 2, 3, 2),
        (Way::FirstFit, &TWO_CHAINS, 3, 5, 3),
        (Way::BusiestFirst, &TWO_BUSY_GROUPS, 2, 5, 4),
        (Way::WrongEnd, &[(0, 0), (1, 1), (2, 0), (2, 1)], 2, 3, 2),
        (
            Way::RoundByRound,
            &[(0, 0), (1, 1), (0, 2), (2, 2)],
            2,
            3,
            2,
        ),
        (Way::SingleMoves, &TWO_PARTS, 3, 3, 2),
        (
            Way::RoomsForgotten,
            &[(0, 0), (0, 0), (1, 1), (1, 1), (2, 2), (2, 2)],
            2,
            4,
            3,
        ),
    ];
    for (way, meetings, rooms, by_way, many) in days {
        let list = list_of(heap, 4, 4, rooms, meetings)?;
        same_for(&rt, &way.rounds(heap, &list)?, &by_way, &way);
        same(&rt, &fewest_rounds(heap, &list)?, &many);
        let mut lent = Slices::new(heap, Lengths::just_enough(&list, meetings.len(), many))?;
        same(&rt, &lent.plan(heap, &list)?.rounds, &many);
        assert!(rt; is_planned(list.meetings(), &lent.rounds, many, list.rooms()));
    }
    Ok(())
}
