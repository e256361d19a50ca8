// Each of five groups with each of five stations, and the largest lists.
use crate::lent::{Lengths, Slices};
use crate::lists::list_of;
use crate::made_lists::spread;
use crate::planned::{is_planned, size};
use crate::planning::checks::check_planned;
use crate::same::same;
use balance::Planned;
use std::test::Fail;

// Five rooms are full in five rounds, and four rooms in four of seven.
#[test]
fn five_by_five(rt: HostRuntime) -> Result<(), Fail> {
    let heap = rt.alloc();
    let meetings = (0..25u8)
        .map(|number| (number / 5, number % 5))
        .collect::<Vec<_>>(heap)?;
    // rooms, how many meetings the rounds have, by falling number
    let cases: [(u8, &[usize]); 2] = [(5, &[5, 5, 5, 5, 5]), (4, &[4, 4, 4, 4, 3, 3, 3])];
    for (rooms, right) in cases {
        let list = list_of(heap, 5, 5, rooms, &meetings)?;
        let mut lent = Slices::new(heap, Lengths::new(25, 35, 35))?;
        let many = lent.plan(heap, &list)?.rounds;
        let mut sizes = (0..many)
            .map(|round| size(&lent.rounds, round))
            .collect::<Vec<_>>(heap)?;
        sizes.sort_unstable();
        sizes.reverse();
        same(&rt, &sizes.as_slice(), &right);
        check_planned(&rt, heap, &list, Lengths::new(25, 35, 35))?;
    }
    Ok(())
}

// 4,000 meetings of one pair have a round each, in their order.
#[test]
fn meetings_of_one_pair(rt: HostRuntime) -> Result<(), Fail> {
    let heap = rt.alloc();
    let meetings = vec![in heap; (0u8, 0u8); 4000]?;
    let numbers = (0..4000u16).collect::<Vec<_>>(heap)?;
    let list = list_of(heap, 1, 1, 120, &meetings)?;
    let mut lent = Slices::new(heap, Lengths::new(4000, 4000, 4000))?;
    let planned = lent.plan(heap, &list)?;
    same(
        &rt,
        &planned,
        &Planned {
            rounds: 4000,
            looks: 4000,
        },
    );
    same(&rt, &lent.rounds.as_slice(), &numbers.as_slice());
    same(&rt, &lent.group_rows.as_slice(), &numbers.as_slice());
    same(&rt, &lent.station_rows.as_slice(), &numbers.as_slice());
    Ok(())
}

// 4,000 meetings spread over 120 groups and 120 stations, of which none has more than 34: in an order in which putting in fills
// round after round, and in a mixed order, where chains are needed. The looks are those of the rule worked by another program.
// With one room they follow by hand: putting in fills 34 rounds, and then each of the other 3,966 gets one meeting, since the
// emptier round is empty. Unproved code takes minutes for these days: give `rt try` more seconds.
#[test]
fn full_days(rt: HostRuntime) -> Result<(), Fail> {
    let heap = rt.alloc();
    let days = [
        // the step from meeting to meeting, rooms, rounds, looks
        (1u16, 120u8, 34u16, 5902u64),
        (1777, 120, 34, 9513),
        (1, 34, 118, 38695),
        (1777, 34, 118, 20214),
        (1, 1, 4000, 4000 + 3966),
    ];
    for (step, rooms, rounds, looks) in days {
        let list = list_of(heap, 120, 120, rooms, &spread(heap, 4000, step)?)?;
        let mut lent = Slices::new(heap, Lengths::just_enough(&list, 4000, rounds))?;
        same(&rt, &lent.plan(heap, &list)?, &Planned { rounds, looks });
        assert!(rt; is_planned(list.meetings(), &lent.rounds, rounds, list.rooms()));
    }
    Ok(())
}
