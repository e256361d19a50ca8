// The limits: rooms from 1 to 120, and 4,000 numbers, those of dropped meetings among them.
use crate::changing::kinds::{add, drop_one};
use crate::entries::NONE;
use crate::lent::{Lengths, Slices};
use crate::lists::list_of;
use crate::made_lists::spread_list;
use crate::same::same;
use changes::Change::{GetRoom, GiveRoomUp};
use changes::{Change, Changed};
use meetings::{MeetingList, Refusal};
use std::alloc::Global;
use std::test::Fail;

// The change that cannot be made, or None where all can. The slices are long enough for two pairs and for a full day.
fn refused_at(heap: Global, list: &MeetingList, changes: &[Change]) -> Result<Option<usize>, Fail> {
    let mut lent = Slices::new(heap, Lengths::new(4000, 4800, 4800))?;
    match lent.change(heap, list, changes) {
        Ok(_) => Ok(None),
        Err(Refusal::BadChange(at)) => Ok(Some(at)),
        Err(refusal) => Err(Fail::from(refusal)),
    }
}

#[test]
fn rooms_at_their_limits(rt: HostRuntime) -> Result<(), Fail> {
    let cases: [(u8, &[Change], Option<usize>); 8] = [
        (1, &[GiveRoomUp], Some(0)),
        (1, &[GetRoom, GiveRoomUp, GiveRoomUp], Some(2)),
        (2, &[GiveRoomUp], None),
        (2, &[GiveRoomUp, GiveRoomUp], Some(1)),
        (120, &[GetRoom], Some(0)),
        (120, &[GiveRoomUp, GetRoom, GetRoom], Some(2)),
        (119, &[GetRoom], None),
        (119, &[GetRoom, GetRoom], Some(1)),
    ];
    for (rooms, changes, right) in cases {
        let list = list_of(rt.alloc(), 2, 2, rooms, &[(0, 0), (1, 1)])?;
        same(&rt, &refused_at(rt.alloc(), &list, changes)?, &right);
    }
    Ok(())
}

#[test]
fn numbers_at_their_limit(rt: HostRuntime) -> Result<(), Fail> {
    let cases: [(u16, &[Change], Option<usize>); 6] = [
        (3999, &[add(0, 0)], None),
        (3999, &[add(0, 0), add(0, 0)], Some(1)),
        (4000, &[add(0, 0)], Some(0)),
        // dropped ones count
        (4000, &[drop_one(3999)], None),
        (4000, &[drop_one(0), add(0, 0)], Some(1)),
        (
            3999,
            &[drop_one(7), drop_one(8), add(0, 0), add(0, 0)],
            Some(3),
        ),
    ];
    for (many, changes, right) in cases {
        let list = spread_list(rt.alloc(), many, 120)?;
        same(&rt, &refused_at(rt.alloc(), &list, changes)?, &right);
    }
    Ok(())
}

// 3,998 meetings of one pair in as many rounds. The first added one is in a round more. Meeting 0 is dropped, and the added one
// goes to its round, since its own is no more. The second added one is in that round again.
#[test]
fn all_numbers(rt: HostRuntime) -> Result<(), Fail> {
    let heap = rt.alloc();
    let meetings = vec![in heap; (0u8, 0u8); 3998]?;
    let list = list_of(heap, 1, 1, 120, &meetings)?;
    let mut lent = Slices::new(heap, Lengths::new(4000, 3999, 3999))?;
    let told = lent.change(heap, &list, &[add(0, 0), drop_one(0), add(0, 0)])?;
    let right = [(3999u16, 1u64, 0u16), (3998, 1, 1), (3999, 1, 0)].map(|(
        rounds,
        looks,
        moved,
    )| Changed {
        rounds,
        looks,
        moved,
    });
    same(&rt, &told.as_slice(), &right.as_slice());
    let rounds = [NONE]
        .into_iter()
        .chain(1..3998)
        .chain([0, 3998])
        .collect::<Vec<_>>(heap)?;
    let row = [3998u16]
        .into_iter()
        .chain(1..3998)
        .chain([3999])
        .collect::<Vec<_>>(heap)?;
    same(&rt, &lent.rounds.as_slice(), &rounds.as_slice());
    same(&rt, &lent.group_rows.as_slice(), &row.as_slice());
    same(&rt, &lent.station_rows.as_slice(), &row.as_slice());
    Ok(())
}
