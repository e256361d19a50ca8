// 4,000 meetings of 120 groups and 120 stations, of which none has more than 34. Group 39 has meetings 39 and 3999.
use crate::checking::checks::told_of;
use crate::lent::{Lengths, Slices};
use crate::lists::list_of;
use crate::made_lists::spread;
use crate::same::same;
use std::test::Fail;

#[test]
fn full_days(rt: HostRuntime) -> Result<(), Fail> {
    let heap = rt.alloc();
    let meetings = spread(heap, 4000, 1)?;
    // rooms, rounds
    for (rooms, rounds) in [(120u8, 34u16), (34, 118), (1, 4000)] {
        let list = list_of(heap, 120, 120, rooms, &meetings)?;
        let mut lent = Slices::new(heap, Lengths::just_enough(&list, 4000, rounds))?;
        same(&rt, &lent.plan(heap, &list)?.rounds, &rounds);
        same(
            &rt,
            &told_of(&rt, heap, &list, rounds, &lent.rounds)?,
            &None,
        );
        // the last meeting in the round past the last, and in that of another meeting of its group
        let of_other = lent.rounds.get(39).copied().unwrap_or(rounds);
        for (round, right) in [(rounds, (7u8, 3999usize)), (of_other, (8, 3999))] {
            if let Some(last) = lent.rounds.last_mut() {
                *last = round;
            }
            same(
                &rt,
                &told_of(&rt, heap, &list, rounds, &lent.rounds)?,
                &Some(right),
            );
        }
    }
    Ok(())
}
