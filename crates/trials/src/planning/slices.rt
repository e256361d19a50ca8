// Slices that are too short, just long enough or very long, and a list without meetings.
use crate::lent::{Lengths, Slices};
use crate::lists::list_of;
use crate::planning::checks::check_planned;
use crate::same::same;
use balance::{Planned, plan};
use meetings::{Lent, MeetingList, Refusal};
use std::alloc::Global;
use std::process::Abort;
use std::test::Fail;

// A slice is refused, and nothing lent has changed.
fn check_short(
    rt: &impl Abort,
    heap: Global,
    list: &MeetingList,
    lengths: Lengths,
    short: Lent,
) -> Result<(), Fail> {
    let mut lent = Slices::new(heap, lengths)?;
    same(
        rt,
        &lent.plan(heap, list).err(),
        &Some(Refusal::ShortSlice(short)),
    );
    same(rt, &lent, &Slices::new(heap, lengths)?);
    Ok(())
}

// Five meetings of three groups and two stations, which take three rounds: 5, 9 and 6 entries are just enough.
#[test]
fn short_slices_are_refused(rt: HostRuntime) -> Result<(), Fail> {
    let heap = rt.alloc();
    let list = list_of(heap, 3, 2, 2, &[(0, 0), (0, 1), (1, 0), (2, 0), (2, 1)])?;
    let short = [
        (Lengths::new(4, 9, 6), Lent::Rounds),
        (Lengths::new(5, 8, 6), Lent::GroupRows),
        (Lengths::new(5, 9, 5), Lent::StationRows),
        // the first is told
        (Lengths::new(4, 8, 6), Lent::Rounds),
        (Lengths::new(4, 9, 5), Lent::Rounds),
        (Lengths::new(5, 8, 5), Lent::GroupRows),
        (Lengths::new(0, 0, 0), Lent::Rounds),
        (Lengths::new(5, 0, 0), Lent::GroupRows),
        (Lengths::new(5, 9, 0), Lent::StationRows),
        // what one has too many is no help to another
        (Lengths::new(100, 8, 100), Lent::GroupRows),
    ];
    for (lengths, which) in short {
        check_short(&rt, heap, &list, lengths, which)?;
    }
    for lengths in [
        Lengths::new(5, 9, 6),
        Lengths::new(6, 11, 7),
        Lengths::new(5, 12, 20),
    ] {
        check_planned(&rt, heap, &list, lengths)?;
    }
    Ok(())
}

#[test]
fn no_meetings_take_no_rounds(rt: HostRuntime) -> Result<(), Fail> {
    let heap = rt.alloc();
    let list = list_of(heap, 3, 2, 2, &[])?;
    let planned = plan(heap, &list, &mut [], &mut [], &mut [])?;
    same(
        &rt,
        &planned,
        &Planned {
            rounds: 0,
            looks: 0,
        },
    );
    // rows that are lent all the same are emptied
    check_planned(&rt, heap, &list, Lengths::new(2, 7, 5))?;
    Ok(())
}

// A row has an entry for each round that there can be, 65,535, and what is lent beyond stays as it was.
#[test]
fn rows_of_all_rounds(rt: HostRuntime) -> Result<(), Fail> {
    let list = list_of(rt.alloc(), 1, 1, 1, &[(0, 0), (0, 0)])?;
    check_planned(&rt, rt.alloc(), &list, Lengths::new(2, 65537, 70000))?;
    Ok(())
}
