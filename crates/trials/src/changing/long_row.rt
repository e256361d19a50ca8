// A thousand changes on a full day. The looks and how many were moved are those of the rule worked by another program. Unproved
// code may take more than a minute for them: give `rt try` more seconds.
use crate::changing::checks::stands;
use crate::changing::kinds::{add, drop_one};
use crate::day::Day;
use crate::lent::{Lengths, Slices};
use crate::made_lists::spread_list;
use crate::random::Random;
use crate::same::same;
use changes::Change;
use changes::Change::{GetRoom, GiveRoomUp};
use std::test::Fail;

// A change that can be made: every other adds a meeting as long as there are numbers, and the rooms stay from 30 to 50.
fn some_change(random: &mut Random, day: &Day) -> Change {
    let kind = random.below(20);
    let added = add(u16::from(random.below(120)), u16::from(random.below(120)));
    let number = u16::from(random.below(40)) * 100 + u16::from(random.below(100));
    let is_there = day
        .numbered
        .get(usize::from(number))
        .is_some_and(|one| one.there);
    if kind < 10 && day.numbered.len() < 4000 {
        added
    } else if kind < 16 && is_there {
        drop_one(number)
    } else if (kind < 18 && day.rooms > 30) || day.rooms == 50 {
        GiveRoomUp
    } else {
        GetRoom
    }
}

#[test]
fn a_thousand_changes(rt: HostRuntime) -> Result<(), Fail> {
    let heap = rt.alloc();
    let list = spread_list(heap, 3500, 40)?;
    let mut random = Random::new(3);
    let mut day = Day::unplanned(heap, list.meetings(), list.rooms())?;
    let mut changes = Vec::new(heap);
    for _ in 0..1000 {
        let change = some_change(&mut random, &day);
        changes.push(change)?;
        day.note(change)?;
    }
    // with 30 rooms 4,000 meetings have 134 rounds
    let lengths = Lengths::just_enough(&list, day.numbered.len(), 134);
    let mut lent = Slices::new(heap, lengths)?;
    let told = lent.change(heap, &list, &changes)?;
    let looks = told
        .iter()
        .fold(0u64, |sum, one| sum.saturating_add(one.looks));
    let moved = told
        .iter()
        .fold(0u64, |sum, one| sum.saturating_add(u64::from(one.moved)));
    same(&rt, &told.last().map(|one| one.rounds), &Some(88));
    same(&rt, &(looks, moved), &(173603, 37550));
    assert!(rt; stands(heap, &day, &lent.rounds)?);
    day.take_rounds(&lent.rounds);
    same(&rt, &lent, &Slices::with(heap, lengths, &list, &day)?);
    Ok(())
}
