// The plan after each change of random rows is accepted for the list that there is then.
use crate::changing::random_rows::{Parties, some_change, some_meetings};
use crate::checking::checks::{check_moved, told_of};
use crate::day::Day;
use crate::entries::NONE;
use crate::lent::{Lengths, Slices};
use crate::lists::list_of;
use crate::random::Random;
use crate::same::{holds, same};
use meetings::MeetingList;
use std::alloc::Global;
use std::process::Abort;
use std::test::Fail;

// None is cut: what a list has was read from bytes.
fn byte(number: u16) -> u8 {
    let [low, _] = number.to_le_bytes();
    low
}

// The list of all meetings that there ever were, those that were dropped too.
fn list_of_all(heap: Global, parties: Parties, day: &Day) -> Result<MeetingList, Fail> {
    let Parties { groups, stations } = parties;
    let meetings = day
        .numbered
        .iter()
        .map(|one| (byte(one.meeting.group.0), byte(one.meeting.station.0)))
        .collect::<Vec<_>>(heap)?;
    Ok(list_of(heap, groups, stations, byte(day.rooms), &meetings)?)
}

// A row of changes: each of its beginnings is made from the start.
fn check_beginnings(
    rt: &impl Abort,
    heap: Global,
    random: &mut Random,
    parties: Parties,
    first: &MeetingList,
) -> Result<(), Fail> {
    let mut day = Day::unplanned(heap, first.meetings(), first.rooms())?;
    let mut changes = Vec::new(heap);
    for _ in 0..50 {
        let change = some_change(random, parties, &day);
        changes.push(change)?;
        day.note(change)?;
        let list = list_of_all(heap, parties, &day)?;
        // there are no more rounds than the 65 meetings that there can be
        let lengths = Lengths::just_enough(&list, day.numbered.len(), 65);
        let mut lent = Slices::new(heap, lengths)?;
        let told = lent.change(heap, first, &changes)?;
        let rounds = told.last().map_or(NONE, |changed| changed.rounds);
        same(rt, &told_of(rt, heap, &list, rounds, &lent.rounds)?, &None);
        let at = usize::from(random.below(30));
        check_moved(rt, heap, &list, rounds, &lent.rounds, at)?;
    }
    let dropped = day.numbered.iter().filter(|one| !one.there).count();
    // else the row would show little
    holds(rt, dropped > 5, &dropped);
    Ok(())
}

#[test]
fn plans_after_changes(rt: HostRuntime) -> Result<(), Fail> {
    let heap = rt.alloc();
    let mut random = Random::new(9);
    // groups, stations, rooms
    for (groups, stations, rooms) in [
        (4u8, 4u8, 4u8),
        (5, 3, 2),
        (3, 3, 20),
        (8, 7, 1),
        (1, 2, 3),
    ] {
        let parties = Parties { groups, stations };
        let meetings = some_meetings(heap, &mut random, parties)?;
        let list = list_of(heap, groups, stations, rooms, &meetings)?;
        check_beginnings(&rt, heap, &mut random, parties, &list)?;
    }
    Ok(())
}
