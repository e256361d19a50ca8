// Random rows of changes on small days, beside the rule written once more.
use crate::changing::checks::check_row;
use crate::changing::kinds::{add, drop_one};
use crate::day::{Day, moved};
use crate::lent::Lengths;
use crate::lists::list_of;
use crate::random::Random;
use crate::same::{holds, same};
use changes::Change;
use changes::Change::{GetRoom, GiveRoomUp};
use meetings::{MeetingList, Side};
use std::alloc::{AllocError, Global};
use std::process::Abort;
use std::test::Fail;

// How many groups and stations.
#[derive(Clone, Copy)]
pub(crate) struct Parties {
    pub(crate) groups: u8,
    pub(crate) stations: u8,
}

// Up to 15 meetings that a row begins with.
pub(crate) fn some_meetings(
    heap: Global,
    random: &mut Random,
    parties: Parties,
) -> Result<Vec<(u8, u8)>, AllocError> {
    let mut meetings = Vec::new(heap);
    for _ in 0..random.below(16) {
        let group = random.below(parties.groups.max(1));
        let station = random.below(parties.stations.max(1));
        meetings.push((group, station))?;
    }
    Ok(meetings)
}

// A meeting for which no round more is asked, where one is soon found: chains are needed where many are as busy as the busiest.
fn some_added(random: &mut Random, parties: Parties, day: &Day) -> Change {
    let most = usize::from(day.many);
    let mut pair = (0u16, 0u16);
    'pairs: for _ in 0..6 {
        let group = u16::from(random.below(parties.groups.max(1)));
        let station = u16::from(random.below(parties.stations.max(1)));
        pair = (group, station);
        if day.held(Side::Groups, group) < most && day.held(Side::Stations, station) < most {
            break 'pairs;
        }
    }
    let (group, station) = pair;
    add(group, station)
}

// One of the meetings that there are, if there is one.
fn some_dropped(random: &mut Random, day: &Day) -> Option<Change> {
    let start = usize::from(random.below(255));
    day.numbered
        .iter()
        .cycle()
        .skip(start)
        .take(day.numbered.len())
        .find(|one| one.there)
        .map(|one| drop_one(one.number))
}

// A change that can be made.
pub(crate) fn some_change(random: &mut Random, parties: Parties, day: &Day) -> Change {
    let added = some_added(random, parties, day);
    match random.below(8) {
        0 | 1 | 2 => some_dropped(random, day).unwrap_or(added),
        3 if day.rooms > 1 => GiveRoomUp,
        4 if day.rooms < 120 => GetRoom,
        _ => added,
    }
}

// How many changes moved others, made the rounds more by more than one, and less; how many chains and parts of more than one
// meeting were exchanged.
#[derive(Debug, Drop)]
struct Seen {
    moved: u32,
    rises: u32,
    falls: u32,
    chains: u32,
    parts: u32,
}

// A row of changes: each of its beginnings is made from the start, and compared with the one before.
fn check_beginnings(
    rt: &impl Abort,
    heap: Global,
    random: &mut Random,
    parties: Parties,
    list: &MeetingList,
    seen: &mut Seen,
) -> Result<(), Fail> {
    let mut day = Day::of(heap, list)?;
    let mut changes = Vec::new(heap);
    let mut told = Vec::new(heap);
    let mut most = day.many;
    let mut before = day.rounds(heap)?;
    for _ in 0..100 {
        let many = day.many;
        let change = some_change(random, parties, &day);
        let changed = day.change(heap, change)?;
        changes.push(change)?;
        told.push(changed)?;
        most = most.max(changed.rounds);
        let wide = most.saturating_add(u16::from(random.below(2)));
        let lengths = Lengths::just_enough(list, day.numbered.len(), wide);
        let lent = check_row(rt, heap, list, &changes, lengths, &day, &told)?;
        same(rt, &moved(&before, &lent.rounds), &changed.moved);
        before = lent.rounds;
        seen.moved = seen.moved.saturating_add(u32::from(changed.moved > 0));
        seen.rises = seen
            .rises
            .saturating_add(u32::from(day.many > many.saturating_add(1)));
        seen.falls = seen
            .falls
            .saturating_add(u32::from(many > day.many.saturating_add(1)));
    }
    seen.chains = seen.chains.saturating_add(day.chains);
    seen.parts = seen.parts.saturating_add(day.parts);
    Ok(())
}

// Rows of 100 changes.
#[test]
fn random_rows_beside_the_rule(rt: HostRuntime) -> Result<(), Fail> {
    let heap = rt.alloc();
    let mut random = Random::new(18);
    let mut seen = Seen {
        moved: 0,
        rises: 0,
        falls: 0,
        chains: 0,
        parts: 0,
    };
    // groups, stations, rooms
    for (groups, stations, rooms) in [
        (4u8, 4u8, 4u8),
        (5, 3, 2),
        (3, 3, 20),
        (4, 4, 20),
        (8, 7, 1),
    ] {
        let parties = Parties { groups, stations };
        let meetings = some_meetings(heap, &mut random, parties)?;
        let list = list_of(heap, groups, stations, rooms, &meetings)?;
        check_beginnings(&rt, heap, &mut random, parties, &list, &mut seen)?;
    }
    // else the rows would show little
    holds(&rt, seen.moved > 200, &seen);
    holds(&rt, seen.rises > 10 && seen.falls > 10, &seen);
    holds(&rt, seen.chains > 50 && seen.parts > 50, &seen);
    Ok(())
}
