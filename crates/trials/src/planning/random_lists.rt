// Random lists beside the rule written once more.
use crate::lent::Lengths;
use crate::lists::list_of;
use crate::number::number_of_rounds;
use crate::planning::checks::check_planned;
use crate::random::Random;
use crate::same::holds;
use std::alloc::{AllocError, Global};
use std::test::Fail;

// Whether the group and the station of a meeting both have fewer meetings than the most. They are counted apart, since each is
// another part of the pair.
fn has_place(meetings: &[(u8, u8)], meeting: (u8, u8), most: u8) -> bool {
    let (group, station) = meeting;
    let of_group = meetings
        .iter()
        .filter(|(its_group, _)| *its_group == group)
        .count();
    let of_station = meetings
        .iter()
        .filter(|(_, its_station)| *its_station == station)
        .count();
    of_group < usize::from(most) && of_station < usize::from(most)
}

// Up to 40 meetings, of which no party has more than the most: many are as busy as the busiest, and then chains are needed.
fn some_meetings(
    heap: Global,
    random: &mut Random,
    groups: u8,
    stations: u8,
) -> Result<Vec<(u8, u8)>, AllocError> {
    let mut meetings = Vec::new(heap);
    let most = 1 + random.below(6);
    for _ in 0..random.below(100) {
        let group = random.below(groups.max(1));
        let station = random.below(stations.max(1));
        if meetings.len() < 40 && has_place(&meetings, (group, station), most) {
            meetings.push((group, station))?;
        }
    }
    Ok(meetings)
}

// A length for the rows of so many parties: up to two rounds too many, and some entries that are no whole row.
fn some_length(random: &mut Random, parties: u8, rounds: u16) -> usize {
    let width = usize::from(rounds) + usize::from(random.below(3));
    width * usize::from(parties) + usize::from(random.below(parties.max(1)))
}

// Up to 16 groups, stations and rooms. Up to three rounds too many are lent.
#[test]
fn random_lists_beside_the_rule(rt: HostRuntime) -> Result<(), Fail> {
    let heap = rt.alloc();
    let mut random = Random::new(11);
    let mut chains = 0u32;
    let mut evened = 0u32;
    let mut parts = 0u32;
    for _ in 0..500 {
        let groups = 1 + random.below(16);
        let stations = 1 + random.below(16);
        let rooms = 1 + random.below(16);
        let meetings = some_meetings(heap, &mut random, groups, stations)?;
        let list = list_of(heap, groups, stations, rooms, &meetings)?;
        let rounds = number_of_rounds(list.meetings(), list.rooms());
        let lengths = Lengths {
            rounds: meetings.len().saturating_add(usize::from(random.below(4))),
            group_rows: some_length(&mut random, groups, rounds),
            station_rows: some_length(&mut random, stations, rounds),
        };
        let day = check_planned(&rt, heap, &list, lengths)?;
        chains = chains.saturating_add(day.chains);
        evened = evened.saturating_add(u32::from(day.exchanges > 0));
        parts = parts.saturating_add(day.parts);
    }
    // else the lists would show little
    holds(
        &rt,
        chains > 100 && evened > 150 && parts > 50,
        &(chains, evened, parts),
    );
    Ok(())
}
