// The number of rounds: worked days, the largest lists, and random lists beside a search over all plans.
use crate::lists::bytes_of;
use crate::made_lists::spread;
use crate::random::Random;
use crate::same::same;
use crate::search::searched;
use fewest::{Tally, fewest_rounds};
use meetings::{Refusal, read};
use std::alloc::Global;
use std::test::Fail;

// The number of rounds of the list that the bytes say.
fn rounds_of(heap: Global, bytes: &[u8]) -> Result<u16, Refusal> {
    let list = read(heap, bytes)?;
    fewest_rounds(heap, &list)
}

#[test]
fn worked_days(rt: HostRuntime) -> Result<(), Fail> {
    // meetings, rooms, rounds; three groups and three stations
    let days: [(&[(u8, u8)], u8, u16); 5] = [
        (&[(0, 0), (0, 1), (1, 0), (1, 1)], 2, 2),
        (&[(0, 0), (1, 1), (2, 2)], 1, 3),
        (&[(0, 0), (0, 0), (0, 1)], 9, 3),
        (&[], 4, 0),
        (&[(0, 0), (0, 1), (0, 2), (1, 0), (2, 0)], 2, 3),
    ];
    for (meetings, rooms, rounds) in days {
        let bytes = bytes_of(rt.alloc(), 3, 3, rooms, meetings)?;
        same(&rt, &rounds_of(rt.alloc(), &bytes)?, &rounds);
    }
    Ok(())
}

#[test]
fn each_party_is_counted(rt: HostRuntime) -> Result<(), Fail> {
    let bytes = bytes_of(rt.alloc(), 3, 4, 2, &[(0, 0), (2, 1), (0, 0), (0, 3)])?;
    let list = read(rt.alloc(), &bytes)?;
    let tally = Tally::of(rt.alloc(), &list)?;
    same(&rt, &tally.groups(), &[3u16, 0, 1].as_slice());
    same(&rt, &tally.stations(), &[2u16, 1, 0, 1].as_slice());
    same(&rt, &tally.busiest(), &3);
    Ok(())
}

// Each of five groups with each of five stations: 25 meetings fill 5 rounds of 5 rooms, and need 7 of 4.
#[test]
fn five_by_five(rt: HostRuntime) -> Result<(), Fail> {
    let heap = rt.alloc();
    let meetings = (0..5u8)
        .flat_map(|group| (0..5u8).map(move |station| (group, station)))
        .collect::<Vec<_>>(heap)?;
    let in_five = bytes_of(heap, 5, 5, 5, &meetings)?;
    same(&rt, &rounds_of(heap, &in_five)?, &5);
    let in_four = bytes_of(heap, 5, 5, 4, &meetings)?;
    same(&rt, &rounds_of(heap, &in_four)?, &7);
    Ok(())
}

// 4,000 meetings of one pair are 4,000 rounds, and as many spread over 120 groups and stations are 34.
#[test]
fn largest_lists(rt: HostRuntime) -> Result<(), Fail> {
    let heap = rt.alloc();
    let pair = vec![in heap; (0u8, 0u8); 4000]?;
    let pair_bytes = bytes_of(heap, 1, 1, 120, &pair)?;
    same(&rt, &rounds_of(heap, &pair_bytes)?, &4000);
    let spread_bytes = bytes_of(heap, 120, 120, 120, &spread(heap, 4000, 1)?)?;
    let list = read(heap, &spread_bytes)?;
    same(&rt, &Tally::of(heap, &list)?.busiest(), &34);
    same(&rt, &fewest_rounds(heap, &list)?, &34);
    Ok(())
}

// Up to five meetings among three groups and three stations, with one to three rooms.
#[test]
fn random_lists_beside_a_search(rt: HostRuntime) -> Result<(), Fail> {
    let heap = rt.alloc();
    let mut random = Random::new(7);
    for _ in 0..3000 {
        let mut meetings = Vec::new(heap);
        for _ in 0..random.below(6) {
            let group = random.below(3);
            let station = random.below(3);
            meetings.push((group, station))?;
        }
        let rooms = 1 + random.below(3);
        let bytes = bytes_of(heap, 3, 3, rooms, &meetings)?;
        let said = u32::from(rounds_of(heap, &bytes)?);
        same(&rt, &searched(&meetings, rooms), &Some(said));
    }
    Ok(())
}
