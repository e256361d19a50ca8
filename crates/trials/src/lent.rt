// The three slices that are lent, and what they hold before and after.
use crate::day::Day;
use crate::entries::{NONE, noise};
use balance::{Planned, plan, plan_bytes};
use changes::{Change, Changed, change_bytes, change_day};
use meetings::{MeetingList, Refusal, Side};
use std::alloc::{AllocError, Global};

// How long the slices are.
#[derive(Clone, Copy)]
pub(crate) struct Lengths {
    pub(crate) rounds: usize,
    pub(crate) group_rows: usize,
    pub(crate) station_rows: usize,
}

impl Lengths {
    // For tables, which are read by columns: rounds, rows of groups, rows of stations.
    pub(crate) fn new(rounds: usize, group_rows: usize, station_rows: usize) -> Lengths {
        Lengths {
            rounds,
            group_rows,
            station_rows,
        }
    }

    // For so many numbers and rounds of a list's parties, without an entry too many.
    pub(crate) fn just_enough(list: &MeetingList, numbers: usize, rounds: u16) -> Lengths {
        let many = usize::from(rounds);
        Lengths {
            rounds: numbers,
            group_rows: many.saturating_mul(usize::from(list.groups())),
            station_rows: many.saturating_mul(usize::from(list.stations())),
        }
    }
}

#[derive(PartialEq, Eq, Debug, Drop)]
pub(crate) struct Slices {
    pub(crate) rounds: Vec<u16>,
    pub(crate) group_rows: Vec<u16>,
    pub(crate) station_rows: Vec<u16>,
}

// What is written, and behind it what was there before.
fn over(heap: Global, written: &[u16], length: usize) -> Result<Vec<u16>, AllocError> {
    let before = noise(heap, length)?;
    let behind = before.iter().skip(written.len());
    written.iter().chain(behind).copied().collect(heap)
}

// The rows of one side in a slice: for each party and each round of its row the meeting that it has there.
fn rows(
    heap: Global,
    day: &Day,
    side: Side,
    parties: u16,
    length: usize,
) -> Result<Vec<u16>, AllocError> {
    // a row has an entry for each round that there can be, 65,535, and no more
    let width = (length / usize::from(parties.max(1))).min(65535);
    let mut rows = vec![in heap; NONE; width.saturating_mul(usize::from(parties))]?;
    for one in &day.numbered {
        let start = usize::from(one.meeting.party(side)).saturating_mul(width);
        let place = rows.get_mut(start.saturating_add(usize::from(one.round)));
        if let (true, Some(entry)) = (one.round != NONE, place) {
            *entry = one.number;
        }
    }
    Ok(rows)
}

impl Slices {
    // As they are lent.
    pub(crate) fn new(heap: Global, lengths: Lengths) -> Result<Slices, AllocError> {
        Ok(Slices {
            rounds: noise(heap, lengths.rounds)?,
            group_rows: noise(heap, lengths.group_rows)?,
            station_rows: noise(heap, lengths.station_rows)?,
        })
    }

    // As they should be with the plan of this day.
    pub(crate) fn with(
        heap: Global,
        lengths: Lengths,
        list: &MeetingList,
        day: &Day,
    ) -> Result<Slices, AllocError> {
        let rounds = day.rounds(heap)?;
        let (groups, stations) = (list.groups(), list.stations());
        let group_rows = rows(heap, day, Side::Groups, groups, lengths.group_rows)?;
        let station_rows = rows(heap, day, Side::Stations, stations, lengths.station_rows)?;
        Ok(Slices {
            rounds: over(heap, &rounds, lengths.rounds)?,
            group_rows: over(heap, &group_rows, lengths.group_rows)?,
            station_rows: over(heap, &station_rows, lengths.station_rows)?,
        })
    }

    pub(crate) fn plan(&mut self, heap: Global, list: &MeetingList) -> Result<Planned, Refusal> {
        plan(
            heap,
            list,
            &mut self.rounds,
            &mut self.group_rows,
            &mut self.station_rows,
        )
    }

    pub(crate) fn plan_bytes(&mut self, heap: Global, bytes: &[u8]) -> Result<Planned, Refusal> {
        plan_bytes(
            heap,
            bytes,
            &mut self.rounds,
            &mut self.group_rows,
            &mut self.station_rows,
        )
    }

    pub(crate) fn change(
        &mut self,
        heap: Global,
        list: &MeetingList,
        changes: &[Change],
    ) -> Result<Vec<Changed>, Refusal> {
        change_day(
            heap,
            list,
            changes,
            &mut self.rounds,
            &mut self.group_rows,
            &mut self.station_rows,
        )
    }

    pub(crate) fn change_bytes(
        &mut self,
        heap: Global,
        day: &[u8],
        changes: &[u8],
    ) -> Result<Vec<Changed>, Refusal> {
        change_bytes(
            heap,
            day,
            changes,
            &mut self.rounds,
            &mut self.group_rows,
            &mut self.station_rows,
        )
    }
}
