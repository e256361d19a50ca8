// Other ways to keep to the rooms. Each answers how many rounds it takes.
use crate::day::Day;
use crate::planning::put_ways::first_fit;
use crate::rule::{BOTH, is_beside};
use meetings::Meeting;
use std::alloc::{AllocError, Global};

// One round takes each meeting that fits in, in their order. Answers those that are left.
fn fill(heap: Global, meetings: &[Meeting], rooms: u16) -> Result<Vec<Meeting>, AllocError> {
    let mut taken: Vec<Meeting> = Vec::new(heap);
    let mut left = Vec::new(heap);
    for meeting in meetings {
        let is_free = !taken.iter().any(|other| is_beside(*meeting, *other));
        if is_free && taken.len() < usize::from(rooms) {
            taken.push(*meeting)?;
        } else {
            left.push(*meeting)?;
        }
    }
    Ok(left)
}

// Round after round is filled with those that are left.
pub(crate) fn round_by_round(
    heap: Global,
    meetings: &[Meeting],
    rooms: u16,
) -> Result<u16, AllocError> {
    let mut left = meetings.to_vec(heap)?;
    let mut many = 0u16;
    // a round takes one at least
    for _ in meetings {
        if !left.is_empty() {
            left = fill(heap, &left, rooms)?;
            many = many.saturating_add(1);
        }
    }
    Ok(many)
}

// The meetings for which their rounds have no room, since earlier ones have all.
fn without_room(heap: Global, day: &Day, rooms: u16) -> Result<Vec<Meeting>, AllocError> {
    day.numbered
        .iter()
        .enumerate()
        .filter(|(at, one)| {
            let earlier = day.numbered.iter().take(*at);
            earlier.filter(|other| other.round == one.round).count() >= usize::from(rooms)
        })
        .map(|(_, one)| one.meeting)
        .collect(heap)
}

// Moves the first meeting of round a that is free in b, if there is one.
fn move_one(day: &mut Day, a: u16, b: u16) {
    let movable = day
        .numbered
        .iter()
        .copied()
        .find(|one| one.round == a && day.is_free(&BOTH, one.meeting, b));
    if let Some(one) = movable {
        day.exchange(&[one], a, b);
    }
}

// Rounds are evened out by moving single meetings. Where no more can be moved, those for which there is no room are put into
// further rounds.
pub(crate) fn single_moves(
    heap: Global,
    meetings: &[Meeting],
    rooms: u16,
) -> Result<u16, AllocError> {
    let mut day = Day::unplanned(heap, meetings, rooms)?;
    day.many = day.rounds_asked(heap)?;
    day.put_in(heap)?;
    // there are no more moves than meetings
    for _ in meetings {
        if let Some((a, b)) = day.uneven() {
            move_one(&mut day, a, b);
        }
    }
    let left = without_room(heap, &day, rooms)?;
    Ok(day.many.saturating_add(first_fit(heap, &left)?))
}

// Rounds are counted as though each had a room for all. Those for which there is none are planned by themselves, in further
// rounds.
pub(crate) fn rooms_forgotten(
    heap: Global,
    meetings: &[Meeting],
    rooms: u16,
) -> Result<u16, AllocError> {
    let mut left = meetings.to_vec(heap)?;
    let mut many = 0u16;
    // one at least has a room
    for _ in meetings {
        let mut day = Day::unplanned(heap, &left, u16::MAX)?;
        day.make_again(heap)?;
        left = without_room(heap, &day, rooms)?;
        many = many.saturating_add(day.many);
    }
    Ok(many)
}
