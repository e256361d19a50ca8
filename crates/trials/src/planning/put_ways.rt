// Other ways to put meetings in. Each answers how many rounds it takes; these have no regard to rooms.
use crate::day::Day;
use crate::number::{held, number_of_rounds};
use crate::rule::BOTH;
use meetings::{Meeting, Side};
use std::alloc::{AllocError, Global};
use std::cmp::Reverse;

// A new round.
fn open(day: &mut Day) -> u16 {
    let round = day.many;
    day.many = day.many.saturating_add(1);
    round
}

// Each meeting gets the first common free round, else a new one.
pub(crate) fn first_fit(heap: Global, meetings: &[Meeting]) -> Result<u16, AllocError> {
    let mut day = Day::empty(heap, 0, 0);
    for meeting in meetings {
        let free = day.lowest_free(&BOTH, *meeting);
        let round = free.unwrap_or_else(|| open(&mut day));
        day.put(*meeting, round)?;
    }
    Ok(day.many)
}

// First fit, but those whose parties have most meetings come first, in the hope that the others fit in somewhere.
pub(crate) fn busiest_first(heap: Global, meetings: &[Meeting]) -> Result<u16, AllocError> {
    let mut in_order = meetings.to_vec(heap)?;
    in_order.sort_by_key(|one| {
        let of_group = held(meetings, Side::Groups, *one);
        let of_station = held(meetings, Side::Stations, *one);
        Reverse(of_group.saturating_add(of_station))
    })?;
    first_fit(heap, &in_order)
}

// Where there is no common free round, the chain is followed from the group, and the meeting wants the round in which the group
// was free, else a new one.
fn by_wrong_end(day: &mut Day, heap: Global, meeting: Meeting) -> Result<Option<u16>, AllocError> {
    let free_for_both = day.lowest_free(&BOTH, meeting);
    if free_for_both.is_some() {
        return Ok(free_for_both);
    }
    let free_for_group = day.lowest_free(&[Side::Groups], meeting);
    let free_for_station = day.lowest_free(&[Side::Stations], meeting);
    let (Some(a), Some(b)) = (free_for_group, free_for_station) else {
        return Ok(None);
    };
    let members = day.chain(heap, Side::Groups, meeting, b, a)?;
    day.exchange(&members, a, b);
    Ok(Some(a).filter(|round| day.is_free(&BOTH, meeting, *round)))
}

// The rule for putting in, but chains are followed from the wrong end.
pub(crate) fn wrong_end(heap: Global, meetings: &[Meeting], rooms: u16) -> Result<u16, AllocError> {
    let mut day = Day::empty(heap, rooms, number_of_rounds(meetings, rooms));
    for meeting in meetings {
        let wanted = by_wrong_end(&mut day, heap, *meeting)?;
        let round = wanted.unwrap_or_else(|| open(&mut day));
        day.put(*meeting, round)?;
    }
    Ok(day.many)
}
