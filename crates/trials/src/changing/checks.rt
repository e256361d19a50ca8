// Whether a row of changes comes to what it should.
use crate::day::Day;
use crate::entries::NONE;
use crate::lent::{Lengths, Slices};
use crate::planned::is_planned;
use crate::same::same;
use changes::{Change, Changed};
use meetings::MeetingList;
use std::alloc::{AllocError, Global};
use std::process::Abort;
use std::test::Fail;

// Lent rounds are a plan of the meetings that there are, with the number of rounds that is asked, and a dropped one has none.
pub(crate) fn stands(heap: Global, day: &Day, rounds: &[u16]) -> Result<bool, AllocError> {
    let mut meetings = Vec::new(heap);
    let mut theirs = Vec::new(heap);
    let mut of_dropped = Vec::new(heap);
    for (one, round) in day.numbered.iter().zip(rounds) {
        if one.there {
            meetings.push(one.meeting)?;
            theirs.push(*round)?;
        } else {
            of_dropped.push(*round)?;
        }
    }
    let many = day.rounds_asked(heap)?;
    Ok(
        of_dropped.iter().all(|round| *round == NONE)
            && is_planned(&meetings, &theirs, many, day.rooms),
    )
}

// What the rule makes of a row of changes, and what is told of each.
pub(crate) fn ruled(
    heap: Global,
    list: &MeetingList,
    changes: &[Change],
) -> Result<(Day, Vec<Changed>), AllocError> {
    let mut day = Day::of(heap, list)?;
    let mut told = Vec::new(heap);
    for change in changes {
        told.push(day.change(heap, *change)?)?;
    }
    Ok((day, told))
}

// A row of changes makes this day, and is told of so. Answers the lent slices.
pub(crate) fn check_row(
    rt: &impl Abort,
    heap: Global,
    list: &MeetingList,
    changes: &[Change],
    lengths: Lengths,
    day: &Day,
    told: &[Changed],
) -> Result<Slices, Fail> {
    let mut lent = Slices::new(heap, lengths)?;
    let answer = lent.change(heap, list, changes)?;
    same(rt, &answer.as_slice(), &told);
    assert!(rt; stands(heap, day, &lent.rounds)?);
    same(rt, &lent, &Slices::with(heap, lengths, list, day)?);
    Ok(lent)
}
