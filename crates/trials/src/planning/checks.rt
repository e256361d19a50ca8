// Whether a list is planned as it should be.
use crate::day::Day;
use crate::lent::{Lengths, Slices};
use crate::planned::is_planned;
use crate::same::same;
use balance::Planned;
use meetings::MeetingList;
use std::alloc::Global;
use std::process::Abort;
use std::test::Fail;

// A list is planned by the rule, into slices of these lengths. Answers the day that the rule made.
pub(crate) fn check_planned(
    rt: &impl Abort,
    heap: Global,
    list: &MeetingList,
    lengths: Lengths,
) -> Result<Day, Fail> {
    let right = Day::of(heap, list)?;
    let mut lent = Slices::new(heap, lengths)?;
    same(
        rt,
        &lent.plan(heap, list)?,
        &Planned {
            rounds: right.many,
            looks: right.looks,
        },
    );
    assert!(rt; is_planned(list.meetings(), &lent.rounds, right.many, list.rooms()));
    same(rt, &lent, &Slices::with(heap, lengths, list, &right)?);
    Ok(right)
}
