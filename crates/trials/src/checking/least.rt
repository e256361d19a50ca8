// The fewest rounds for the meetings that are not dropped, found in two ways.
use crate::checking::alone::Placed;
use crate::checking::faults::first_fault;
use crate::entries::NONE;
use crate::number::number_of_rounds;
use std::alloc::{AllocError, Global};

// So many digits of a number to a base, the lowest first: the numbers below the base's power have all rows of digits.
pub(crate) fn digits(
    heap: Global,
    number: u16,
    base: u16,
    many: usize,
) -> Result<Vec<u16>, AllocError> {
    let base = base.max(1);
    let mut rest = number;
    let mut digits = Vec::new(heap);
    for _ in 0..many {
        digits.push(rest % base)?;
        rest /= base;
    }
    Ok(digits)
}

// How many rows of so many digits there are.
pub(crate) fn rows(base: u16, many: usize) -> u16 {
    base.saturating_pow(u32::try_from(many).unwrap_or(u32::MAX))
}

// The meetings that are not dropped.
fn kept(heap: Global, placed: &[Placed]) -> Result<Vec<Placed>, AllocError> {
    placed
        .iter()
        .copied()
        .filter(|one| one.round != NONE)
        .collect(heap)
}

// One of all ways to give each meeting one of so many rounds is a plan.
fn has_plan(
    heap: Global,
    placed: &mut [Placed],
    rounds: u16,
    rooms: u16,
) -> Result<bool, AllocError> {
    for number in 0..rows(rounds, placed.len()) {
        let tried = digits(heap, number, rounds, placed.len())?;
        for (one, round) in placed.iter_mut().zip(&tried) {
            one.round = *round;
        }
        if first_fault(placed, rounds, rooms).is_none() {
            return Ok(true);
        }
    }
    Ok(false)
}

// The least number of rounds for which there is a plan, by trying all. For up to five meetings.
pub(crate) fn tried(heap: Global, placed: &[Placed], rooms: u16) -> Result<u16, AllocError> {
    let mut kept = kept(heap, placed)?;
    for rounds in 0..6 {
        if has_plan(heap, &mut kept, rounds, rooms)? {
            return Ok(rounds);
        }
    }
    Ok(NONE)
}

// As many as the busiest and the rooms ask for.
pub(crate) fn counted(heap: Global, placed: &[Placed], rooms: u16) -> Result<u16, AllocError> {
    let meetings = kept(heap, placed)?
        .iter()
        .map(|one| one.meeting)
        .collect::<Vec<_>>(heap)?;
    Ok(number_of_rounds(&meetings, rooms))
}
