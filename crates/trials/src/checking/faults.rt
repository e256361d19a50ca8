// The first fault of a plan, found by comparing all pairs of meetings and by filtering.
use crate::checking::alone::{Placed, is_alone};
use crate::entries::NONE;
use crate::told::Fault;
use meetings::{MeetingList, Side};
use std::alloc::{AllocError, Global};

// The meetings of a list beside their rounds, as many of them as there are of both.
pub(crate) fn beside(
    heap: Global,
    list: &MeetingList,
    of_meetings: &[u16],
) -> Result<Vec<Placed>, AllocError> {
    list.meetings()
        .iter()
        .zip(of_meetings)
        .map(|(meeting, round)| Placed {
            meeting: *meeting,
            round: *round,
        })
        .collect(heap)
}

fn no_such_round(placed: &[Placed], rounds: u16) -> Option<Fault> {
    let at = placed
        .iter()
        .position(|one| one.round != NONE && one.round >= rounds)?;
    Some((7, at))
}

// Somebody of a meeting is at an earlier one in its round.
fn clash(placed: &[Placed]) -> Option<Fault> {
    for at in 0..placed.len() {
        if !is_alone(placed, Side::Groups, at) {
            return Some((8, at));
        }
        if !is_alone(placed, Side::Stations, at) {
            return Some((8, at.saturating_add(8192)));
        }
    }
    None
}

fn too_many(placed: &[Placed], rounds: u16, rooms: u16) -> Option<Fault> {
    let size = |round: u16| placed.iter().filter(|one| one.round == round).count();
    let round = (0..rounds).find(|round| size(*round) > usize::from(rooms))?;
    Some((9, usize::from(round)))
}

// The first fault but that the rounds are not the fewest.
pub(crate) fn first_fault(placed: &[Placed], rounds: u16, rooms: u16) -> Option<Fault> {
    no_such_round(placed, rounds)
        .or_else(|| clash(placed))
        .or_else(|| too_many(placed, rounds, rooms))
}

// So many rounds are not the fewest.
pub(crate) fn not_fewest(rounds: u16, least: u16) -> Option<Fault> {
    (rounds != least).then_some((10, usize::from(rounds)))
}
