// Whether rounds are a plan that is within the rooms and even.
use crate::clashes::is_plan;
use meetings::Meeting;

// How many meetings a round has.
pub(crate) fn size(rounds: &[u16], round: u16) -> usize {
    rounds.iter().filter(|other| **other == round).count()
}

// No round has more meetings than there are rooms, and no two rounds differ by more than one.
fn is_even(rounds: &[u16], many: u16, rooms: u16) -> bool {
    let most = (0..many)
        .map(|round| size(rounds, round))
        .max()
        .unwrap_or(0);
    let least = (0..many)
        .map(|round| size(rounds, round))
        .min()
        .unwrap_or(0);
    most <= usize::from(rooms) && most <= least.saturating_add(1)
}

// The rounds are a plan of the meetings with so many rounds, within the rooms and even. What is lent beyond them holds no round.
pub(crate) fn is_planned(meetings: &[Meeting], rounds: &[u16], many: u16, rooms: u16) -> bool {
    is_plan(meetings, rounds, many) && is_even(rounds, many, rooms)
}
