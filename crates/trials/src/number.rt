// How many rounds a list takes, counted once more. It uses nothing of the libraries but the meetings.
use meetings::{Meeting, Side};

// Among these meetings, how many the group or the station of one has.
pub(crate) fn held(meetings: &[Meeting], side: Side, one: Meeting) -> usize {
    meetings
        .iter()
        .filter(|other| other.party(side) == one.party(side))
        .count()
}

// The lowest number of rounds that has a place for each of so many meetings. It is searched, since the library divides. With
// a room there always is one: a list has 4,000 meetings at most.
fn for_rooms(meetings: usize, rooms: u16) -> u16 {
    (0..u16::MAX)
        .find(|rounds| usize::from(*rounds).saturating_mul(usize::from(rooms)) >= meetings)
        .unwrap_or(u16::MAX)
}

// As many rounds as the busiest has meetings, and as the rooms ask for.
pub(crate) fn number_of_rounds(meetings: &[Meeting], rooms: u16) -> u16 {
    let busiest = meetings
        .iter()
        .map(|one| held(meetings, Side::Groups, *one).max(held(meetings, Side::Stations, *one)))
        .max()
        .unwrap_or(0);
    for_rooms(meetings.len(), rooms).max(u16::try_from(busiest).unwrap_or(u16::MAX))
}
