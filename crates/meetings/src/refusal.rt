// Why something is refused: one kind for each reason, each with a number and a place.
ghost use Rattle.std.specs.Prelude.{◌≡◌, Some};
ghost use Rattle.meetings.specs.Refusals.{number_of, place_of, refusal_text};

use crate::numbers::{MeetingId, Round, Side};
use std::fmt;

// The three numbers at the head of a list, each 1 to 120.
#[derive(Clone, Copy, PartialEq, Eq, Debug)]
pub enum Limit {
    Groups,
    Stations,
    Rooms,
}

// The three slices that a caller lends.
#[derive(Clone, Copy, PartialEq, Eq, Debug)]
pub enum Lent {
    Rounds,
    GroupRows,
    StationRows,
}

#[derive(Clone, Copy, PartialEq, Eq, Debug)]
pub enum Refusal {
    // Bytes end too early, at this length, or go on: the first too many.
    Length(usize),
    // A number at the head of the list is 0 or too large.
    OutOfLimits(Limit),
    TooManyMeetings,
    // This byte names a group or a station that does not exist.
    NoSuchParty(usize),
    // A lent slice is too short.
    ShortSlice(Lent),
    // This change, counted from 0, cannot be made.
    BadChange(usize),
    // A plan gives this meeting a round that there is not.
    NoSuchRound(MeetingId),
    // A plan has the group or the station of this meeting twice in a round; an earlier meeting is the other one.
    Clash(Side, MeetingId),
    // A plan has more meetings in this round than there are rooms.
    Crowded(Round),
    // A plan has this number of rounds, which is not the fewest.
    NotFewest(u16),
    // There is no memory.
    Memory,
}

impl Refusal {
    // The number of the reason, as programs print it. A match, since a variant that holds something has no discriminant.
    pub fn number(&self) -> u8
        ensures { result ≡ number_of self.now }
    {
        match self {
            Refusal::Length(_) => 1,
            Refusal::OutOfLimits(_) => 2,
            Refusal::TooManyMeetings => 3,
            Refusal::NoSuchParty(_) => 4,
            Refusal::ShortSlice(_) => 5,
            Refusal::BadChange(_) => 6,
            Refusal::NoSuchRound(_) => 7,
            Refusal::Clash(_, _) => 8,
            Refusal::Crowded(_) => 9,
            Refusal::NotFewest(_) => 10,
            Refusal::Memory => 11,
        }
    }

    // Where it was found: a byte, a length, a slice, a change, a meeting, a round or a number of rounds.
    pub fn place(&self) -> usize
        ensures { result ≡ place_of self.now }
    {
        match *self {
            Refusal::Length(at) => at,
            // `as` here and at the slices, since that is how a variant gives its number
            Refusal::OutOfLimits(which) => which as usize,
            Refusal::TooManyMeetings => 3,
            Refusal::NoSuchParty(at) => at,
            Refusal::ShortSlice(which) => which as usize,
            Refusal::BadChange(at) => at,
            Refusal::NoSuchRound(MeetingId(i)) => usize::from(i),
            Refusal::Clash(Side::Groups, MeetingId(i)) => usize::from(i),
            // `as`, since after a `From` it is not proved that the sum fits.
            Refusal::Clash(Side::Stations, MeetingId(i)) => i as usize + 8192,
            Refusal::Crowded(Round(c)) => usize::from(c),
            Refusal::NotFewest(rounds) => usize::from(rounds),
            Refusal::Memory => 0,
        }
    }
}

// A refusal is told in one line, by its number and its place.
impl fmt::Display for Refusal {
    ghost output = { λ e. Some (refusal_text e) };

    fn fmt<W: fmt::Write>(&self, f: &mut fmt::Formatter<W>) -> fmt::Result {
        let number = self.number();
        let place = self.place();
        write!(f, "refused {number} at {place}")
    }
}
