// Reading the board.
ghost use Rattle.std.specs.Prelude.{◌≡◌, ◌+◌, ◌*◌, ◌<◌, ◌≤◌, length, take, drop};
ghost use Rattle.fewest.specs.Plans.{none};
ghost use Rattle.chains.specs.Boards.{meetings_on, rounds_on, rows_of};
ghost use Rattle.chains.specs.Partial.{Unless, meeting_of, party_of, round_of};
ghost use Rattle.chains.specs.Rows.{RowOf, parties_of, width_of};

use crate::board::{Board, NONE};
use meetings::{MeetingId, Round, Side};

// What an entry of a lent slice says.
fn unless_none(entry: u16) -> Option<u16>
    ensures { Unless none (λ x. x) result entry }
{
    if entry == NONE { None } else { Some(entry) }
}

// The round of a meeting in a slice of rounds, if it has one.
pub fn round_in(rounds: &[u16], meeting: MeetingId) -> Option<Round>
    requires here { meeting.0 < length rounds.now }
    ensures { Unless none (λ c. c.0) result (round_of rounds.now meeting.0) }
{
    unless_none(rounds[usize::from(meeting.0)]).map(Round)
}

impl Board<'_> {
    // The group or the station of a meeting.
    pub fn party_of(&self, meeting: MeetingId, side: Side) -> u16
        requires here { meeting.0 < length (meetings_on self.now) }
        ensures { result ≡ party_of (meetings_on self.now) side meeting.0 }
    {
        self.meetings[usize::from(meeting.0)].party(side)
    }

    // The round of a meeting, if it has one.
    pub fn round_of(&self, meeting: MeetingId) -> Option<Round>
        requires here { meeting.0 < length (rounds_on self.now) }
        ensures { Unless none (λ c. c.0) result (round_of (rounds_on self.now) meeting.0) }
    {
        round_in(self.rounds, meeting)
    }

    // The meeting that a group or a station has in a round, if it has one there.
    pub fn met(&self, side: Side, party: u16, round: Round) -> Option<MeetingId>
        requires party { party < parties_of side self.now.shape }
        requires within { round.0 < width_of side self.now.shape }
        ensures { Unless none (λ i. i.0) result (meeting_of (meetings_on self.now) (rounds_on self.now) side party round.0) }
    {
        let row = self.row(side, party);
        unless_none(row[usize::from(round.0)]).map(MeetingId)
    }

    // The row of a group or a station: the meeting that it has in each round, `NONE` where it has none.
    #[tactic(auto, using(crate::proofs::RowsRead::row_of_board))]
    pub fn row(&self, side: Side, party: u16) -> &[u16]
        requires room { party * width_of side self.now.shape + width_of side self.now.shape ≤ length (rows_of side self.now) }
        ensures held { result.now ≡ take (width_of side self.now.shape) (drop (party * width_of side self.now.shape) (rows_of side self.now)) }
        ensures long { length result.now ≡ width_of side self.now.shape }
        ensures of_board { party < parties_of side self.now.shape → RowOf (meetings_on self.now) (rounds_on self.now) side party result.now }
    {
        match side {
            Side::Groups => row_in(self.group_rows, self.shape.group_width, party),
            Side::Stations => row_in(self.station_rows, self.shape.station_width, party),
        }
    }
}

// The row of a party in the rows of its side. Rows and width are not one value: a row is a part of one lent slice, and a struct
// of the two would have to be made for each call.
pub fn row_in(rows: &[u16], width: u16, party: u16) -> &[u16]
    requires room { party * width + width ≤ length rows.now }
    ensures held { result.now ≡ take width (drop (party * width) rows.now) }
    ensures long { length result.now ≡ width }
{
    let start = usize::from(party) * usize::from(width);
    &rows[start..start + usize::from(width)]
}
