// The board: which round each meeting has, and which meeting each party has in each round.
ghost use Rattle.chains.specs.Rows.{Holds};

use crate::shapes::Shape;
use meetings::Meeting;

// The round of a meeting that has none, and the meeting of a party that has none, in a lent slice: its entries are `u16`.
pub const NONE: u16 = 65535;

// The meetings, and three lent slices in which their rounds are kept: the round of each meeting, a row of rounds for each group,
// and one for each station. Each entry of a row is the one meeting that the party has in the round. That a meeting, a round or
// what was found is of this board is asked at each call: it is a fact of two values, and a value that holds it would have to be
// made for each call.
#[derive(Drop)]
pub struct Board<'a> {
    pub meetings: &'a [Meeting],
    pub shape: Shape,
    pub rounds: &'a mut [u16],
    pub group_rows: &'a mut [u16],
    pub station_rows: &'a mut [u16],
    pub ghost held: { Holds meetings.now shape rounds.now group_rows.now station_rows.now },
}
