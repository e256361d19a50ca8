// The shape of a board: how many rows its slices have, and how long each is.
ghost use Rattle.std.specs.Prelude.{◌≡◌, ◌≤◌};
ghost use Rattle.meetings.specs.Held.{contents};
ghost use Rattle.meetings.specs.Refusals.{outcome};
ghost use Rattle.chains.specs.Rows.{parties_of};
ghost use Rattle.chains.specs.Shapes.{lent_shape, lent_width};

use crate::board::NONE;
use meetings::{Lent, MeetingList, Refusal, Side};

// How many groups and stations there are, and how long the row of each is. By name, and not a pair for each side: nearly every
// use names the side.
#[derive(Clone, Copy)]
pub struct Shape {
    pub(crate) groups: u16,
    pub(crate) group_width: u16,
    pub(crate) stations: u16,
    pub(crate) station_width: u16,
}

// How long each row is where a slice of this length has one for each party; a row that is shorter than so many rounds is refused.
fn row_width(long: usize, parties: u16, rounds: u16, which: Lent) -> Result<u16, Refusal>
    requires some { 1 ≤ parties }
    ensures { outcome (λ w. w) result ≡ lent_width parties long rounds which }
{
    // a row ends before round 65,535, since that number is none in a lent slice; `as`, since it is proved to fit
    let width = (long / usize::from(parties)).min(usize::from(NONE)) as u16;
    if width < rounds {
        return Err(Refusal::ShortSlice(which));
    }
    Ok(width)
}

impl Shape {
    // How many groups or stations there are.
    pub fn parties(self, side: Side) -> u16
        ensures { result ≡ parties_of side self }
    {
        match side {
            Side::Groups => self.groups,
            Side::Stations => self.stations,
        }
    }

    // The shape of a board over lent slices of these lengths, for so many rounds: three, as a caller lends them. A slice that is
    // too short is refused.
    pub fn of_lent(
        list: &MeetingList,
        rounds: u16,
        long_rounds: usize,
        long_groups: usize,
        long_stations: usize,
    ) -> Result<Shape, Refusal>
        ensures { outcome (λ z. z) result ≡ lent_shape (contents list.now) rounds long_rounds long_groups long_stations }
    {
        if long_rounds < list.meetings().len() {
            return Err(Refusal::ShortSlice(Lent::Rounds));
        }
        Ok(Shape {
            groups: list.groups(),
            group_width: row_width(long_groups, list.groups(), rounds, Lent::GroupRows)?,
            stations: list.stations(),
            station_width: row_width(long_stations, list.stations(), rounds, Lent::StationRows)?,
        })
    }
}
