// The board before any meeting has a round.
ghost use Rattle.std.specs.Prelude.{◌≡◌, ◌*◌, ◌≤◌, List, length, replicate};
ghost use Rattle.meetings.specs.declared.numbers.Meeting.{Meeting};
ghost use Rattle.fewest.specs.Plans.{none};
ghost use Rattle.chains.specs.Starting.{Emptied, cleared};
ghost use Rattle.chains.specs.Shapes.{Sized};

use crate::board::NONE;
use crate::shapes::Shape;

// Clears the rows in use, and no more. What is written are entries of a lent slice.
fn clear_rows(rows: &mut [u16], parties: u16, width: u16)
    requires room { parties * width ≤ length rows.old }
    ensures { rows.new ≡ cleared parties width rows.old }
{
    rows[0..usize::from(parties) * usize::from(width)].fill(NONE);
}

// Empties three slices, as they are lent and whatever they held. For each list of meetings that they are sized for, they are a
// board then on which no meeting has a round.
pub fn empty(shape: Shape, rounds: &mut [u16], group_rows: &mut [u16], station_rows: &mut [u16])
    requires group_room { shape.groups * shape.group_width ≤ length group_rows.old }
    requires station_room { shape.stations * shape.station_width ≤ length station_rows.old }
    ensures rounds { rounds.new ≡ replicate (length rounds.old) none }
    ensures group_rows { group_rows.new ≡ cleared shape.groups shape.group_width group_rows.old }
    ensures station_rows { station_rows.new ≡ cleared shape.stations shape.station_width station_rows.old }
    ensures board { (ms : List Meeting) → Sized ms shape rounds.old group_rows.old station_rows.old → Emptied ms shape rounds.new group_rows.old group_rows.new station_rows.old station_rows.new }
{
    rounds.fill(NONE);
    clear_rows(group_rows, shape.groups, shape.group_width);
    clear_rows(station_rows, shape.stations, shape.station_width);
}
