// Taking meetings out of rounds that are no more.
ghost use Rattle.std.specs.Prelude.{◌≡◌, ◌<◌, ◌≤◌, length, vec_capacity};
ghost use Rattle.meetings.specs.declared.numbers.Side.TheVariants.{Groups};
ghost use Rattle.chains.specs.Boards.{meetings_on};
ghost use Rattle.chains.specs.Rows.{parties_of, width_of};
ghost use Rattle.changes.specs.OnBoard.{AreOut, TakesOut, goes, goes_of};

use chains::Board;
use meetings::{Group, Round, Side};

// Takes the meetings of a group out of the rounds from the first of these to the second, which is not one of them, and adds them
// to a list.
fn take_out_of_row(board: &mut Board<'_>, group: Group, first: u16, end: u16, out: &mut Vec<u16>)
    requires group { group.0 < parties_of Groups board.old.shape }
    requires order { first ≤ end }
    requires within { end ≤ width_of Groups board.old.shape }
    requires out { AreOut board.old out.old.items }
    requires room { length (meetings_on board.old) ≤ vec_capacity out.old }
    ensures taken { TakesOut board.old board.new out.old.items out.new.items (goes_of board.old first end group.0) }
    ensures room { vec_capacity out.new ≡ vec_capacity out.old }
{
    for round in first..end {
        if let Some(meeting) = board.met(Side::Groups, group.0, Round(round)) {
            board.take_out(meeting);
            out.push_reserved(meeting.0);
        }
    }
}

// Takes all meetings out of the rounds from the first of these to the second, which is not one of them, and adds them to a list.
// They are read off the rows of the groups, so not all meetings are gone over.
pub(crate) fn take_out(board: &mut Board<'_>, first: u16, end: u16, out: &mut Vec<u16>)
    requires order { first ≤ end }
    requires within { end ≤ width_of Groups board.old.shape }
    requires out { AreOut board.old out.old.items }
    requires room { length (meetings_on board.old) ≤ vec_capacity out.old }
    ensures taken { TakesOut board.old board.new out.old.items out.new.items (goes board.old first end) }
    ensures room { vec_capacity out.new ≡ vec_capacity out.old }
{
    for group in 0..board.shape.parties(Side::Groups) {
        take_out_of_row(board, Group(group), first, end, out);
    }
}
