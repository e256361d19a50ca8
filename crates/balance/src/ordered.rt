// The meetings of two rounds in the order of their numbers. They are read off the rows of the groups, so not all meetings are
// gone over.
ghost use Rattle.std.specs.Prelude.{◌≡◌, ◌+◌, ◌<◌, ◌≤◌, ◌++◌, length, vec_capacity};
ghost use Rattle.std.specs.List.Sorted.{IsPermutation, IsSorted};
ghost use Rattle.std.specs.Ordering.{nat_cmp};
ghost use Rattle.meetings.specs.declared.numbers.Side.TheVariants.{Groups};
ghost use Rattle.chains.specs.Boards.{meetings_on, rounds_on, two_on};
ghost use Rattle.chains.specs.Chains.{Sound};
ghost use Rattle.chains.specs.Partial.{meeting_of};
ghost use Rattle.chains.specs.Rows.{WithinRows, parties_of, width_of};
ghost use Rattle.balance.specs.Ordered.{InOrder, if_any};

use chains::{Board, TwoRounds};
use meetings::{Group, Round, Side};

// Adds the meeting that a group has in a round, if it has one there.
fn add_met(board: &Board<'_>, group: Group, round: Round, ordered: &mut Vec<u16>)
    requires group { group.0 < parties_of Groups board.now.shape }
    requires within { round.0 < width_of Groups board.now.shape }
    requires room { length ordered.old.items < vec_capacity ordered.old }
    ensures added { ordered.new.items ≡ ordered.old.items ++ if_any (meeting_of (meetings_on board.now) (rounds_on board.now) Groups group.0 round.0) }
    ensures room { vec_capacity ordered.new ≡ vec_capacity ordered.old }
{
    if let Some(meeting) = board.met(Side::Groups, group.0, round) {
        ordered.push_reserved(meeting.0);
    }
}

// Puts meetings in the order of their numbers.
fn sort(meetings: &mut Vec<u16>)
    ensures permutation { IsPermutation meetings.old.items meetings.new.items }
    ensures sorted { IsSorted nat_cmp meetings.new.items }
    ensures room { vec_capacity meetings.new ≡ vec_capacity meetings.old }
{
    meetings.sort_unstable();
}

// The meetings of two rounds, by rising number. What was in the list before is forgotten.
pub(crate) fn order_two(board: &Board<'_>, rounds: TwoRounds, ordered: &mut Vec<u16>)
    requires a { WithinRows board.now.shape rounds.a.0 }
    requires b { WithinRows board.now.shape rounds.b.0 }
    requires sound { Sound (two_on board.now rounds) }
    requires room { parties_of Groups board.now.shape + parties_of Groups board.now.shape ≤ vec_capacity ordered.old }
    ensures order { InOrder (two_on board.now rounds) ordered.new.items }
    ensures room { vec_capacity ordered.new ≡ vec_capacity ordered.old }
{
    ordered.clear();
    for group in 0..board.shape.parties(Side::Groups) {
        add_met(board, Group(group), rounds.a, ordered);
        add_met(board, Group(group), rounds.b, ordered);
    }
    sort(ordered);
}
