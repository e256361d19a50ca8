// Neighbours in two rounds: from a meeting through its group or its station to the meeting in the other round.
ghost use Rattle.std.specs.Prelude.{◌≡◌};
ghost use Rattle.fewest.specs.Plans.{none};
ghost use Rattle.chains.specs.Boards.{InTwo, two_on};
ghost use Rattle.chains.specs.Chains.{near, swap};
ghost use Rattle.chains.specs.Partial.{Unless};

use crate::board::Board;
use meetings::{MeetingId, Round, Side};

// Two rounds that are looked at together. They are not kept with a board in one value, since between following a chain and
// exchanging on it the board is read and then written.
#[derive(Clone, Copy)]
pub struct TwoRounds {
    pub a: Round,
    pub b: Round,
}

impl TwoRounds {
    // The other of the two; any third round stays.
    fn other(self, round: Round) -> Round
        ensures { result.0 ≡ swap self.a.0 self.b.0 round.0 }
    {
        if round == self.a {
            self.b
        } else if round == self.b {
            self.a
        } else {
            round
        }
    }
}

impl Board<'_> {
    // The meeting that the group or the station of a meeting of the two rounds has in the other of them, if it has one.
    pub(crate) fn neighbour(
        &self,
        rounds: TwoRounds,
        side: Side,
        meeting: MeetingId,
    ) -> Option<MeetingId>
        requires in_two { InTwo self.now rounds meeting.0 }
        ensures { Unless none (λ i. i.0) result (near (two_on self.now rounds) side meeting.0) }
    {
        let there = rounds.other(self.round_of(meeting)?);
        self.met(side, self.party_of(meeting, side), there)
    }
}
