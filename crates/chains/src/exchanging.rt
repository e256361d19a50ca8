// Exchanging two rounds on a set of meetings.
ghost use Rattle.std.specs.Prelude.{◌≡◌, ◌<◌, ◌↔◌, IsTrue, length, slice_set};
ghost use Rattle.chains.specs.Boards.{Becomes, meetings_on, rounds_on};
ghost use Rattle.chains.specs.Exchanges.{Exchangeable, Movable, exchanged, shifted};
ghost use Rattle.chains.specs.Given.{WithinOrNone, entry_of};
ghost use Rattle.chains.specs.Partial.{round_of};
ghost use Rattle.chains.specs.Rows.{FreeFor};

use crate::board::Board;
use crate::neighbours::TwoRounds;
use meetings::{MeetingId, Round};

impl Board<'_> {
    // Gives a meeting another round, or none: in this round nobody else has its group or its station.
    fn give(&mut self, meeting: MeetingId, round: Option<Round>)
        requires here { meeting.0 < length (meetings_on self.old) }
        requires within { WithinOrNone self.old.shape round }
        requires free { FreeFor (meetings_on self.old) self.old.shape (rounds_on self.old) meeting.0 (entry_of round) }
        ensures { Becomes self.old self.new (slice_set (rounds_on self.old) meeting.0 (entry_of round)) }
    {
        self.take_out(meeting);
        if let Some(round) = round {
            self.place(meeting, round);
        }
    }

    // Whether a meeting has this round, or none: what equality of two options says of the entries.
    fn is_in(&self, meeting: MeetingId, round: Option<Round>) -> bool
        requires here { meeting.0 < length (meetings_on self.now) }
        requires within { WithinOrNone self.now.shape round }
        ensures { IsTrue result ↔ (round_of (rounds_on self.now) meeting.0 ≡ entry_of round) }
    {
        self.round_of(meeting) == round
    }

    // Gives each member that is in one round another; either of the two may be none.
    fn shift(&mut self, members: &[u16], from: Option<Round>, to: Option<Round>)
        requires from { WithinOrNone self.old.shape from }
        requires to { WithinOrNone self.old.shape to }
        requires movable { Movable (meetings_on self.old) (rounds_on self.old) members.now (entry_of from) (entry_of to) }
        ensures { Becomes self.old self.new (shifted (entry_of from) (entry_of to) members.now (rounds_on self.old)) }
    {
        for member in members {
            let meeting = MeetingId(*member);
            if self.is_in(meeting, from) {
                self.give(meeting, to);
            }
        }
    }

    // Exchanges two rounds on a closed set of meetings of these rounds. At each moment nobody is at two meetings in a round: the
    // members in the first go out, those in the second go to the first, and those that are out go to the second.
    pub fn exchange(&mut self, rounds: TwoRounds, members: &[u16])
        requires closed { Exchangeable (meetings_on self.old) self.old.shape (rounds_on self.old) members.now rounds.a.0 rounds.b.0 }
        ensures { Becomes self.old self.new (exchanged rounds.a.0 rounds.b.0 members.now (rounds_on self.old)) }
    {
        self.shift(members, Some(rounds.a), None);
        self.shift(members, Some(rounds.b), Some(rounds.a));
        self.shift(members, None, Some(rounds.b));
    }
}
