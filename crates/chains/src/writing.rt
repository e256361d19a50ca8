// Writing the board: a meeting is placed in a round, or taken out of it.
ghost use Rattle.std.specs.Prelude.{◌≡◌, ◌<◌, length, slice_set};
ghost use Rattle.meetings.specs.declared.numbers.Side.TheVariants.{Groups, Stations};
ghost use Rattle.fewest.specs.Plans.{none};
ghost use Rattle.chains.specs.Boards.{Becomes, StillHolds, meetings_on, rounds_on};
ghost use Rattle.chains.specs.Partial.{Vacant, party_of, round_of};
ghost use Rattle.chains.specs.Rows.{WithinRows};

use crate::board::{Board, NONE};
use crate::rows::write_entry;
use meetings::{MeetingId, Round};

impl Board<'_> {
    // Writes which round a meeting has, and one entry for a round in the row of its group and in that of its station. What is
    // written are entries of the lent slices, so none is a number here.
    fn write(&mut self, meeting: MeetingId, its_round: u16, round: Round, entry: u16)
        requires here { meeting.0 < length (meetings_on self.old) }
        requires within { WithinRows self.old.shape round.0 }
        requires still { StillHolds self.old meeting.0 its_round round.0 entry }
        ensures { Becomes self.old self.new (slice_set (rounds_on self.old) meeting.0 its_round) }
    {
        // `as`, since after a `From` it is not proved which entry is written
        let at = meeting.0 as usize;
        let parties = self.meetings[at];
        // borrowed together, since the board is one again only when all three are written
        let rounds = &mut *self.rounds;
        let group_rows = &mut *self.group_rows;
        let station_rows = &mut *self.station_rows;
        rounds[at] = its_round;
        write_entry(
            group_rows,
            self.shape.group_width,
            parties.group.0,
            round.0,
            entry,
        );
        write_entry(
            station_rows,
            self.shape.station_width,
            parties.station.0,
            round.0,
            entry,
        );
    }

    // Gives a meeting without a round one in which its group and its station are free.
    pub fn place(&mut self, meeting: MeetingId, round: Round)
        requires here { meeting.0 < length (meetings_on self.old) }
        requires out { round_of (rounds_on self.old) meeting.0 ≡ none }
        requires within { WithinRows self.old.shape round.0 }
        requires group_free { Vacant (meetings_on self.old) (rounds_on self.old) Groups (party_of (meetings_on self.old) Groups meeting.0) round.0 }
        requires station_free { Vacant (meetings_on self.old) (rounds_on self.old) Stations (party_of (meetings_on self.old) Stations meeting.0) round.0 }
        ensures { Becomes self.old self.new (slice_set (rounds_on self.old) meeting.0 round.0) }
    {
        self.write(meeting, round.0, round, meeting.0);
    }

    // Takes a meeting out of its round, if it has one.
    pub fn take_out(&mut self, meeting: MeetingId)
        requires here { meeting.0 < length (meetings_on self.old) }
        ensures { Becomes self.old self.new (slice_set (rounds_on self.old) meeting.0 none) }
    {
        if let Some(round) = self.round_of(meeting) {
            self.write(meeting, NONE, round, NONE);
        }
    }
}
