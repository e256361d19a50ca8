// Entering meetings in the rows of a side.
ghost use Rattle.std.specs.Prelude.{◌≡◌, ℕ, ◌+◌, ◌*◌, ◌<◌, Some, length, slice_set, ◌≢◌};
ghost use Rattle.fewest.specs.Plans.{none};
ghost use Rattle.chains.specs.Partial.{round_of};
ghost use Rattle.sheets.specs.Entered.{Entered};

use meetings::{Meeting, Side};
use plans::is_dropped;

// Writes the entry of a party in a round, in rows of so many rounds.
fn write_entry(rows: &mut [Option<u16>], rounds: u16, party: u16, round: u16, partner: u16)
    requires { party * rounds + round < length rows.old }
    ensures { rows.new ≡ slice_set rows.old (party * rounds + round) (Some partner) }
{
    rows[party as usize * rounds as usize + round as usize] = Some(partner);
}

// Enters a meeting in the row of its party, where it has a round.
#[tactic(auto, using(crate::proofs::EnteredTurns::entered_passed))]
fn enter(
    meetings: &[Meeting],
    of_meetings: &[u16],
    at: usize,
    side: Side,
    rounds: u16,
    rows: &mut [Option<u16>],
)
    requires here { at < length meetings.now }
    requires each { length of_meetings.now ≡ length meetings.now }
    requires below { (round_of of_meetings.now at ≢ none) → round_of of_meetings.now at < rounds }
    requires entered { Entered meetings.now of_meetings.now side rounds at rows.old }
    ensures entered { Entered meetings.now of_meetings.now side rounds (at + 1) rows.new }
    ensures long { length rows.new ≡ length rows.old }
{
    let round = of_meetings[at];
    if !is_dropped(round) {
        let meeting = meetings[at];
        write_entry(
            rows,
            rounds,
            meeting.party(side),
            round,
            meeting.party(side.other()),
        );
    }
}

// Enters all meetings in the rows of a side.
pub(crate) fn enter_all(
    meetings: &[Meeting],
    of_meetings: &[u16],
    side: Side,
    rounds: u16,
    rows: &mut [Option<u16>],
)
    requires each { length of_meetings.now ≡ length meetings.now }
    requires below { (i : ℕ) → i < length meetings.now → (round_of of_meetings.now i ≢ none) → round_of of_meetings.now i < rounds }
    requires entered { Entered meetings.now of_meetings.now side rounds 0 rows.old }
    ensures entered { Entered meetings.now of_meetings.now side rounds (length meetings.now) rows.new }
    ensures long { length rows.new ≡ length rows.old }
{
    for at in 0..meetings.len() {
        enter(meetings, of_meetings, at, side, rounds, rows);
    }
}
