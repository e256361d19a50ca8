// Putting in one meeting. The board, the number of rounds and what was found stay three arguments: each is the caller's, who has
// it for other things in between.
ghost use Rattle.std.specs.Prelude.{◌≡◌, ℕ, ◌+◌, ◌<◌, ◌≤◌, length, slice_set};
ghost use Rattle.meetings.specs.declared.numbers.Side.TheVariants.{Groups, Stations};
ghost use Rattle.fewest.specs.Plans.{none};
ghost use Rattle.chains.specs.Boards.{meetings_on, rounds_on};
ghost use Rattle.chains.specs.Finding.{Finds};
ghost use Rattle.chains.specs.Partial.{Vacant, party_of, round_of};
ghost use Rattle.chains.specs.Rows.{WithinRows};
ghost use Rattle.placing.specs.OnBoard.{Opened, OpensOn, PutOn, ReadyOn};
ghost use Rattle.placing.specs.Putting.{chain_for, placed, put, put_by_chain};
ghost use Rattle.placing.specs.Statements.{OneMoreIn, PutIn};
ghost use Rattle.placing.specs.Steps.{chained, fuller_of};

use crate::free::{common_free, own_free};
use chains::{Board, Found, TwoRounds};
use meetings::{MeetingId, Round, Side};

// The looks that putting in one meeting took, and the round that has one meeting more than before. A chain of even length leaves
// both sizes as they were, and the meeting is one more in the first round; one of odd length puts one more into the second, and
// the meeting makes up for it in the first.
#[derive(Clone, Copy, PartialEq, Eq, Debug)]
pub struct Put {
    pub looks: u64,
    pub fuller: Round,
}

// The round that has one meeting more after a chain of so many meetings.
fn fuller_of(rounds: TwoRounds, length: u64) -> Round
    ensures { result.0 ≡ fuller_of rounds.a.0 rounds.b.0 length }
{
    if length % 2 == 0 { rounds.a } else { rounds.b }
}

// Follows the chain from the station of a meeting, and exchanges the two rounds on it: then its group and its station are both
// free in the first. What was found then is the chain; answers its length.
fn open_round(
    board: &mut Board<'_>,
    rounds: TwoRounds,
    meeting: MeetingId,
    found: &mut Found,
) -> u64
    requires { OpensOn board.old found.old meeting.0 rounds.a.0 rounds.b.0 }
    ensures { Opened board.old board.new found.old found.new meeting.0 rounds.a.0 rounds.b.0 result }
{
    let station = board.party_of(meeting, Side::Stations);
    let first = board.met(Side::Stations, station, rounds.a).unwrap();
    board.find_chain(rounds, first, found);
    board.exchange(rounds, found.list());
    // `as`, since a `usize` has no `From` to a `u64`
    found.list().len() as u64
}

// Puts a meeting in by a chain, which opens the first of the two rounds for it. Not inlined: few meetings need it, and all would pay
// for the registers that it saves.
#[tactic(auto, using(crate::proofs::Fuller::fuller_on))]
#[inline(never)]
fn put_by_chain(
    board: &mut Board<'_>,
    rounds: TwoRounds,
    meeting: MeetingId,
    found: &mut Found,
) -> Put
    requires { OpensOn board.old found.old meeting.0 rounds.a.0 rounds.b.0 }
    ensures rule { PutOn board.old board.new (put_by_chain (meetings_on board.old) (rounds_on board.old) meeting.0 rounds.a.0 rounds.b.0) result.looks }
    ensures chain { Finds found.old found.new (chain_for (meetings_on board.old) (rounds_on board.old) meeting.0 rounds.a.0 rounds.b.0) }
    ensures fuller { OneMoreIn (rounds_on board.old) (rounds_on board.new) result.fuller.0 }
    ensures below { (r : ℕ) → rounds.a.0 < r → rounds.b.0 < r → result.fuller.0 < r }
    ensures few { result.looks ≤ 1 + none }
{
    let length = open_round(board, rounds, meeting, found);
    board.place(meeting, rounds.a);
    Put {
        looks: 1 + length,
        fuller: fuller_of(rounds, length),
    }
}

// Puts a meeting into a round in which its group and its station are free.
#[tactic(auto, using(crate::proofs::Fuller::one_more_set))]
fn put_into(board: &mut Board<'_>, meeting: MeetingId, round: Round) -> Put
    requires here { meeting.0 < length (meetings_on board.old) }
    requires out { round_of (rounds_on board.old) meeting.0 ≡ none }
    requires within { WithinRows board.old.shape round.0 }
    requires group_free { Vacant (meetings_on board.old) (rounds_on board.old) Groups (party_of (meetings_on board.old) Groups meeting.0) round.0 }
    requires station_free { Vacant (meetings_on board.old) (rounds_on board.old) Stations (party_of (meetings_on board.old) Stations meeting.0) round.0 }
    ensures rule { PutOn board.old board.new (placed (slice_set (rounds_on board.old) meeting.0 round.0) 1) result.looks }
    ensures fuller { OneMoreIn (rounds_on board.old) (rounds_on board.new) result.fuller.0 }
    ensures there { result.fuller.0 ≡ round.0 }
{
    board.place(meeting, round);
    Put {
        looks: 1,
        fuller: round,
    }
}

// Puts one meeting in: into the lowest round in which its group and its station are free, else by a chain, which is what was found
// then. The looks are one for the meeting, and one for each meeting of the chain. The meeting has a round then, all others have
// one still, and with n groups and k stations the looks are 1 + n + k at most.
pub fn put_in(board: &mut Board<'_>, rounds: u16, meeting: MeetingId, found: &mut Found) -> Put
    requires { ReadyOn board.old found.old rounds meeting.0 }
    ensures rule { PutOn board.old board.new (put rounds (meetings_on board.old) (rounds_on board.old) meeting.0) result.looks }
    ensures chain { Finds found.old found.new (chained rounds (meetings_on board.old) (rounds_on board.old) meeting.0) }
    ensures fuller { OneMoreIn (rounds_on board.old) (rounds_on board.new) result.fuller.0 }
    ensures below { result.fuller.0 < rounds }
    ensures placed { PutIn board.old.shape.groups board.old.shape.stations rounds (meetings_on board.old) (rounds_on board.old) meeting.0 (placed (rounds_on board.new) result.looks) }
    ensures few { result.looks ≤ 1 + none }
{
    if let Some(common) = common_free(board, rounds, meeting) {
        return put_into(board, meeting, common);
    }
    // each of the two has a free round
    let a = own_free(board, rounds, Side::Groups, meeting).unwrap();
    let b = own_free(board, rounds, Side::Stations, meeting).unwrap();
    put_by_chain(board, TwoRounds { a, b }, meeting, found)
}
