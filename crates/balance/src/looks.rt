// Looking for a part with one more meeting in one round than in another.
ghost use Rattle.std.specs.Prelude.{◌≡◌, ℕ, ◌<◌, ◌≤◌, true, false, ◌++◌, length};
ghost use Rattle.chains.specs.Boards.{InTwo, meetings_on, rounds_on, two_on};
ghost use Rattle.chains.specs.Chains.{holds, part};
ghost use Rattle.chains.specs.Exchanges.{among};
ghost use Rattle.chains.specs.Finding.{Finds, Unused, among_all, found_in};
ghost use Rattle.chains.specs.Rows.{WithinRows};
ghost use Rattle.balance.specs.Looking.{look, one_more};
ghost use Rattle.balance.specs.OnBoard.{Judged, Looks};
ghost use Rattle.balance.specs.Ordered.{InOrder};

use chains::{Board, Found, TwoRounds};
use meetings::{MeetingId, Round};

// How many of these meetings are in a round.
fn count_in(board: &Board<'_>, round: Round, members: &[u16]) -> usize
    requires within { WithinRows board.now.shape round.0 }
    requires exist { (i : ℕ) → holds members.now i ≡ true → i < length (meetings_on board.now) }
    ensures { result ≡ among members.now round.0 (rounds_on board.now) }
{
    let mut many = 0;
    for member in members {
        if board.round_of(MeetingId(*member)) == Some(round) {
            many += 1;
        }
    }
    many
}

// Whether just one more of these meetings is in the first round than in the second.
fn has_one_more(board: &Board<'_>, rounds: TwoRounds, members: &[u16]) -> bool
    requires a { WithinRows board.now.shape rounds.a.0 }
    requires b { WithinRows board.now.shape rounds.b.0 }
    requires exist { (i : ℕ) → holds members.now i ≡ true → i < length (meetings_on board.now) }
    ensures { result ≡ one_more (two_on board.now rounds) members.now }
{
    count_in(board, rounds.a, members) == count_in(board, rounds.b, members) + 1
}

// Looks at the part of a meeting that is in no part looked at before. Answers where it begins in what was found, if it has one
// more meeting in the first round.
fn look_at(
    board: &Board<'_>,
    rounds: TwoRounds,
    meeting: MeetingId,
    found: &mut Found,
) -> Option<usize>
    requires in_two { InTwo board.now rounds meeting.0 }
    requires enough { length (meetings_on board.now) ≤ among_all found.old }
    requires new { holds (found_in found.old) meeting.0 ≡ false }
    ensures found { Finds found.old found.new (found_in found.old ++ part (two_on board.now rounds) (holds (found_in found.old)) meeting.0) }
    ensures start { Judged (two_on board.now rounds) (found_in found.old) meeting.0 result }
{
    let start = found.list().len();
    board.find_part(rounds, meeting, found);
    if has_one_more(board, rounds, &found.list()[start..]) {
        Some(start)
    } else {
        None
    }
}

// Looks at the parts of two rounds in the order of their lowest meetings, up to the first that has one more meeting in the first
// round. All that were looked at are found, one after the other; answers where the last begins, which is the one that is taken.
pub(crate) fn look(
    board: &Board<'_>,
    rounds: TwoRounds,
    ordered: &[u16],
    found: &mut Found,
) -> usize
    requires a { WithinRows board.now.shape rounds.a.0 }
    requires b { WithinRows board.now.shape rounds.b.0 }
    requires order { InOrder (two_on board.now rounds) ordered.now }
    requires unused { Unused found.old (length (meetings_on board.now)) }
    ensures { Looks found.old found.new (look (two_on board.now rounds)) result }
{
    for meeting in ordered {
        let meeting = MeetingId(*meeting);
        if !found.has(meeting) {
            if let Some(start) = look_at(board, rounds, meeting, found) {
                return start;
            }
        }
    }
    found.list().len()
}
