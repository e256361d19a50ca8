// Making one change on a board.
ghost use Rattle.std.specs.Prelude.{◌≡◌, ◌<◌, ◌≤◌, length, slice_set, vec_capacity};
ghost use Rattle.meetings.specs.declared.numbers.Side.TheVariants.{Groups};
ghost use Rattle.fewest.specs.Plans.{none};
ghost use Rattle.chains.specs.Boards.{Becomes, meetings_on, rounds_on};
ghost use Rattle.chains.specs.Partial.{Partial, round_of};
ghost use Rattle.chains.specs.Rows.{width_of};
ghost use Rattle.balance.specs.Sizes.{sizes_of};
ghost use Rattle.changes.specs.Days.{Day};
ghost use Rattle.changes.specs.Keeping.{Beside};
ghost use Rattle.changes.specs.MakingOn.{AfterChange, BeforeChange};
ghost use Rattle.changes.specs.OnBoard.{AreOut, CanNote, Notes, TakesRest};

use crate::change::Change;
use crate::changed::Changed;
use crate::kept::Kept;
use crate::making_again::make_again;
use crate::moving::moved_on;
use crate::sizes::{clear_from, leave_round};
use crate::taking::take_out;
use chains::{Board, NONE};
use meetings::MeetingId;

// A dropped meeting leaves its round, and has none from before.
fn drop_meeting(board: &mut Board<'_>, meeting: MeetingId, sizes: &mut [u16], before: &mut [u16])
    requires here { meeting.0 < length (meetings_on board.old) }
    requires placed { round_of (rounds_on board.old) meeting.0 < length sizes.old }
    requires few { length sizes.old ≤ none }
    requires counted { sizes.old ≡ sizes_of (length sizes.old) (rounds_on board.old) }
    requires long { length (meetings_on board.old) ≤ length before.old }
    ensures board { Becomes board.old board.new (slice_set (rounds_on board.old) meeting.0 none) }
    ensures counted { sizes.new ≡ sizes_of (length sizes.old) (slice_set (rounds_on board.old) meeting.0 none) }
    ensures before { before.new ≡ slice_set before.old meeting.0 none }
{
    leave_round(board, meeting, sizes);
    before[meeting.0 as usize] = NONE;
}

// Notes a change: a meeting that is added waits, and one that is dropped leaves its round.
fn note(
    board: &mut Board<'_>,
    change: Change,
    sizes: &mut [u16],
    before: &mut [u16],
    waiting: &mut Vec<u16>,
)
    requires can { CanNote board.old (length sizes.old) change }
    requires few { length sizes.old ≤ none }
    requires counted { sizes.old ≡ sizes_of (length sizes.old) (rounds_on board.old) }
    requires long { length (meetings_on board.old) ≤ length before.old }
    requires room { length (meetings_on board.old) ≤ vec_capacity waiting.old }
    ensures noted { Notes board.old board.new change sizes.old sizes.new before.old before.new waiting.new.items }
    ensures room { vec_capacity waiting.new ≡ vec_capacity waiting.old }
{
    waiting.clear();
    match change {
        // `as`, since it is proved to fit
        Change::Add(_) => waiting.push_reserved((board.meetings.len() - 1) as u16),
        Change::Drop(meeting) => drop_meeting(board, meeting, sizes, before),
        Change::GiveRoomUp | Change::GetRoom => {}
    }
}

// Takes the meetings out of the rounds that are no more, where there were more of them: these wait, too. Those that wait are then in
// the order of their numbers.
fn take_out_rest(
    board: &mut Board<'_>,
    from: u16,
    to: u16,
    sizes: &mut [u16],
    waiting: &mut Vec<u16>,
)
    requires plan { Partial from (meetings_on board.old) (rounds_on board.old) }
    requires within { from ≤ width_of Groups board.old.shape }
    requires rounds { from ≤ length sizes.old }
    requires few { length sizes.old ≤ none }
    requires counted { sizes.old ≡ sizes_of (length sizes.old) (rounds_on board.old) }
    requires out { AreOut board.old waiting.old.items }
    requires room { length (meetings_on board.old) ≤ vec_capacity waiting.old }
    ensures taken { TakesRest board.old board.new from to sizes.old sizes.new waiting.old.items waiting.new.items }
    ensures room { vec_capacity waiting.new ≡ vec_capacity waiting.old }
{
    if to < from {
        take_out(board, to, from, waiting);
        clear_from(sizes, to, from);
    }
    waiting.sort_unstable();
}

// A change, the number of rounds before it, and that after it.
#[derive(Clone, Copy)]
pub(crate) struct Turn {
    pub(crate) change: Change,
    pub(crate) from: u16,
    pub(crate) to: u16,
}

// Makes a change on a board. The meetings on the board are those that have a number after it.
pub(crate) fn make(board: &mut Board<'_>, turn: Turn, kept: &mut Kept) -> Changed
    requires before { (d : Day) × BeforeChange d turn.change (meetings_on board.old) board.old.shape (rounds_on board.old) turn.from turn.to }
    requires beside { Beside board.old.shape (rounds_on board.old) kept.old (length kept.old.before.items) (length kept.old.sizes.items) }
    requires long { length (meetings_on board.old) ≤ length kept.old.before.items }
    requires from { turn.from ≤ length kept.old.sizes.items }
    requires to { turn.to ≤ length kept.old.sizes.items }
    requires few { length kept.old.sizes.items ≤ none }
    ensures board { Becomes board.old board.new (rounds_on board.new) }
    ensures made { (d : Day) → BeforeChange d turn.change (meetings_on board.old) board.old.shape (rounds_on board.old) turn.from turn.to → AfterChange d turn.change (rounds_on board.new) result }
    ensures beside { Beside board.new.shape (rounds_on board.new) kept.new (length kept.old.before.items) (length kept.old.sizes.items) }
{
    let Turn { change, from, to } = turn;
    note(
        board,
        change,
        &mut kept.sizes,
        &mut kept.before,
        &mut kept.waiting,
    );
    take_out_rest(board, from, to, &mut kept.sizes, &mut kept.waiting);
    let looks = make_again(
        board,
        to,
        &kept.waiting,
        &mut kept.sizes,
        &mut kept.ordered,
        &mut kept.found,
        &mut kept.touched,
    );
    Changed {
        rounds: to,
        looks,
        moved: moved_on(board, &mut kept.before, &mut kept.touched),
    }
}
