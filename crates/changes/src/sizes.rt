// The sizes of the rounds are kept while meetings come and go.
ghost use Rattle.std.specs.Prelude.{◌≡◌, ◌+◌, ◌-◌, ◌<◌, ◌≤◌, ◌++◌, length, take, drop, replicate, slice_index, slice_set};
ghost use Rattle.fewest.specs.Plans.{none};
ghost use Rattle.chains.specs.Boards.{Becomes, meetings_on, rounds_on};
ghost use Rattle.chains.specs.Partial.{round_of};
ghost use Rattle.balance.specs.Sizes.{sizes_of};

use chains::Board;
use meetings::{MeetingId, Round};

// One meeting more in a round.
pub(crate) fn add_one(sizes: &mut [u16], round: Round)
    requires here { round.0 < length sizes.old }
    requires few { slice_index sizes.old round.0 < none }
    ensures { sizes.new ≡ slice_set sizes.old round.0 (slice_index sizes.old round.0 + 1) }
{
    sizes[round.0 as usize] += 1;
}

// One meeting less in a round.
fn take_one(sizes: &mut [u16], round: Round)
    requires here { round.0 < length sizes.old }
    requires some { 1 ≤ slice_index sizes.old round.0 }
    ensures { sizes.new ≡ slice_set sizes.old round.0 (slice_index sizes.old round.0 - 1) }
{
    sizes[round.0 as usize] -= 1;
}

// No meetings in the rounds from the first of these to the second, which is not one of them.
pub(crate) fn clear_from(sizes: &mut [u16], first: u16, end: u16)
    requires order { first ≤ end }
    requires within { end ≤ length sizes.old }
    ensures { sizes.new ≡ take first sizes.old ++ (replicate (end - first) 0 ++ drop end sizes.old) }
{
    sizes[usize::from(first)..usize::from(end)].fill(0);
}

// A meeting leaves its round.
#[tactic(auto, using(crate::proofs::SizesKept::one_less, crate::proofs::SizesKept::is_counted))]
pub(crate) fn leave_round(board: &mut Board<'_>, meeting: MeetingId, sizes: &mut [u16])
    requires here { meeting.0 < length (meetings_on board.old) }
    requires placed { round_of (rounds_on board.old) meeting.0 < length sizes.old }
    requires few { length sizes.old ≤ none }
    requires counted { sizes.old ≡ sizes_of (length sizes.old) (rounds_on board.old) }
    ensures board { Becomes board.old board.new (slice_set (rounds_on board.old) meeting.0 none) }
    ensures counted { sizes.new ≡ sizes_of (length sizes.old) (slice_set (rounds_on board.old) meeting.0 none) }
{
    let round = board.round_of(meeting).unwrap();
    take_one(sizes, round);
    board.take_out(meeting);
}
