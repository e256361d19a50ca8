// Searching rows for free rounds.
ghost use Rattle.std.specs.Prelude.{◌≡◌, ◌<◌, ◌≤◌, ◌&&◌, length, ◌==◌, slice_index, position, take};
ghost use Rattle.std.specs.List.{zip};
ghost use Rattle.fewest.specs.Plans.{none};
ghost use Rattle.chains.specs.Boards.{meetings_on, rounds_on};
ghost use Rattle.chains.specs.Lowest.{lowest};
ghost use Rattle.chains.specs.Partial.{Unless};
ghost use Rattle.chains.specs.Rows.{ManyWithin};
ghost use Rattle.placing.specs.Putting.{common_free, own_free};

use chains::{Board, NONE};
use meetings::{MeetingId, Round, Side};

// The lowest of so many rounds that is free in both rows, if there is one.
fn lowest_common_free(one: &[u16], other: &[u16], rounds: u16) -> Option<Round>
    requires one { rounds ≤ length one.now }
    requires other { rounds ≤ length other.now }
    ensures { Unless rounds (λ c. c.0) result (lowest (λ c. (slice_index one.now c == none) && slice_index other.now c == none) rounds) }
{
    // `as`, since it is proved to fit
    first_common_free(one, other, rounds).map(|round| Round(round as u16))
}

// The first place at which neither row has a meeting. Entries are compared as they lie in the lent slices.
fn first_free_pair(one: &[u16], other: &[u16]) -> Option<usize>
    ensures { result ≡ position (λ e. (e.0 == none) && e.1 == none) (zip one.now other.now) }
{
    one.iter()
        .zip(other)
        .position(|(one, other)| *one == NONE && *other == NONE)
}

// The same of so many places. Both rows are cut to them first, and not their pairs: so one counter serves for both.
// Not inlined: in a large function its loop takes more time for each entry.
#[inline(never)]
fn first_common_free(one: &[u16], other: &[u16], rounds: u16) -> Option<usize>
    requires one { rounds ≤ length one.now }
    requires other { rounds ≤ length other.now }
    ensures { result ≡ position (λ e. (e.0 == none) && e.1 == none) (take rounds (zip one.now other.now)) }
{
    let many = usize::from(rounds);
    first_free_pair(&one[..many], &other[..many])
}

// The lowest round in which the group and the station of a meeting are both free, if there is one.
pub(crate) fn common_free(board: &Board<'_>, rounds: u16, meeting: MeetingId) -> Option<Round>
    requires here { meeting.0 < length (meetings_on board.now) }
    requires within { ManyWithin board.now.shape rounds }
    ensures { Unless rounds (λ c. c.0) result (common_free rounds (meetings_on board.now) (rounds_on board.now) meeting.0) }
{
    let group_row = board.row(Side::Groups, board.party_of(meeting, Side::Groups));
    let station_row = board.row(Side::Stations, board.party_of(meeting, Side::Stations));
    lowest_common_free(group_row, station_row, rounds)
}

// The lowest round in which the group of a meeting, or its station, is free, if there is one. One search for both would take a
// list of sides, and read the rows of a list. Not inlined, since few meetings need it.
#[inline(never)]
pub(crate) fn own_free(
    board: &Board<'_>,
    rounds: u16,
    side: Side,
    meeting: MeetingId,
) -> Option<Round>
    requires here { meeting.0 < length (meetings_on board.now) }
    requires within { ManyWithin board.now.shape rounds }
    ensures { Unless rounds (λ c. c.0) result (own_free rounds (meetings_on board.now) (rounds_on board.now) meeting.0 side) }
{
    let row = board.row(side, board.party_of(meeting, side));
    lowest_common_free(row, row, rounds)
}
