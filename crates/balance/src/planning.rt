// Planning a whole day.
ghost use Rattle.std.specs.Prelude.{◌≡◌, length, replicate, IfOk, MatchResult};
ghost use Rattle.meetings.specs.Bytes.{read_list};
ghost use Rattle.meetings.specs.Held.{contents};
ghost use Rattle.meetings.specs.Refusals.{Answers, then};
ghost use Rattle.fewest.specs.Plans.{none};
ghost use Rattle.chains.specs.Boards.{Becomes, meetings_on, rounds_on};
ghost use Rattle.chains.specs.Rows.{ManyWithin};
ghost use Rattle.placing.specs.Statements.{NoneBusier};
ghost use Rattle.balance.specs.Evening.{plan_all};
ghost use Rattle.balance.specs.Lent.{BoardLent, LentFor, OfBytes, PlannedLent, PlansDay, Unchanged, planned_of};
ghost use Rattle.balance.specs.Scratch.{Blank};

use crate::evening::even_out;
use crate::planned::Planned;
use crate::scratch::Scratch;
use crate::sizes::count_sizes;
use chains::{Board, Shape, empty};
use fewest::fewest_rounds;
use meetings::{Meeting, MeetingList, Refusal, read};
use placing::put_in_all;
use std::alloc::Global;

// Puts all meetings in on a board without rounds, and evens the rounds out. Answers the looks.
fn plan_on(board: &mut Board<'_>, rounds: u16, scratch: &mut Scratch) -> u64
    requires out { rounds_on board.old ≡ replicate (length (meetings_on board.old)) none }
    requires within { ManyWithin board.old.shape rounds }
    requires none_busier { NoneBusier rounds (meetings_on board.old) }
    requires blank { Blank scratch.old (meetings_on board.old) board.old.shape rounds }
    ensures board { Becomes board.old board.new (plan_all rounds (meetings_on board.old)).rounds }
    ensures looks { result ≡ (plan_all rounds (meetings_on board.old)).looks }
{
    let put = put_in_all(board, rounds, &mut scratch.found);
    count_sizes(board, &mut scratch.sizes);
    put + even_out(
        board,
        &mut scratch.sizes,
        &mut scratch.ordered,
        &mut scratch.found,
        &mut scratch.touched,
    )
}

// Plans on a board over the lent slices, which are emptied first. Answers the looks.
fn plan_lent(
    meetings: &[Meeting],
    shape: Shape,
    many: u16,
    rounds: &mut [u16],
    group_rows: &mut [u16],
    station_rows: &mut [u16],
    scratch: &mut Scratch,
) -> u64
    requires lent { LentFor meetings.now shape many rounds.old group_rows.old station_rows.old }
    requires blank { Blank scratch.old meetings.now shape many }
    ensures rounds { rounds.new ≡ (plan_all many meetings.now).rounds }
    ensures looks { result ≡ (plan_all many meetings.now).looks }
    ensures rows { BoardLent meetings.now shape rounds.new group_rows.old group_rows.new station_rows.old station_rows.new }
{
    empty(shape, rounds, group_rows, station_rows);
    // by a literal: of what a function answers it is not proved that the lent slices hold it in the end
    let mut board = Board {
        meetings,
        shape,
        rounds,
        group_rows,
        station_rows,
    };
    plan_on(&mut board, many, scratch)
}

// Plans a day by the rule. All that may be refused is looked at before anything that is lent is changed.
fn plan_by_rule(
    heap: Global,
    list: &MeetingList,
    rounds: &mut [u16],
    group_rows: &mut [u16],
    station_rows: &mut [u16],
) -> Result<Planned, Refusal>
    ensures answer { Answers (λ p. p) result (planned_of (contents list.now) (length rounds.old) (length group_rows.old) (length station_rows.old)) }
    ensures lent { MatchResult result (λ _. PlannedLent (contents list.now) rounds.old rounds.new group_rows.old group_rows.new station_rows.old station_rows.new) (λ _. Unchanged rounds.old rounds.new group_rows.old group_rows.new station_rows.old station_rows.new) }
{
    let many = fewest_rounds(heap, list)?;
    let shape = Shape::of_lent(
        list,
        many,
        rounds.len(),
        group_rows.len(),
        station_rows.len(),
    )?;
    let mut scratch = Scratch::blank(heap, list, shape, many)?;
    let meetings = list.meetings();
    let looks = plan_lent(
        meetings,
        shape,
        many,
        &mut rounds[0..meetings.len()],
        group_rows,
        station_rows,
        &mut scratch,
    );
    Ok(Planned {
        rounds: many,
        looks,
    })
}

// Plans a day: puts all meetings in, in the fewest rounds, and evens the rounds out. Three slices are lent, since no memory is
// taken for a plan: the rounds of the meetings, a row of rounds for each group, and one for each station. A slice that is too
// short is refused, and memory may be wanting; nothing lent has changed then. Else the lent rounds hold a plan, within the rooms
// and even, and no plan within the rooms has fewer rounds.
pub fn plan(
    heap: Global,
    list: &MeetingList,
    rounds: &mut [u16],
    group_rows: &mut [u16],
    station_rows: &mut [u16],
) -> Result<Planned, Refusal>
    ensures answer { Answers (λ p. p) result (planned_of (contents list.now) (length rounds.old) (length group_rows.old) (length station_rows.old)) }
    ensures lent { MatchResult result (λ _. PlannedLent (contents list.now) rounds.old rounds.new group_rows.old group_rows.new station_rows.old station_rows.new) (λ _. Unchanged rounds.old rounds.new group_rows.old group_rows.new station_rows.old station_rows.new) }
    ensures planned { IfOk result (PlansDay (contents list.now) rounds.new) }
{
    plan_by_rule(heap, list, rounds, group_rows, station_rows)
}

// Plans the day that the bytes say: a list that breaks a rule is refused first, as reading does, and then as `plan` does.
pub fn plan_bytes(
    heap: Global,
    bytes: &[u8],
    rounds: &mut [u16],
    group_rows: &mut [u16],
    station_rows: &mut [u16],
) -> Result<Planned, Refusal>
    ensures answer { Answers (λ p. p) result (then (read_list bytes.now) (λ d. planned_of d (length rounds.old) (length group_rows.old) (length station_rows.old))) }
    ensures lent { MatchResult result (λ _. OfBytes bytes.now (λ d. PlannedLent d rounds.old rounds.new group_rows.old group_rows.new station_rows.old station_rows.new)) (λ _. Unchanged rounds.old rounds.new group_rows.old group_rows.new station_rows.old station_rows.new) }
    ensures planned { IfOk result (λ p. OfBytes bytes.now (λ d. PlansDay d rounds.new p)) }
{
    let list = read(heap, bytes)?;
    plan(heap, &list, rounds, group_rows, station_rows)
}
