// Making a row of changes.
ghost use Rattle.std.specs.Prelude.{◌≡◌, ℕ, ◌+◌, ◌-◌, ◌<◌, ◌≤◌, ◌++◌, length, replicate, slice_index, take, vec_capacity};
ghost use Rattle.meetings.specs.Held.{contents};
ghost use Rattle.fewest.specs.Plans.{none};
ghost use Rattle.chains.specs.Rows.{Holds};
ghost use Rattle.balance.specs.Lent.{BoardLent};
ghost use Rattle.changes.specs.Days.{Day, first_day};
ghost use Rattle.changes.specs.Keeping.{Beside, Room};
ghost use Rattle.changes.specs.MakingOn.{AfterChange, BeforeChange};
ghost use Rattle.changes.specs.RowOn.{CanMakeFirst, CanMakeRow, added, day_before, most_rounds};
ghost use Rattle.changes.specs.Told.{last_day, told};

use crate::change::Change;
use crate::changed::Changed;
use crate::kept::Kept;
use crate::making::{Turn, make};
use crate::row::Row;
use chains::{Board, NONE, Shape};
use meetings::Meeting;

// Makes a change over lent slices that are a board.
fn make_lent(
    meetings: &[Meeting],
    shape: Shape,
    rounds: &mut [u16],
    group_rows: &mut [u16],
    station_rows: &mut [u16],
    turn: Turn,
    kept: &mut Kept,
) -> Changed
    requires before { (d : Day) × BeforeChange d turn.change meetings.now shape rounds.old turn.from turn.to }
    requires held { Holds meetings.now shape rounds.old group_rows.old station_rows.old }
    requires beside { Beside shape rounds.old kept.old (length kept.old.before.items) (length kept.old.sizes.items) }
    requires long { length meetings.now ≤ length kept.old.before.items }
    requires from { turn.from ≤ length kept.old.sizes.items }
    requires to { turn.to ≤ length kept.old.sizes.items }
    requires few { length kept.old.sizes.items ≤ none }
    ensures made { (d : Day) → BeforeChange d turn.change meetings.now shape rounds.old turn.from turn.to → AfterChange d turn.change rounds.new result }
    ensures rows { BoardLent meetings.now shape rounds.new group_rows.old group_rows.new station_rows.old station_rows.new }
    ensures beside { Beside shape rounds.new kept.new (length kept.old.before.items) (length kept.old.sizes.items) }
{
    let mut board = Board {
        meetings,
        shape,
        rounds,
        group_rows,
        station_rows,
    };
    make(&mut board, turn, kept)
}

// How many meetings have a number after a change.
fn many_after(many: usize, change: Change) -> usize
    requires { many ≤ none }
    ensures { result ≡ many + added change }
{
    match change {
        Change::Add(_) => many + 1,
        Change::Drop(_) | Change::GiveRoomUp | Change::GetRoom => many,
    }
}

// Makes the changes of a row one after the other.
fn make_each(
    row: &Row<'_>,
    shape: Shape,
    rounds: &mut [u16],
    group_rows: &mut [u16],
    station_rows: &mut [u16],
    kept: &mut Kept,
    answers: &mut Vec<Changed>,
)
    requires row { CanMakeRow (day_before row.now rounds.old) row.now.changes.now row.now.tested.meetings.items row.now.tested.rounds.items shape rounds.old row.now.rounds }
    requires held { Holds (contents row.now.list.now).meetings shape (day_before row.now rounds.old).at group_rows.old station_rows.old }
    requires beside { Beside shape (day_before row.now rounds.old).at kept.old (length kept.old.before.items) (length kept.old.sizes.items) }
    requires long { length row.now.tested.meetings.items ≤ length kept.old.before.items }
    requires from { row.now.rounds ≤ length kept.old.sizes.items }
    requires to { (i : ℕ) → i < length row.now.tested.rounds.items → slice_index row.now.tested.rounds.items i ≤ length kept.old.sizes.items }
    requires few { length kept.old.sizes.items ≤ none }
    requires room { length answers.old.items + length row.now.changes.now ≤ vec_capacity answers.old }
    ensures rounds { rounds.new ≡ (last_day (day_before row.now rounds.old) row.now.changes.now).at }
    ensures told { answers.new.items ≡ answers.old.items ++ told (day_before row.now rounds.old) row.now.changes.now }
    ensures rows { BoardLent row.now.tested.meetings.items shape rounds.new group_rows.old group_rows.new station_rows.old station_rows.new }
{
    let mut many = row.list.meetings().len();
    let mut from = row.rounds;
    for (at, change) in row.changes.iter().enumerate() {
        many = many_after(many, *change);
        let to = row.tested.rounds[at];
        let turn = Turn {
            change: *change,
            from,
            to,
        };
        answers.push_reserved(make_lent(
            &row.tested.meetings[0..many],
            shape,
            &mut rounds[0..many],
            group_rows,
            station_rows,
            turn,
            kept,
        ));
        from = to;
    }
}

// No rounds from the first of these on.
fn no_rounds_from(rounds: &mut [u16], first: usize)
    requires { first ≤ length rounds.old }
    ensures { rounds.new ≡ take first rounds.old ++ replicate (length rounds.old - first) none }
{
    rounds[first..].fill(NONE);
}

// Makes the changes of a row over lent slices that hold the plan of its list.
pub(crate) fn make_row(
    row: &Row<'_>,
    shape: Shape,
    rounds: &mut [u16],
    group_rows: &mut [u16],
    station_rows: &mut [u16],
    kept: &mut Kept,
    answers: &mut Vec<Changed>,
)
    requires row { CanMakeFirst row.now shape (length rounds.old) }
    requires planned { take (length (contents row.now.list.now).meetings) rounds.old ≡ (first_day (contents row.now.list.now)).at }
    requires held { Holds (contents row.now.list.now).meetings shape (first_day (contents row.now.list.now)).at group_rows.old station_rows.old }
    requires kept { Room kept.old shape (length rounds.old) (most_rounds row.now) }
    requires room { length answers.old.items + length row.now.changes.now ≤ vec_capacity answers.old }
    ensures rounds { rounds.new ≡ (last_day (first_day (contents row.now.list.now)) row.now.changes.now).at }
    ensures told { answers.new.items ≡ answers.old.items ++ told (first_day (contents row.now.list.now)) row.now.changes.now }
    ensures rows { BoardLent row.now.tested.meetings.items shape rounds.new group_rows.old group_rows.new station_rows.old station_rows.new }
{
    no_rounds_from(rounds, row.list.meetings().len());
    kept.begin(rounds);
    make_each(row, shape, rounds, group_rows, station_rows, kept, answers);
}
