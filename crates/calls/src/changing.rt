// The call for changes.
ghost use Rattle.std.specs.Prelude.{◌≡◌, List, length};
ghost use Rattle.meetings.specs.Bytes.{read_list};
ghost use Rattle.meetings.specs.Refusals.{accepted, then};
ghost use Rattle.balance.specs.Lent.{Unchanged};
ghost use Rattle.changes.specs.Bytes.{read_row};
ghost use Rattle.changes.specs.Numbered.{whole};
ghost use Rattle.changes.specs.Told.{ChangedLent, OfRow, RowPromised, answer_of};
ghost use Rattle.changes.specs.declared.changed.Changed.{Changed};
ghost use Rattle.calls.specs.Coded.{Leaves, Says, coded_row};

use crate::answers::{RowAnswer, row_answer};
use changes::change_bytes;
use std::alloc::Global;

// Plans the day that the bytes say and makes the row of changes that the others say, as `changes::change_bytes` does: the answer
// is what that answers of the last change, and the lent slices hold what it leaves.
#[tactic(auto, using(crate::proofs::Coding::says_row, crate::proofs::Coding::leaves_row, crate::proofs::Coding::promised_row))]
#[unsafe(no_mangle)]
pub extern "C" fn cirdumash_change(
    heap: Global,
    day: &[u8],
    changes: &[u8],
    rounds: &mut [u16],
    group_rows: &mut [u16],
    station_rows: &mut [u16],
) -> RowAnswer
    ensures answer { Says coded_row result (then (read_list day.now) (λ d. then (read_row (whole d) changes.now) (λ cs. answer_of d cs (length rounds.old) (length group_rows.old) (length station_rows.old)))) }
    ensures lent { Leaves result.refusal (OfRow day.now changes.now (λ d cs. ChangedLent d cs rounds.old rounds.new group_rows.old group_rows.new station_rows.old station_rows.new)) (Unchanged rounds.old rounds.new group_rows.old group_rows.new station_rows.old station_rows.new) }
    ensures promised { result.refusal ≡ 0 → (ts : List Changed) × (result ≡ coded_row (accepted ts)) × OfRow day.now changes.now (λ d cs. RowPromised d cs ts rounds.new) }
{
    row_answer(change_bytes(heap, day, changes, rounds, group_rows, station_rows))
}
