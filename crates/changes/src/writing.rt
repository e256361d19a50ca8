// Writing a row of changes as bytes.
ghost use Rattle.std.specs.Prelude.{◌≡◌, ◌++◌, true, vec_items};
ghost use Rattle.meetings.specs.Lists.{Proper};
ghost use Rattle.meetings.specs.Refusals.{Answers, IfMemory};
ghost use Rattle.changes.specs.Bytes.{bytes_of_change, has_bytes, written_row};
ghost use Rattle.changes.specs.Numbered.{Numbered};
ghost use Rattle.changes.specs.Rows.{CanAll, SaysRow};

use crate::change::Change;
use meetings::{MeetingId, Refusal};
use std::alloc::Global;

// Whether a change has bytes: each party below 256.
fn is_written(change: Change) -> bool
    ensures { result ≡ has_bytes change }
{
    match change {
        Change::Add(meeting) => meeting.group.0 < 256 && meeting.station.0 < 256,
        Change::Drop(_) | Change::GiveRoomUp | Change::GetRoom => true,
    }
}

// A change behind the bytes that there are. Only memory can be wanting.
fn write_change(bytes: &mut Vec<u8>, change: Change) -> Result<(), Refusal>
    requires { has_bytes change ≡ true }
    ensures { IfMemory result (λ u. bytes.new.items ≡ bytes.old.items ++ bytes_of_change change) }
{
    bytes.push(change.number())?;
    match change {
        // `as`, since it is proved to fit
        Change::Add(meeting) => bytes.extend_from_slice(&[
            meeting.group.0 as u8,
            meeting.station.0 as u8,
        ])?,
        Change::Drop(MeetingId(i)) => bytes.extend_from_slice(&i.to_le_bytes())?,
        Change::GiveRoomUp | Change::GetRoom => (),
    }
    Ok(())
}

// The bytes that say this row.
fn row(heap: Global, changes: &[Change]) -> Result<Vec<u8>, Refusal>
    ensures { Answers vec_items result (written_row changes.now) }
{
    let mut bytes = Vec::new(heap);
    for (at, change) in changes.iter().enumerate() {
        if !is_written(*change) {
            return Err(Refusal::BadChange(at));
        }
        write_change(&mut bytes, *change)?;
    }
    Ok(bytes)
}

// The bytes that say this row. The first change that names a group or a station from 256 on, of which no list has any, is refused;
// what can be made is written, but for want of memory, and read as that row.
#[tactic(auto, using(crate::proofs::RowWritten::written_answered))]
pub fn write_changes(heap: Global, changes: &[Change]) -> Result<Vec<u8>, Refusal>
    ensures answer { Answers vec_items result (written_row changes.now) }
    ensures back { (v : Numbered) → Proper v.list → CanAll v changes.now → IfMemory result (λ bs. SaysRow v changes.now bs.items) }
{
    row(heap, changes)
}
