// Reading a row of changes from its bytes.
ghost use Rattle.std.specs.Prelude.{◌≡◌, ◌+◌, ◌<◌, ◌≤◌, ◌^◌, true, length, IfOk, vec_items};
ghost use Rattle.meetings.specs.Held.{contents};
ghost use Rattle.meetings.specs.Refusals.{Answers, outcome};
ghost use Rattle.changes.specs.Bytes.{bytes_of_changes, change_at, id_at, next_at, read_row, width_of};
ghost use Rattle.changes.specs.Numbered.{can, whole};
ghost use Rattle.changes.specs.Registered.{registered};
ghost use Rattle.changes.specs.Rows.{CanAll};

use crate::change::Change;
use crate::register::Register;
use meetings::{MeetingId, MeetingList, Refusal, Source};
use std::alloc::Global;

// The number of a meeting, by its low byte and its high one.
fn meeting_id(bytes: &[u8], at: usize) -> Result<MeetingId, Refusal>
    requires { at + 1 < 2 ^ 64 }
    ensures { outcome (λ i. i) result ≡ id_at bytes.now at }
{
    let Some(high) = bytes.get(at + 1) else {
        return Err(Refusal::Length(bytes.len()));
    };
    Ok(MeetingId(u16::from_le_bytes([bytes[at], *high])))
}

// By how many bytes a change is written.
fn width(change: Change) -> usize
    ensures is { result ≡ width_of change }
    ensures some { 1 ≤ result }
    ensures few { result ≤ 3 }
{
    match change {
        Change::Add(_) | Change::Drop(_) => 3,
        Change::GiveRoomUp | Change::GetRoom => 1,
    }
}

// The change at this place of the bytes, which is the z-th of its row.
fn change(source: &Source, at: usize, z: usize) -> Result<Change, Refusal>
    requires { at < length source.now.bytes.now }
    ensures { outcome (λ c. c) result ≡ change_at source.now.bytes.now at source.now.groups source.now.stations z }
{
    match source.bytes[at] {
        0 => Ok(Change::Add(source.meeting(at + 1)?)),
        1 => Ok(Change::Drop(meeting_id(source.bytes, at + 1)?)),
        2 => Ok(Change::GiveRoomUp),
        3 => Ok(Change::GetRoom),
        _ => Err(Refusal::BadChange(z)),
    }
}

// The same, if it can be made.
fn next(register: &Register, bytes: &[u8], at: usize, z: usize) -> Result<Change, Refusal>
    requires { at < length bytes.now }
    ensures is { outcome (λ c. c) result ≡ next_at (registered register.now) bytes.now at z }
    ensures can { IfOk result (λ c. can (registered register.now) c ≡ true) }
{
    let source = Source {
        bytes,
        groups: register.groups,
        stations: register.stations,
    };
    let change = change(&source, at, z)?;
    if !register.can(change) {
        return Err(Refusal::BadChange(z));
    }
    Ok(change)
}

// The row that the bytes say, or what is wrong with them first.
#[tactic(auto, using(crate::proofs::ReadTurns::read_end))]
fn row(heap: Global, list: &MeetingList, bytes: &[u8]) -> Result<Vec<Change>, Refusal>
    ensures { Answers vec_items result (read_row (whole (contents list.now)) bytes.now) }
{
    let mut register = Register::of(heap, list)?;
    let mut read = Vec::new(heap);
    let mut at = 0;
    while at < bytes.len() {
        let change = next(&register, bytes, at, read.len())?;
        register.make(change)?;
        read.push(change)?;
        at += width(change);
    }
    Ok(read)
}

// The row of changes that the bytes say, each of which can be made when its turn comes, or what is wrong with them first.
pub fn read_changes(heap: Global, list: &MeetingList, bytes: &[u8]) -> Result<Vec<Change>, Refusal>
    ensures answer { Answers vec_items result (read_row (whole (contents list.now)) bytes.now) }
    ensures back { IfOk result (λ cs. bytes_of_changes cs.items ≡ bytes.now) }
    ensures can { IfOk result (λ cs. CanAll (whole (contents list.now)) cs.items) }
{
    row(heap, list, bytes)
}
