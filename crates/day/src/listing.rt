// The list of the last day, as bytes.
ghost use Rattle.std.specs.Prelude.{◌≡◌, ◌++◌, ◌≤◌, drop, length};
ghost use Rattle.meetings.specs.Bytes.{bytes_of};
ghost use Rattle.meetings.specs.Held.{contents};
ghost use Rattle.meetings.specs.Refusals.{IfMemory};
ghost use Rattle.changes.specs.Numbered.{whole};
ghost use Rattle.changes.specs.Rows.{CanAll};
ghost use Rattle.day.specs.Lists.{AllInBytes, InByte, added_bytes, all_added, given_up, got};
ghost use Rattle.day.specs.Reports.{last_of};

use crate::making::numbers;
use changes::Change;
use meetings::{HEAD, MeetingList, Refusal, write};
use std::alloc::Global;

// How many rooms a row gets.
fn got(changes: &[Change]) -> usize
    ensures { result ≡ got changes.now }
{
    changes
        .iter()
        .filter(|change| matches!(change, Change::GetRoom))
        .count()
}

// How many it gives up.
fn given_up(changes: &[Change]) -> usize
    ensures { result ≡ given_up changes.now }
{
    changes
        .iter()
        .filter(|change| matches!(change, Change::GiveRoomUp))
        .count()
}

// How many rooms there are in the end.
fn rooms_left(list: &MeetingList, changes: &[Change]) -> u8
    requires { CanAll (whole (contents list.now)) changes.now }
    ensures { result ≡ (last_of (contents list.now) changes.now).list.rooms }
{
    // `as` here and below, since that the numbers fit is proved; wide, since a row may get and give up rooms very often
    (list.rooms() as u128 + got(changes) as u128 - given_up(changes) as u128) as u8
}

// The meeting that a change adds, if it adds one, behind the bytes that there are. Only memory can be wanting.
fn add_one(bytes: &mut Vec<u8>, change: Change) -> Result<(), Refusal>
    requires { InByte change }
    ensures { IfMemory result (λ _. bytes.new.items ≡ bytes.old.items ++ added_bytes change) }
{
    match change {
        Change::Add(meeting) => {
            bytes.extend_from_slice(&[meeting.group.0 as u8, meeting.station.0 as u8])?
        }
        Change::Drop(_) | Change::GiveRoomUp | Change::GetRoom => {}
    }
    Ok(())
}

// The meetings that a row adds. Only memory can be wanting.
fn add_added(bytes: &mut Vec<u8>, changes: &[Change]) -> Result<(), Refusal>
    requires { AllInBytes changes.now }
    ensures { IfMemory result (λ _. bytes.new.items ≡ bytes.old.items ++ all_added changes.now) }
{
    for change in changes {
        add_one(bytes, *change)?;
    }
    Ok(())
}

// The meetings of the bytes of a list, behind the bytes that there are. Only memory can be wanting.
fn add_meetings(bytes: &mut Vec<u8>, list: &[u8]) -> Result<(), Refusal>
    requires { 5 ≤ length list.now }
    ensures { IfMemory result (λ _. bytes.new.items ≡ bytes.old.items ++ drop 5 list.now) }
{
    bytes.extend_from_slice(&list[HEAD..])?;
    Ok(())
}

// The list of the last day: all meetings that have a number, and the rooms that there are then. Only memory can be wanting.
pub(crate) fn list_told(
    heap: Global,
    list: &MeetingList,
    changes: &[Change],
) -> Result<Vec<u8>, Refusal>
    requires { CanAll (whole (contents list.now)) changes.now }
    ensures { IfMemory result (λ v. v.items ≡ bytes_of (last_of (contents list.now) changes.now).list) }
{
    let [low, high] = (numbers(list, changes) as u16).to_le_bytes();
    let head = [
        list.groups() as u8,
        list.stations() as u8,
        rooms_left(list, changes),
        low,
        high,
    ];
    let before = write(heap, list)?;
    let mut bytes = Vec::new(heap);
    bytes.extend_from_slice(&head)?;
    add_meetings(&mut bytes, &before)?;
    add_added(&mut bytes, changes)?;
    Ok(bytes)
}
