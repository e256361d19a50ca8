// Lists of a few lines.
ghost use Rattle.std.specs.Prelude.{◌≡◌, IfOk};
ghost use Rattle.meetings.specs.Bytes.{read_list};
ghost use Rattle.meetings.specs.Held.{contents};
ghost use Rattle.meetings.specs.Refusals.{Answers};
ghost use Rattle.trials.specs.Bytes.{bytes_of_list};

use meetings::{MeetingList, Refusal, read};
use std::alloc::{AllocError, Global};

// The bytes of a list, its meetings given by their groups and their stations. A number of meetings that two bytes do not hold
// is cut.
pub(crate) fn bytes_of(
    heap: Global,
    groups: u8,
    stations: u8,
    rooms: u8,
    meetings: &[(u8, u8)],
) -> Result<Vec<u8>, AllocError>
    ensures { IfOk result (λ v. v.items ≡ bytes_of_list groups stations rooms meetings.now) }
{
    let [low, high, ..] = meetings.len().to_le_bytes();
    let mut bytes = Vec::new(heap);
    bytes.extend_from_slice(&[groups, stations, rooms, low, high])?;
    for (group, station) in meetings {
        bytes.extend_from_slice(&[*group, *station])?;
    }
    Ok(bytes)
}

// The list that these bytes say.
pub(crate) fn list_of(
    heap: Global,
    groups: u8,
    stations: u8,
    rooms: u8,
    meetings: &[(u8, u8)],
) -> Result<MeetingList, Refusal>
    ensures { Answers contents result (read_list (bytes_of_list groups stations rooms meetings.now)) }
{
    let bytes = bytes_of(heap, groups, stations, rooms, meetings)?;
    read(heap, &bytes)
}
