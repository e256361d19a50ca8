// Writing a list of meetings as bytes.
ghost use Rattle.std.specs.Prelude.{◌≡◌, IfOk};
ghost use Rattle.meetings.specs.Bytes.{read_list, bytes_of};
ghost use Rattle.meetings.specs.Held.{contents};
ghost use Rattle.meetings.specs.Refusals.{accepted, IfMemory};

use crate::list::MeetingList;
use crate::refusal::Refusal;
use std::alloc::Global;

// The bytes that say this list. Only memory can be wanting.
pub fn write(heap: Global, list: &MeetingList) -> Result<Vec<u8>, Refusal>
    ensures answer { IfMemory result (λ v. v.items ≡ bytes_of (contents list.now)) }
    ensures back { IfOk result (λ v. read_list v.items ≡ accepted (contents list.now)) }
{
    // `as` here and below, since that the numbers fit is proved: a `try_from` would have an error that cannot come
    let meetings = list.meetings();
    let [low, high] = (meetings.len() as u16).to_le_bytes();
    let head = [
        list.groups as u8,
        list.stations as u8,
        list.rooms as u8,
        low,
        high,
    ];
    let mut bytes = Vec::new(heap);
    bytes.extend_from_slice(&head)?;
    for meeting in meetings {
        bytes.extend_from_slice(&[meeting.group.0 as u8, meeting.station.0 as u8])?;
    }
    Ok(bytes)
}
