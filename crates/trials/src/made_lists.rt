// Lists that are made by number or at random.
use crate::lists::{bytes_of, list_of};
use crate::random::Random;
use meetings::{MeetingList, Refusal};
use std::alloc::{AllocError, Global};

// So many meetings of 120 groups and 120 stations, of which none has more than 34. They are those of 4,000 by this step.
pub(crate) fn spread(heap: Global, many: u16, step: u16) -> Result<Vec<(u8, u8)>, AllocError> {
    (0..many)
        .map(|number| {
            let i = u32::from(number) * u32::from(step) % 4000;
            // `as`, since it is proved to fit
            ((i % 120) as u8, ((i + i / 120) % 120) as u8)
        })
        .collect(heap)
}

// The list of so many of them, in a mixed order.
pub(crate) fn spread_list(heap: Global, many: u16, rooms: u8) -> Result<MeetingList, Refusal> {
    list_of(heap, 120, 120, rooms, &spread(heap, many, 1777)?)
}

// The bytes of a list of up to 8 groups, stations and rooms, and up to 24 meetings.
pub(crate) fn some_bytes(heap: Global, random: &mut Random) -> Result<Vec<u8>, AllocError> {
    let groups = 1 + random.below(8);
    let stations = 1 + random.below(8);
    let rooms = 1 + random.below(8);
    let mut meetings = Vec::new(heap);
    for _ in 0..random.below(25) {
        meetings.push((random.below(groups), random.below(stations)))?;
    }
    bytes_of(heap, groups, stations, rooms, &meetings)
}
