// Reading and writing lists: each refusal with its place, at both sides of each limit.
use crate::same::same;
use crate::told::{Fault, told};
use meetings::{Group, Meeting, Refusal, Station, read, write};
use std::alloc::{AllocError, Global};
use std::test::Fail;

// A list of so many meetings of one pair.
fn one_pair(heap: Global, many: u16) -> Result<Vec<u8>, AllocError> {
    let mut bytes = Vec::new(heap);
    let [low, high] = many.to_le_bytes();
    bytes.extend_from_slice(&[1, 1, 1, low, high])?;
    bytes.resize(5 + 2 * usize::from(many), 0)?;
    Ok(bytes)
}

fn meeting(group: u16, station: u16) -> Meeting {
    Meeting {
        group: Group(group),
        station: Station(station),
    }
}

// Three groups, two stations, four rooms; two meetings.
const SMALL: [u8; 9] = [3, 2, 4, 2, 0, 2, 1, 0, 0];

#[test]
fn a_small_list(rt: HostRuntime) -> Result<(), Fail> {
    let list = read(rt.alloc(), &SMALL)?;
    same(&rt, &list.groups(), &3);
    same(&rt, &list.stations(), &2);
    same(&rt, &list.rooms(), &4);
    same(
        &rt,
        &list.meetings(),
        &[meeting(2, 1), meeting(0, 0)].as_slice(),
    );
    let bytes = write(rt.alloc(), &list)?;
    same(&rt, &bytes.as_slice(), &SMALL.as_slice());
    Ok(())
}

#[test]
fn each_truncation_is_refused_at_its_length(rt: HostRuntime) {
    // the lengths themselves are tried, so they are counted
    for length in 0..SMALL.len() {
        same(
            &rt,
            &told(read(rt.alloc(), &SMALL[..length])),
            &Some((1, length)),
        );
    }
    same(&rt, &told(read(rt.alloc(), &SMALL)), &None);
}

#[test]
fn bytes_that_go_on_are_refused_at_the_first_too_many(rt: HostRuntime) {
    let cases: [(&[u8], usize); 3] = [
        (&[3, 2, 4, 2, 0, 2, 1, 0, 0, 0], 9),
        (&[3, 2, 4, 2, 0, 2, 1, 0, 0, 0, 0, 0], 9),
        (&[1, 1, 1, 0, 0, 0], 5),
    ];
    for (bytes, place) in cases {
        same(&rt, &told(read(rt.alloc(), bytes)), &Some((1, place)));
    }
}

#[test]
fn head_at_its_limits(rt: HostRuntime) {
    // the places themselves are tried, so they are counted
    for at in 0..3usize {
        for number in [0u8, 1, 120, 121, 255] {
            let mut head = [1u8, 1, 1, 0, 0];
            head[at] = number;
            let right = if number == 1 || number == 120 {
                None
            } else {
                Some((2u8, at))
            };
            same(&rt, &told(read(rt.alloc(), &head)), &right);
        }
    }
}

#[test]
fn meetings_at_their_limit(rt: HostRuntime) -> Result<(), Fail> {
    for many in [3999u16, 4000] {
        let bytes = one_pair(rt.alloc(), many)?;
        same(&rt, &told(read(rt.alloc(), &bytes)), &None);
        let list = read(rt.alloc(), &bytes)?;
        same(&rt, &list.meetings().len(), &usize::from(many));
        let back = write(rt.alloc(), &list)?;
        same(&rt, &back.as_slice(), &bytes.as_slice());
    }
    for many in [4001u16, 4002, 65535] {
        let bytes = one_pair(rt.alloc(), many)?;
        same(&rt, &told(read(rt.alloc(), &bytes)), &Some((3, 3)));
    }
    Ok(())
}

#[test]
fn parties_at_their_limits(rt: HostRuntime) {
    for many in [1u8, 2, 120] {
        // a place at the head, and the same place in the meeting
        for at in 0..2usize {
            let mut bytes = [1, 1, 1, 1, 0, 0, 0];
            bytes[at] = many;
            bytes[5 + at] = many - 1;
            same(&rt, &told(read(rt.alloc(), &bytes)), &None);
            bytes[5 + at] = many;
            same(&rt, &told(read(rt.alloc(), &bytes)), &Some((4, 5 + at)));
        }
    }
}

#[test]
fn the_first_fault_is_told(rt: HostRuntime) {
    let cases: [(&[u8], Fault); 11] = [
        // too short before all else
        (&[0, 0, 0, 255], (1, 4)),
        (&[], (1, 0)),
        // then in the order of the bytes
        (&[121, 0, 0, 255, 255], (2, 0)),
        (&[1, 0, 0, 255, 255], (2, 1)),
        (&[1, 1, 0, 255, 255], (2, 2)),
        (&[1, 1, 1, 255, 255], (3, 3)),
        // a group that does not exist before the bytes that are missing, and a station before one byte too many
        (&[1, 1, 1, 2, 0, 1], (4, 5)),
        (&[1, 1, 1, 2, 0, 0], (1, 6)),
        (&[1, 1, 1, 1, 0, 0, 1, 0], (4, 6)),
        // in the second meeting
        (&[2, 2, 1, 2, 0, 1, 1, 1, 2], (4, 8)),
        (&[2, 2, 1, 2, 0, 1, 1, 255, 255], (4, 7)),
    ];
    for (bytes, right) in cases {
        same(&rt, &told(read(rt.alloc(), bytes)), &Some(right));
    }
}

#[test]
fn a_refusal_is_told_in_one_line(rt: HostRuntime) -> Result<(), Fail> {
    let line = Refusal::NoSuchParty(9).to_string(rt.alloc())?;
    same(&rt, &line.as_str(), &"refused 4 at 9");
    Ok(())
}
