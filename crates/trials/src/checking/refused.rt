// Worked plans: what is refused, at its place, and of two faults the first.
use crate::checking::checks::{Case, check_cases};
use std::test::Fail;

// No two of these have a group or a station in common.
const APART: [(u8, u8); 4] = [(0, 0), (1, 1), (2, 2), (3, 3)];

const TWO: [(u8, u8); 2] = [(0, 0), (1, 1)];

const OF_ONE_GROUP: [(u8, u8); 2] = [(0, 0), (0, 1)];

const OF_ONE_STATION: [(u8, u8); 2] = [(0, 0), (1, 0)];

const TWO_BY_TWO: [(u8, u8); 4] = [(0, 0), (0, 1), (1, 0), (1, 1)];

#[test]
fn plans_that_are_accepted_and_refused(rt: HostRuntime) -> Result<(), Fail> {
    let cases: [Case<'_>; 54] = [
        // ACCEPTED
        (&[], 1, 0, &[], None),
        (&[(4, 4)], 1, 1, &[0], None),
        (&TWO_BY_TWO, 2, 2, &[0, 1, 1, 0], None),
        (&TWO_BY_TWO, 1, 4, &[3, 1, 0, 2], None),
        (&OF_ONE_GROUP, 2, 2, &[1, 0], None),
        // a group and a station with one number
        (&[(0, 1), (1, 0)], 2, 1, &[0, 0], None),
        // as many in a round as there are rooms
        (&TWO, 2, 1, &[0, 0], None),
        (&TWO, 1, 2, &[1, 0], None),
        (&APART, 4, 1, &[0, 0, 0, 0], None),
        // uneven rounds
        (&APART, 3, 2, &[1, 0, 1, 1], None),
        // 1: A ROUND FOR EACH MEETING, told as of the bytes
        (&TWO, 2, 1, &[], Some((1, 2))),
        (&TWO, 2, 1, &[0], Some((1, 4))),
        (&TWO, 2, 1, &[0, 0, 0], Some((1, 6))),
        (&TWO, 2, 1, &[0, 0, 0, 0, 0], Some((1, 6))),
        (&[], 1, 0, &[0], Some((1, 2))),
        // before a round that there is not
        (&TWO, 2, 1, &[1], Some((1, 4))),
        (&TWO, 2, 1, &[1, 0, 1], Some((1, 6))),
        // 7: A ROUND THAT THERE IS NOT, of the lowest meeting
        (&[(0, 0)], 1, 1, &[1], Some((7, 0))),
        (&[(0, 0)], 1, 0, &[0], Some((7, 0))),
        (&APART, 4, 1, &[0, 1, 9, 1], Some((7, 1))),
        (&[(0, 0)], 1, 65534, &[65534], Some((7, 0))),
        // before a clash, a full round and the number of rounds
        (&[(0, 0), (0, 1), (1, 2)], 3, 2, &[0, 0, 2], Some((7, 2))),
        (&[(0, 0), (1, 1), (2, 2)], 1, 3, &[0, 0, 3], Some((7, 2))),
        (&TWO, 2, 2, &[0, 2], Some((7, 1))),
        // 8: A CLASH, of the later meeting
        (&OF_ONE_GROUP, 2, 2, &[0, 0], Some((8, 1))),
        (&OF_ONE_STATION, 2, 2, &[1, 1], Some((8, 8192 + 1))),
        // with no neighbour, and of three
        (
            &[(0, 0), (1, 1), (2, 2), (0, 3)],
            4,
            2,
            &[0, 0, 0, 0],
            Some((8, 3)),
        ),
        (
            &[(0, 0), (1, 1), (2, 2), (3, 0)],
            4,
            2,
            &[0, 1, 0, 0],
            Some((8, 8192 + 3)),
        ),
        (&[(0, 0), (0, 1), (0, 2)], 4, 3, &[2, 2, 2], Some((8, 1))),
        // at one meeting the group first, whoever is met: both at one meeting, the group earlier, and the station
        (&[(0, 0), (0, 0)], 2, 2, &[0, 0], Some((8, 1))),
        (&[(0, 0), (1, 1), (0, 1)], 3, 2, &[0, 0, 0], Some((8, 2))),
        (&[(1, 1), (0, 0), (0, 1)], 3, 2, &[0, 0, 0], Some((8, 2))),
        // of two the lower meeting, also for its station, in a later round, and where it meets the later one
        (
            &[(0, 0), (1, 0), (0, 1)],
            3,
            2,
            &[0, 0, 0],
            Some((8, 8192 + 1)),
        ),
        (&[(0, 0), (0, 1), (1, 0)], 3, 2, &[0, 0, 0], Some((8, 1))),
        (
            &[(0, 0), (1, 1), (0, 2), (1, 3)],
            4,
            2,
            &[1, 0, 1, 0],
            Some((8, 2)),
        ),
        (
            &[(0, 0), (1, 1), (2, 1), (0, 2)],
            4,
            2,
            &[0, 0, 0, 0],
            Some((8, 8192 + 2)),
        ),
        // before a full round and the number of rounds
        (
            &[(0, 0), (1, 1), (2, 2), (2, 3)],
            1,
            4,
            &[0, 0, 1, 1],
            Some((8, 3)),
        ),
        (&OF_ONE_GROUP, 2, 3, &[0, 0], Some((8, 1))),
        // 9: A ROUND WITH TOO MANY, the lowest
        (&TWO, 1, 2, &[0, 0], Some((9, 0))),
        (&TWO, 1, 2, &[1, 1], Some((9, 1))),
        (&APART, 3, 2, &[0, 0, 0, 0], Some((9, 0))),
        (&APART, 1, 4, &[1, 1, 0, 0], Some((9, 0))),
        (&APART, 1, 4, &[3, 1, 3, 1], Some((9, 1))),
        // before the number of rounds
        (&TWO, 1, 3, &[2, 2], Some((9, 2))),
        // 10: NOT THE FEWEST ROUNDS
        (&[], 1, 1, &[], Some((10, 1))),
        (&[(0, 0)], 1, 2, &[0], Some((10, 2))),
        (&[(0, 0)], 1, 2, &[1], Some((10, 2))),
        (&APART, 3, 3, &[0, 1, 2, 0], Some((10, 3))),
        (&TWO_BY_TWO, 2, 3, &[0, 1, 2, 0], Some((10, 3))),
        // FEWER THAN THAT leave another fault
        (&TWO_BY_TWO, 2, 1, &[0, 0, 0, 0], Some((8, 1))),
        // THE MOST ROUNDS
        (&[(0, 0)], 1, 65535, &[65534], Some((10, 65535))),
        (&OF_ONE_GROUP, 2, 65535, &[65534, 65534], Some((8, 1))),
        (
            &OF_ONE_STATION,
            2,
            65535,
            &[65533, 65534],
            Some((10, 65535)),
        ),
        (&TWO, 1, 65535, &[65534, 65534], Some((9, 65534))),
    ];
    check_cases(&rt, rt.alloc(), &cases)
}
