// Plans that drop meetings: they have no round, meet nobody, take no room, and count for no round.
use crate::checking::checks::{Case, check_cases};
use crate::entries::NONE;
use std::test::Fail;

const OF_ONE_GROUP: [(u8, u8); 3] = [(0, 0), (0, 1), (0, 2)];

const APART: [(u8, u8); 4] = [(0, 0), (1, 1), (2, 2), (3, 3)];

#[test]
fn dropped_meetings(rt: HostRuntime) -> Result<(), Fail> {
    let cases: [Case<'_>; 23] = [
        // all are dropped
        (&[(0, 0)], 1, 0, &[NONE], None),
        (&OF_ONE_GROUP, 1, 0, &[NONE, NONE, NONE], None),
        (&OF_ONE_GROUP, 1, 1, &[NONE, NONE, NONE], Some((10, 1))),
        (
            &OF_ONE_GROUP,
            1,
            65535,
            &[NONE, NONE, NONE],
            Some((10, 65535)),
        ),
        // they are no clash, neither with another nor with one another
        (&[(0, 0), (0, 0)], 1, 1, &[NONE, 0], None),
        (&[(0, 0), (0, 0)], 1, 1, &[0, NONE], None),
        (&OF_ONE_GROUP, 1, 1, &[NONE, 0, NONE], None),
        (&OF_ONE_GROUP, 1, 1, &[NONE, NONE, 0], None),
        // one that stands between two
        (&OF_ONE_GROUP, 3, 2, &[0, NONE, 0], Some((8, 2))),
        (
            &[(0, 0), (1, 0), (2, 0)],
            3,
            2,
            &[1, NONE, 1],
            Some((8, 8192 + 2)),
        ),
        // the rounds that the busiest asks for
        (&OF_ONE_GROUP, 3, 2, &[0, NONE, 1], None),
        (&OF_ONE_GROUP, 3, 3, &[0, NONE, 1], Some((10, 3))),
        (&OF_ONE_GROUP, 3, 3, &[2, NONE, 1], Some((10, 3))),
        // and the rooms
        (&APART, 2, 1, &[0, NONE, 0, NONE], None),
        (&APART, 2, 2, &[0, NONE, 1, NONE], Some((10, 2))),
        (&APART, 2, 2, &[0, NONE, 1, 0], None),
        // they take no room
        (&APART, 1, 1, &[NONE, NONE, NONE, 0], None),
        (&APART, 2, 2, &[0, NONE, 0, 0], Some((9, 0))),
        (&APART, 1, 3, &[NONE, 1, 1, 1], Some((9, 1))),
        // the rounds that there are for others
        (&APART, 1, 2, &[NONE, 2, 1, NONE], Some((7, 1))),
        (&APART, 1, 2, &[NONE, 2, NONE], Some((1, 8))),
        // one less than none is a round
        (
            &APART,
            4,
            65535,
            &[NONE, 65534, NONE, 65534],
            Some((10, 65535)),
        ),
        (&OF_ONE_GROUP, 4, 65535, &[NONE, 65534, 65534], Some((8, 2))),
    ];
    check_cases(&rt, rt.alloc(), &cases)
}
