// Worked sheets: the whole text of small days, and columns of numbers of one, two and three digits.
use crate::lists::bytes_of;
use crate::same::{same, same_for};
use plans::write_plan;
use sheets::print_sheets;
use std::alloc::Global;
use std::process::Abort;
use std::test::Fail;

// Two groups, two stations and two rooms; meetings of group 0 with station 1, and of group 1 with station 1 and with station 0.
const DAY: [u8; 11] = [2, 2, 2, 3, 0, 0, 1, 1, 1, 1, 0];

// Two rounds: the first meeting is dropped, and the others are in round 1 and in round 0.
const PLAN: [u8; 8] = [2, 0, 255, 255, 1, 0, 0, 0];

const SHEETS: &str = "\
group 0
round  station
    0     free
    1     free

group 1
round  station
    0        0
    1        1

station 0
round    group
    0        1
    1     free

station 1
round    group
    0     free
    1        1

";

const NO_ROUNDS: &str = "\
group 0
round  station

station 0
round    group

station 1
round    group

";

const ONE_ROUND: &str = "\
group 0
round  station
    0        0

group 1
round  station
    0     free

group 2
round  station
    0        1

station 0
round    group
    0        0

station 1
round    group
    0        2

";

#[test]
fn worked_texts(rt: HostRuntime) -> Result<(), Fail> {
    let cases: [(&[u8], &[u8], &str); 4] = [
        (&DAY, &PLAN, SHEETS),
        // no meetings, and only dropped ones
        (&[1, 2, 1, 0, 0], &[0, 0], NO_ROUNDS),
        (&[1, 2, 1, 1, 0, 0, 0], &[0, 0, 255, 255], NO_ROUNDS),
        // one round, and more groups than stations
        (&[3, 2, 2, 2, 0, 2, 1, 0, 0], &[1, 0, 0, 0, 0, 0], ONE_ROUND),
    ];
    for (day, plan, right) in cases {
        let text = print_sheets(rt.alloc(), day, plan)?;
        same(&rt, &text.as_str(), &right);
    }
    Ok(())
}

// Lines by their numbers, from 0. A sheet of 120 rounds has 123.
type Lines<'a> = &'a [(usize, &'a str)];

// One group meets 120 stations, the last one first.
const OF_ONE_GROUP: [(usize, &str); 19] = [
    (0, "group 0"),
    (1, "round  station"),
    (2, "    0      119"),
    (11, "    9      110"),
    (12, "   10      109"),
    (22, "   20       99"),
    (101, "   99       20"),
    (102, "  100       19"),
    (112, "  110        9"),
    (121, "  119        0"),
    (122, ""),
    (123, "station 0"),
    (125, "    0     free"),
    (225, "  100     free"),
    (244, "  119        0"),
    (1353, "station 10"),
    (14760, "station 119"),
    (14762, "    0        0"),
    (14882, ""),
];

// 120 groups come to one station, the last one first.
const OF_ONE_STATION: [(usize, &str); 7] = [
    (12300, "group 100"),
    (14760, "station 0"),
    (14761, "round    group"),
    (14762, "    0      119"),
    (14772, "   10      109"),
    (14871, "  109       10"),
    (14881, "  119        0"),
];

// One pair meets 4,000 times, in rounds of four digits too.
const OF_ONE_PAIR: [(usize, &str); 6] = [
    (2, "    0        0"),
    (1001, "  999        0"),
    (1002, " 1000        0"),
    (4001, " 3999        0"),
    (4002, ""),
    (4003, "station 0"),
];

// The meetings of a list with one room are in rounds of their own, the last one first.
fn check_lines(
    rt: &impl Abort,
    heap: Global,
    day: &[u8],
    rounds: u16,
    lines: Lines<'_>,
) -> Result<(), Fail> {
    let backwards = (0..rounds).rev().collect::<Vec<_>>(heap)?;
    let plan = write_plan(heap, rounds, &backwards)?;
    let text = print_sheets(heap, day, &plan)?;
    for (at, right) in lines {
        same_for(rt, &text.lines().nth(*at), &Some(*right), &at);
    }
    Ok(())
}

// Numbers of one digit and of more end in one column.
#[test]
fn numbers_in_columns(rt: HostRuntime) -> Result<(), Fail> {
    let heap = rt.alloc();
    let meetings = (0..120u8)
        .map(|number| (0u8, number))
        .collect::<Vec<_>>(heap)?;
    let day = bytes_of(heap, 1, 120, 1, &meetings)?;
    check_lines(&rt, heap, &day, 120, &OF_ONE_GROUP)?;
    let meetings = (0..120u8)
        .map(|number| (number, 0u8))
        .collect::<Vec<_>>(heap)?;
    let day = bytes_of(heap, 120, 1, 1, &meetings)?;
    check_lines(&rt, heap, &day, 120, &OF_ONE_STATION)?;
    let meetings = vec![in heap; (0u8, 0u8); 4000]?;
    let day = bytes_of(heap, 1, 1, 1, &meetings)?;
    check_lines(&rt, heap, &day, 4000, &OF_ONE_PAIR)
}
