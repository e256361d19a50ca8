// Worked reports: the whole text for lists, for a report and for changes.
use crate::same::same;
use balance::Planned;
use changes::Changed;
use sheets::{Report, changes_text, made_of, report_text};
use std::alloc::Global;
use std::process::Abort;
use std::test::Fail;

// The list of the document on bytes: one group, two stations, nine rooms, and three meetings.
const DAY: [u8; 11] = [1, 2, 9, 3, 0, 0, 0, 0, 0, 0, 1];

const OF_DAY: &str = "\
rounds 3 looks 3
round 0 meetings 1
round 1 meetings 1
round 2 meetings 1
meeting 0 round 0
meeting 1 round 1
meeting 2 round 2
";

// Numbers of many digits, a round without meetings, and a meeting without a round.
const LARGE: &str = "\
rounds 260 looks 18446744073709551615
round 0 meetings 4000
round 1 meetings 0
round 2 meetings 10
meeting 0 round 259
meeting 1 round 65535
";

const OF_CHANGES: &str = "\
rounds 120 moved 31
rounds 2 moved 0
";

fn check_made(
    rt: &impl Abort,
    heap: Global,
    day: &[u8],
    right: &str,
    plan: &[u8],
) -> Result<(), Fail> {
    let made = made_of(heap, day)?;
    let text = report_text(heap, &made.report)?;
    same(rt, &text.as_str(), &right);
    same(rt, &made.plan.as_slice(), &plan);
    Ok(())
}

fn check_large(rt: &impl Abort, heap: Global) -> Result<(), Fail> {
    let large = Report {
        planned: Planned {
            rounds: 260,
            looks: u64::MAX,
        },
        of_rounds: vec![in heap; 4000, 0, 10]?,
        of_meetings: vec![in heap; 259, 65535]?,
    };
    let text = report_text(heap, &large)?;
    same(rt, &text.as_str(), &LARGE);
    Ok(())
}

fn check_changes(
    rt: &impl Abort,
    heap: Global,
    changes: &[Changed],
    right: &str,
) -> Result<(), Fail> {
    let text = changes_text(heap, changes)?;
    same(rt, &text.as_str(), &right);
    Ok(())
}

#[test]
fn worked_reports(rt: HostRuntime) -> Result<(), Fail> {
    let heap = rt.alloc();
    check_made(&rt, heap, &DAY, OF_DAY, &[3, 0, 0, 0, 1, 0, 2, 0])?;
    // no meetings
    check_made(&rt, heap, &[1, 2, 9, 0, 0], "rounds 0 looks 0\n", &[0, 0])?;
    check_large(&rt, heap)?;
    let changes = [
        Changed {
            rounds: 120,
            looks: 9,
            moved: 31,
        },
        Changed {
            rounds: 2,
            looks: 7,
            moved: 0,
        },
    ];
    check_changes(&rt, heap, &changes, OF_CHANGES)?;
    check_changes(&rt, heap, &[], "")
}
