// day DAY CHANGES [PLAN [LIST]]: reads a day's list of meetings and a row of changes, prints what each change leaves, and writes the
// last plan and its list to files.
#![tactic(auto)]

mod listing;
mod making;

use making::made_of;
use programs::{answered, bytes_of, ended, failed, refused, write_file, written_or_none};
use sheets::changes_text;
use std::process::ExitCode;
use std::{env, io};

const NAME: &str = "day";

const USAGE: &str = "usage: day DAY CHANGES [PLAN [LIST]]

Plans a day and makes the changes one after the other; after each there is a plan with the fewest rounds again. Prints for each
change the number of rounds after it, and how many meetings were moved from one round to another.
DAY is the file with the day's list of meetings, and CHANGES the file with the row of changes; - reads one of the two from
standard input.
PLAN is a file that the last plan is written to before anything is printed, with 65,535 for a dropped meeting. LIST is one for the
list that it is a plan of, which has all meetings that have a number, and the rooms that there are in the end. A file that is
there is replaced by a whole one, or stays as it is.
A list or a row that breaks a rule is told of in one line, 'refused N at P', with exit status 1.";

// Each file to be written is none of the others, and not standard output.
fn are_apart(day: &str, changes: &str, plan: Option<&str>, list: Option<&str>) -> bool {
    let own = |path: Option<&str>| {
        path != Some("-") && path != Some(day) && path != Some(changes)
    };
    own(plan) && own(list) && (list.is_none() || list != plan)
}

// Writes a file, where one is named. Whether there is one then, or none was named.
fn write_named(rt: &HostRuntime, path: Option<&str>, bytes: &[u8]) -> io::Result<bool> {
    let Some(path) = path else {
        return Ok(true);
    };
    let written = write_file(rt, rt.process(), path, bytes);
    Ok(written_or_none(rt, NAME, path, written)?.is_some())
}

fn day(
    rt: &HostRuntime,
    day: &str,
    changes: &str,
    plan: Option<&str>,
    list: Option<&str>,
) -> io::Result<ExitCode> {
    let Some(day) = bytes_of(rt, &mut rt.reader(), NAME, day, "the day's meetings")? else {
        return Ok(ExitCode::FAILURE);
    };
    let Some(changes) = bytes_of(rt, &mut rt.reader(), NAME, changes, "the row of changes")? else {
        return Ok(ExitCode::FAILURE);
    };
    let made = match made_of(rt.alloc(), &day, &changes) {
        Ok(made) => made,
        Err(refusal) => return refused(rt, refusal),
    };
    // made before a file is written, since memory may be wanting for it
    let text = match changes_text(rt.alloc(), &made.told) {
        Ok(text) => text,
        Err(refusal) => return refused(rt, refusal),
    };
    if !write_named(rt, plan, &made.plan)? || !write_named(rt, list, &made.list)? {
        return Ok(ExitCode::FAILURE);
    }
    answered(rt, Ok(text))
}

fn run(rt: &HostRuntime) -> io::Result<ExitCode> {
    let mut args = env::args(rt)?.skip(1);
    let first = args.next();
    let second = args.next();
    let third = args.next();
    let fourth = args.next();
    let more = args.next();
    if second.is_none() && first.as_ref().is_some_and(|word| word.as_str() == "--help") {
        println!(rt; "{USAGE}")?;
        return Ok(ExitCode::SUCCESS);
    }
    let (Some(of_day), Some(changes), None) = (first, second, more) else {
        return failed(
            rt,
            NAME,
            "two to four files are needed, the day's meetings, the row of changes, and those for the last plan and its list: day DAY CHANGES [PLAN [LIST]]. See day --help.",
        );
    };
    if of_day.as_str() == "-" && changes.as_str() == "-" {
        return failed(
            rt,
            NAME,
            "only one of the two files can be standard input. See day --help.",
        );
    }
    let plan = third.as_ref().map(|path| path.as_str());
    let list = fourth.as_ref().map(|path| path.as_str());
    if !are_apart(of_day.as_str(), changes.as_str(), plan, list) {
        return failed(
            rt,
            NAME,
            "the plan needs a file of its own, not standard output and none that is read, and so does its list. See day --help.",
        );
    }
    day(rt, of_day.as_str(), changes.as_str(), plan, list)
}

fn main(rt: HostRuntime) -> ExitCode {
    ended(&rt, NAME, run(&rt))
}
