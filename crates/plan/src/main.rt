// plan DAY [PLAN]: reads a day's list of meetings, prints a plan with the fewest rounds, and writes it to a file.
#![tactic(auto)]

mod making;

use making::told_of;
use programs::{answered, bytes_of, ended, failed, refused, write_file, written_or_none};
use std::process::ExitCode;
use std::{env, io};

const NAME: &str = "plan";

const USAGE: &str = "usage: plan DAY [PLAN]

Prints a plan with the fewest rounds: their number and the looks that making it took, how many meetings each round has, and
the round of each meeting. Nobody is at two meetings in a round, no round has more meetings than there are rooms, and no two
rounds differ by more than one meeting.
DAY is the file with the day's list of meetings; - reads it from standard input.
PLAN is a file that the plan is written to before anything is printed. A file that is there is replaced by the whole plan, or
stays as it is.
A list that breaks a rule is told of in one line, 'refused N at P', with exit status 1.";

fn plan(rt: &HostRuntime, day: &str, to: Option<&str>) -> io::Result<ExitCode> {
    let Some(bytes) = bytes_of(rt, &mut rt.reader(), NAME, day, "the day's meetings")? else {
        return Ok(ExitCode::FAILURE);
    };
    let told = match told_of(rt.alloc(), &bytes) {
        Ok(told) => told,
        Err(refusal) => return refused(rt, refusal),
    };
    if let Some(path) = to {
        let written = write_file(rt, rt.process(), path, &told.plan);
        if written_or_none(rt, NAME, path, written)?.is_none() {
            return Ok(ExitCode::FAILURE);
        }
    }
    answered(rt, Ok(told.text))
}

fn run(rt: &HostRuntime) -> io::Result<ExitCode> {
    let mut args = env::args(rt)?.skip(1);
    let first = args.next();
    let second = args.next();
    let more = args.next();
    let (Some(day), None) = (first, more) else {
        return failed(
            rt,
            NAME,
            "one or two files are needed, the day's meetings and one for the plan: plan DAY [PLAN]. See plan --help.",
        );
    };
    if second.is_none() && day.as_str() == "--help" {
        println!(rt; "{USAGE}")?;
        return Ok(ExitCode::SUCCESS);
    }
    let to = second.as_ref().map(|path| path.as_str());
    if to == Some("-") || to == Some(day.as_str()) {
        return failed(
            rt,
            NAME,
            "the plan needs a file of its own, not standard output and none that is read. See plan --help.",
        );
    }
    plan(rt, day.as_str(), to)
}

fn main(rt: HostRuntime) -> ExitCode {
    ended(&rt, NAME, run(&rt))
}
