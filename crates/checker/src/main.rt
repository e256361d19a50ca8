// checker DAY PLAN: tells whether a plan from anybody is one of the fewest rounds for a day's list of meetings.
#![tactic(auto)]

mod verdict;

use programs::{bytes_of, ended, failed};
use std::process::ExitCode;
use std::{env, io};
use verdict::told_of;

const NAME: &str = "checker";

const USAGE: &str = "usage: checker DAY PLAN

Prints 'accepted', with exit status 0, where the plan has the fewest rounds for the meetings that it does not drop, nobody is at
two meetings in a round, and no round has more meetings than there are rooms. Else prints the first fault, 'refused N at P', with
exit status 1; so it does where a file breaks a rule.
DAY is the file with the day's list of meetings, and PLAN the file with the plan; - reads one of the two from standard input.";

fn check(rt: &HostRuntime, day: &str, plan: &str) -> io::Result<ExitCode> {
    let Some(day) = bytes_of(rt, &mut rt.reader(), NAME, day, "the day's meetings")? else {
        return Ok(ExitCode::FAILURE);
    };
    let Some(plan) = bytes_of(rt, &mut rt.reader(), NAME, plan, "the plan")? else {
        return Ok(ExitCode::FAILURE);
    };
    told_of(rt, &day, &plan)
}

fn run(rt: &HostRuntime) -> io::Result<ExitCode> {
    let mut args = env::args(rt)?.skip(1);
    let first = args.next();
    let second = args.next();
    let more = args.next();
    if second.is_none() && first.as_ref().is_some_and(|word| word.as_str() == "--help") {
        println!(rt; "{USAGE}")?;
        return Ok(ExitCode::SUCCESS);
    }
    let (Some(day), Some(plan), None) = (first, second, more) else {
        return failed(
            rt,
            NAME,
            "two files are needed, the day's meetings and the plan: checker DAY PLAN. See checker --help.",
        );
    };
    if day.as_str() == "-" && plan.as_str() == "-" {
        return failed(
            rt,
            NAME,
            "only one of the two files can be standard input. See checker --help.",
        );
    }
    check(rt, day.as_str(), plan.as_str())
}

fn main(rt: HostRuntime) -> ExitCode {
    ended(&rt, NAME, run(&rt))
}
