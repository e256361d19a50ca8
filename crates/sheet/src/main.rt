// sheet DAY PLAN: prints a sheet for each group and each station.
#![tactic(auto)]

mod telling;

use programs::{bytes_of, ended, failed};
use std::process::ExitCode;
use std::{env, io};
use telling::told_of;

const NAME: &str = "sheet";

const USAGE: &str = "usage: sheet DAY PLAN

Prints a sheet for each group, the station that it goes to in each round, and then one for each station, the group that comes.
DAY is the file with the day's list of meetings, and PLAN the file with the plan; - reads one of the two from standard input.
A list that breaks a rule, or a plan that the checker refuses, is told of in one line, 'refused N at P', with exit status 1.";

fn sheet(rt: &HostRuntime, day: &str, plan: &str) -> io::Result<ExitCode> {
    let Some(day) = bytes_of(rt, &mut rt.reader(), NAME, day, "the day's meetings")? else {
        return Ok(ExitCode::FAILURE);
    };
    let Some(plan) = bytes_of(rt, &mut rt.reader(), NAME, plan, "the plan")? else {
        return Ok(ExitCode::FAILURE);
    };
    told_of(rt, &day, &plan)
}

fn run(rt: &HostRuntime) -> io::Result<ExitCode> {
    let mut args = env::args(rt)?.skip(1);
    let first = args.next();
    let second = args.next();
    let more = args.next();
    if second.is_none() && first.as_ref().is_some_and(|word| word.as_str() == "--help") {
        println!(rt; "{USAGE}")?;
        return Ok(ExitCode::SUCCESS);
    }
    let (Some(day), Some(plan), None) = (first, second, more) else {
        return failed(
            rt,
            NAME,
            "two files are needed, the day's meetings and the plan: sheet DAY PLAN. See sheet --help.",
        );
    };
    if day.as_str() == "-" && plan.as_str() == "-" {
        return failed(
            rt,
            NAME,
            "only one of the two files can be standard input. See sheet --help.",
        );
    }
    sheet(rt, day.as_str(), plan.as_str())
}

fn main(rt: HostRuntime) -> ExitCode {
    ended(&rt, NAME, run(&rt))
}
