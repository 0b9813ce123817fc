//! Tests of whole runs as data. Each case of the files that the arguments name hands arguments, a
//! log and a folder to `run` over memory, and compares how the run ends and what it writes. See
//! `tools/fill_cases` for the form of the files.
#![tactic(auto)]

mod calls;
mod case;
mod cases;
mod images;
mod long_logs;
mod ran;
mod statuses;
mod unread;

use cases::{Tally, check_text};
use long_logs::check_long_logs;
use statuses::{check_statuses, check_surely};
use std::process::ExitCode;
use std::rt::{Env, Files};
use std::{env, fs, io};

/// Prints how many cases there are and how many of them are wrong, and returns the latter.
fn report(rt: &(impl Print), name: &str, tally: Tally) -> io::Result<u64> {
    println!(rt; "{name}: {} cases, {} wrong", tally.cases, tally.wrong)?;
    Ok(tally.wrong)
}

/// Checks the files that the arguments name, and prints a line for each. Returns how many cases are
/// wrong.
fn check_files<R: Env + Files + Print + Eprint + AllocGlobal>(rt: &R) -> io::Result<u64> {
    let mut wrong = 0u64;
    for word in env::args(rt)?.skip(1) {
        let text = fs::read_to_string(rt, word.as_str())?;
        let tally = check_text(rt, word.as_str(), text.as_str())?;
        wrong = wrong.saturating_add(report(rt, word.as_str(), tally)?);
    }
    Ok(wrong)
}

/// Checks all cases. Returns how many are wrong.
fn check_all<R: Env + Files + Print + Eprint + AllocGlobal>(rt: &R) -> io::Result<u64> {
    let of_files = check_files(rt)?;
    let statuses = report(rt, "statuses", check_statuses(rt)?)?;
    let surely = report(rt, "a run that nothing can stop", check_surely(rt))?;
    let long = report(rt, "long logs", check_long_logs(rt)?)?;
    Ok(
        of_files
            .saturating_add(statuses)
            .saturating_add(surely)
            .saturating_add(long),
    )
}

fn main(rt: HostRuntime) -> ExitCode {
    match check_all(&rt) {
        Ok(0) => ExitCode::SUCCESS,
        Ok(_) => ExitCode::FAILURE,
        Err(_) => {
            let _ = rt.eprint("a file of cases cannot be read\n");
            ExitCode::FAILURE
        }
    }
}
