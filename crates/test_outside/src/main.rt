//! Calls of the current folder of the system, also while its system calls fail, and of sources and
//! sinks over readers and writers, and what crashes leave of a folder in memory, also after saves
//! that were stopped. Each call is printed with its answer, and the output is compared with the
//! answers that are right.
#![tactic(auto)]

mod crashes;
mod folder_call;
mod mark;
mod repeated;
mod saves;
mod sources;
mod watch;
mod watched;
mod writers;

use host_io::Lock;
use std::os::unix::fs::symlink;
use std::process::ExitCode;
use std::rt::Files;
use std::{fs, io};

/// Makes a folder, a file with another name, a link and a link to itself under the names of files.
fn prepare<R: Files + AllocGlobal>(rt: &R) -> io::Result<()> {
    fs::create_dir(rt, "banlist.json")?;
    fs::write(rt, "asmap.dat", "bitcoin")?;
    fs::hard_link(rt, "asmap.dat", "asmap.tmp")?;
    symlink(rt, "asmap.dat", "banlist.tmp")?;
    symlink(rt, "prefixes.txt", "prefixes.txt")
}

/// Prints all answers.
fn print_all<R: Files + Print + AllocGlobal>(rt: &R) -> io::Result<()>
where
    R::File: Lock,
{
    sources::print_pieces(rt)?;
    writers::print_counts(rt)?;
    prepare(rt)?;
    folder_call::print_calls(rt)?;
    folder_call::print_turns(rt)?;
    saves::print_saves(rt)?;
    watched::print_watched(rt)?;
    crashes::print_crashes(rt)?;
    repeated::print_repeated(rt)
}

fn main(rt: HostRuntime) -> ExitCode {
    match print_all(&rt) {
        Ok(()) => ExitCode::SUCCESS,
        Err(_) => ExitCode::FAILURE,
    }
}
