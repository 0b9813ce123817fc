//! What the program does around `run`: the arguments, the standard streams and the current folder
//! go in, an exit code and lines for standard error come out.
//!
//! Proved: the functions are safe and return. An `Ended` has the exit code of the status that it
//! was made of, and reports it (`code`).
//!
//! Tested only: that this is the status of `run`, or that a file which an option names is missing,
//! or that standard input has no listing that can be read, and that its line is written and then
//! those of `hints`, but for a run whose output nobody reads any more.
#![tactic(auto)]

mod ended;
mod given;
mod in_order;
mod placed;
mod second;

use crate::given::{Given, asmap_beside, folder_of};
use crate::in_order::put_in_order;
use crate::placed::Placed;
pub use crate::second::Facts;
use crate::second::second_lines;
use addrman_run::{Learned, Status, run_learning, status_line};
use arguments::{help_text, read_request};
pub use ended::Ended;
use hints::{NotedFolder, tilde_hint};
use host_io::{Bytes, DirFolder, Name, Source, StdSink, StdSource};
use raw_file::{InputFault, ListingFault, read_input};
use raw_read::{MAX_TEXT, RawFault};
use std::alloc::Global;
use std::fs::File;
use std::hash::RandomState;
use std::io::{ErrorKind, Read, Write};
use std::rt::{Env, Files};
use std::{env, io};

/// Returns the arguments after the program's name.
fn arguments_of(rt: &(impl Env + AllocGlobal)) -> io::Result<Vec<String>> {
    let mut words = Vec::new(rt.alloc());
    for word in env::args(rt)?.skip(1) {
        words.push(word)?;
    }
    Ok(words)
}

/// Says why the arguments cannot be read.
fn without_words(error: io::Error) -> &'static str {
    if error.kind() == ErrorKind::InvalidData {
        "addrman: the arguments cannot be read\naddrman: an argument or a file name is not UTF-8\n"
    } else {
        "addrman: the arguments cannot be read\n"
    }
}

/// Opens the root folder three times, so that descriptors 0 to 2 are open from here on. A standard
/// stream that was closed has a folder in its place, which can neither be read nor written, and no
/// file is opened as one of them.
fn open_closed_streams<R: Files>(rt: &R) -> io::Result<(R::File, R::File, R::File)> {
    let first = File::open(rt, "/")?;
    let second = File::open(rt, "/")?;
    let third = File::open(rt, "/")?;
    Ok((first, second, third))
}

/// Returns the list of the commands, and nothing if there is no memory for it.
fn list_of_commands(alloc: Global) -> String {
    match help_text(alloc, None) {
        Ok(text) => String::from_utf8(text).unwrap_or(String::new(alloc)),
        Err(_) => String::new(alloc),
    }
}

/// Returns the line that says why the run ended and those after it; nothing if the run is done and
/// all is well, if nobody reads the output's pipe any more, or if there is no memory for the line.
pub fn lines_of(alloc: Global, status: &Status, facts: &Facts<'_>) -> String {
    if *status == Status::WriteFault && facts.is_reader_gone() {
        return String::new(alloc);
    }
    let mut text = line_of(alloc, status);
    let after = if facts.words.is_empty() {
        list_of_commands(alloc)
    } else {
        second_lines(alloc, status, facts)
    };
    // If memory runs out, only the line is printed.
    let _ = text.push_str(after.as_str());
    text
}

/// Returns the line of a status, or nothing if there is no memory for it.
fn line_of(alloc: Global, status: &Status) -> String {
    let mut line = Vec::new(alloc);
    match status_line(status, &mut line) {
        Ok(()) => String::from_utf8(line).unwrap_or(String::new(alloc)),
        Err(_) => String::new(alloc),
    }
}

/// Returns how the program ends if it cannot go to a folder.
fn without_folder(alloc: Global, folder: &str, error: io::Error) -> Ended {
    let status = Status::DiskFault;
    let mut text = line_of(alloc, &status);
    let tilde = tilde_hint(folder);
    if let Ok(line) = format!(in alloc; "addrman: cannot change to {folder}: {error}{tilde}\n") {
        let _ = text.push_str(line.as_str());
    }
    Ended::with(&status, text)
}

/// Runs the program, which reads standard input and writes standard output, and returns how it
/// ended. `-C DIR` or `--dir=DIR` before the command is the folder of its files; `--peers FILE`,
/// `--asmap FILE`, `--bans FILE` and `--anchors FILE` are read in the place of files of that
/// folder. For `show --anchors` the file of anchors is in the place of peers.dat, and for `--raw -`
/// standard input.
pub fn run_program(rt: &HostRuntime) -> Ended {
    let Ok(_streams) = open_closed_streams(rt) else {
        return Ended::before_the_run("addrman: the standard streams cannot be opened\n");
    };
    let words = match arguments_of(rt) {
        Ok(words) => words,
        Err(error) => return Ended::before_the_run(without_words(error)),
    };
    let Ok(hasher) = RandomState::new(rt) else {
        return Ended::before_the_run("addrman: the system gives no random numbers\n");
    };
    let mut rest = words.as_slice();
    if let Some((folder, count)) = folder_of(rest) {
        if let Err(error) = env::set_current_dir(rt, folder) {
            return without_folder(rt.alloc(), folder, error);
        }
        if let Some(after) = rest.get(count..) {
            rest = after;
        }
    }
    let Ok(ordered) = put_in_order(rt.alloc(), rest) else {
        return Ended::before_the_run("addrman: the arguments cannot be read\n");
    };
    let Ok(beside) = asmap_beside(rt.alloc(), ordered.as_slice()) else {
        return Ended::before_the_run("addrman: the arguments cannot be read\n");
    };
    match Given::of(rt.alloc(), rt, ordered.as_slice(), beside.as_str()) {
        Ok(given) => run_over(rt, hasher, &given, rt.reader(), io::writer(rt)),
        Err(_) => Ended::before_the_run("addrman: the arguments cannot be read\n"),
    }
}

/// Returns the listing that is read in the place of peers.dat, if the arguments ask for one, or how
/// the run ends if it cannot be read.
fn listing_of<L: Source>(
    alloc: Global,
    given: &Given<'_>,
    log: &mut L,
) -> Result<Option<Bytes>, Status> {
    if !given.paths.has_listing || read_request(alloc, given.words.as_slice()).is_none() {
        return Ok(None);
    }
    match read_input(alloc, log, MAX_TEXT) {
        Ok(text) => Ok(Some(text)),
        Err(InputFault::Failed) => Err(Status::ReadFault),
        Err(InputFault::TooLarge) => {
            Err(Status::RawRefused(ListingFault::Text(RawFault::TooLarge)))
        }
        Err(InputFault::Memory) => Err(Status::Memory),
    }
}

/// Runs the program with these arguments over the current folder, a log and an output, and returns
/// how it ended. The file of an option is missing for each command that looks for it.
fn run_over<I: Read + Drop, O: Write + Drop>(
    rt: &HostRuntime,
    hasher: RandomState,
    given: &Given<'_>,
    input: I,
    output: O,
) -> Ended {
    let alloc = rt.alloc();
    let words = given.words.as_slice();
    let tells_saves = words.first().is_some_and(|word| word.as_str() == "replay");
    let placed = Placed::make(rt, given.paths);
    let mut log = StdSource::make(input);
    let listing = listing_of(alloc, given, &mut log);
    let text = match &listing {
        Ok(Some(text)) => Some(text.items()),
        _ => None,
    };
    let mut folder = NotedFolder::make(rt, DirFolder::make(&placed), tells_saves, text);
    let mut out = StdSink::make(output);
    let mut learned = Learned::make(alloc);
    let status = match &listing {
        Err(status) => *status,
        Ok(_) => run_learning(
            alloc,
            hasher,
            words,
            &mut log,
            &mut folder,
            &mut out,
            &mut learned,
        ),
    };
    let failure = folder
        .failure_text(&given.paths)
        .unwrap_or(String::new(alloc));
    let status = match placed.missing() {
        Some(Name::Peers) if given.paths.has_anchors => Status::NoAnchors,
        Some(name) => Status::NoFile { name },
        None => status,
    };
    let facts = Facts {
        words,
        hint: given.hint.as_str(),
        learned: &learned,
        paths: &given.paths,
        input: log.error(),
        output: out.error(),
        failure: failure.as_str(),
        saves: folder.saves(),
    };
    let said = lines_of(alloc, &status, &facts);
    Ended::with(&status, said)
}
