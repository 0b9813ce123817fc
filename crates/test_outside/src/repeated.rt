//! Saves of peers.dat one after another, in a folder in memory of which calls fail, and what
//! crashes leave of the file and of the temporary one.

use crate::mark::{SAVES, push_marks};
use host_io::{Bytes, Failed, Folder, MemFolder, Memory, Name};
use save_store::{SaveJob, save};
use std::alloc::{AllocError, Global};
use std::io;

/// How a file is saved.
#[derive(Clone, Copy)]
enum Way {
    /// In the five calls of `save`.
    Whole,
    /// By a job of one step before its end, in six calls.
    Pieces,
}

/// Saves of which calls fail.
#[derive(Clone, Copy)]
struct Stop {
    way: Way,
    /// The number of the first call that fails, from 0.
    call: u64,
    /// Whether that call is made all the same.
    is_made: bool,
    /// Whether all calls after it fail too. Then two files are saved, and otherwise three.
    is_lasting: bool,
}

impl Stop {
    /// Returns the words for it: `whole, from call 3 made: `.
    fn words(self, alloc: Global) -> Result<String, AllocError> {
        let way = match self.way {
            Way::Whole => "whole",
            Way::Pieces => "pieces",
        };
        let from = if self.is_lasting { "from " } else { "" };
        let made = if self.is_made { "made" } else { "not made" };
        format!(in alloc; "{way}, {from}call {} {made}: ", self.call)
    }

    /// Returns the calls that fail, and whether each is made all the same.
    fn fails(self, alloc: Global) -> Result<Vec<(u64, bool)>, AllocError> {
        let mut fails = Vec::new(alloc);
        fails.push((self.call, self.is_made))?;
        let count = if self.is_lasting { 16 } else { 1 };
        for more in 1..count {
            fails.push((self.call.saturating_add(more), false))?;
        }
        Ok(fails)
    }
}

/// Saves a file by its first byte and the rest.
fn save_in_pieces<F: Folder>(folder: &mut F, bytes: Bytes) -> Result<(), Failed> {
    let job = SaveJob::begin(folder, Name::PeersTemp, bytes)?;
    let job = job.step(folder, 1)?;
    job.end(folder, Name::Peers)
}

/// Saves a file, and returns `y` if that succeeded and `n` if not.
fn saved(
    alloc: Global,
    folder: &mut MemFolder,
    way: Way,
    bytes: &[u8],
) -> Result<&'static str, AllocError> {
    let result = match way {
        Way::Whole => save(folder, Name::PeersTemp, Name::Peers, bytes),
        Way::Pieces => save_in_pieces(folder, Bytes::of(bytes.to_vec(alloc)?)),
    };
    Ok(if result.is_ok() { "y" } else { "n" })
}

/// Makes the saves in the folder. Appends how each went and what crashes leave.
fn push_saves(
    alloc: Global,
    folder: &mut MemFolder,
    stop: Stop,
    text: &mut String,
) -> Result<(), Memory> {
    let count = if stop.is_lasting { 2 } else { 3 };
    for file in SAVES.iter().take(count) {
        text.push_str(saved(alloc, folder, stop.way, *file)?)?;
    }
    text.push_str(", ")?;
    push_marks(text, folder, Name::Peers)?;
    text.push_str("; temporary: ")?;
    push_marks(text, folder, Name::PeersTemp)
}

/// Makes the saves in a folder in which these calls fail.
fn push_stopped(
    alloc: Global,
    stop: Stop,
    fails: &[(u64, bool)],
    text: &mut String,
) -> Result<(), Memory> {
    let mut folder = MemFolder::make(alloc, fails)?;
    push_saves(alloc, &mut folder, stop, text)
}

/// Makes the saves, and returns the line about them.
fn line_of(alloc: Global, stop: Stop) -> Result<String, Memory> {
    let fails = stop.fails(alloc)?;
    let mut line = stop.words(alloc)?;
    push_stopped(alloc, stop, fails.as_slice(), &mut line)?;
    Ok(line)
}

/// Prints the line about the saves.
fn print_line<R: Print + AllocGlobal>(rt: &R, stop: Stop) -> io::Result<()> {
    match line_of(rt.alloc(), stop) {
        Ok(line) => println!(rt; "{line}"),
        Err(_) => println!(rt; "out of memory"),
    }
}

/// Prints the lines of saves of which a call fails, from call 0 to 12.
fn print_calls<R: Print + AllocGlobal>(
    rt: &R,
    way: Way,
    is_made: bool,
    is_lasting: bool,
) -> io::Result<()> {
    for call in 0..13 {
        print_line(
            rt,
            Stop {
                way,
                call,
                is_made,
                is_lasting,
            },
        )?;
    }
    Ok(())
}

/// Prints the lines of calls that fail and are made all the same, or not.
fn print_ways<R: Print + AllocGlobal>(rt: &R, is_made: bool) -> io::Result<()> {
    print_calls(rt, Way::Whole, is_made, true)?;
    print_calls(rt, Way::Pieces, is_made, true)?;
    print_calls(rt, Way::Whole, is_made, false)?;
    print_calls(rt, Way::Pieces, is_made, false)
}

/// Prints the lines of all such saves: the call that fails, whether it is made all the same, how
/// each save ended, the file as it reads and what crashes leave of it; and the same of the
/// temporary file.
pub(crate) fn print_repeated<R: Print + AllocGlobal>(rt: &R) -> io::Result<()> {
    print_ways(rt, false)?;
    print_ways(rt, true)
}
