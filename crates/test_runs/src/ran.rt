//! `Ran` runs a case, and compares the status, the output, the files and the log that is left.

ghost use Rattle.std.specs.Prelude.{◌≡◌, true, string_bytes};

use crate::calls::calls_of;
use crate::case::{Case, Left};
use crate::images::{has_images, list_tables};
use crate::unread::Unread;
use addrman_run::{Status, code, run, status_line};
use host_io::{Folder, MemFolder, MemSink, MemSource, NAMES, Name, Sink, Source};
use sha2::{Digest, Sha256};
use std::alloc::{AllocError, Global};
use std::hash::{BuildHasherDefault, FoldHasher};

/// How a case went.
#[derive(Drop)]
pub(crate) struct Ran {
    /// The exit code, and after a space the text of the status.
    pub end: String,
    pub written: Vec<u8>,
    /// The folder has the files, the calls and the images and the log the bytes that the case
    /// wants, and no call ran out of memory.
    pub is_steady: bool,
}

/// Whether the run went as the case wants.
pub(crate) fn is_right(case: &Case, ran: &Ran) -> bool
    ensures end { result ≡ true → string_bytes ran.now.end ≡ string_bytes case.now.end }
    ensures written { result ≡ true → ran.now.written.items ≡ case.now.replies.items }
    ensures steady { result ≡ true → ran.now.is_steady ≡ true }
{
    if ran.end != case.end || ran.written.as_slice() != case.replies.as_slice() {
        return false;
    }
    ran.is_steady
}

/// Returns the exit code and the line on standard error, without the program's name and the line
/// feed.
pub(crate) fn end_of(alloc: Global, status: &Status) -> Result<String, Unread> {
    let mut line = Vec::new(alloc);
    if status_line(status, &mut line).is_err() {
        return Err(Unread::Memory);
    }
    let code = code(status);
    if line.is_empty() {
        return Ok(format!(in alloc; "{code}")?);
    }
    let Ok(line) = str::from_utf8(line.as_slice()) else {
        return Err(Unread::Form);
    };
    let Some(text) = line.strip_prefix("addrman: ") else {
        return Err(Unread::Form);
    };
    match text.strip_suffix("\n") {
        Some(text) => Ok(format!(in alloc; "{code} {text}")?),
        None => Err(Unread::Form),
    }
}

/// Returns what the case wants at a name that is not to be as before.
fn left_at(case: &Case, name: Name) -> Option<&Left> {
    for left in case.left.as_slice() {
        if left.name == name {
            return Some(left);
        }
    }
    None
}

/// Returns the file that the case put under a name.
fn file_at(case: &Case, name: Name) -> Option<&[u8]> {
    for file in case.files.as_slice() {
        if file.name == name {
            return Some(file.bytes.as_slice());
        }
    }
    None
}

/// Returns the file that the case wants at a name after the run.
fn wanted_at(case: &Case, name: Name) -> Option<&[u8]> {
    let Some(left) = left_at(case, name) else {
        return file_at(case, name);
    };
    match &left.bytes {
        Some(bytes) => Some(bytes.as_slice()),
        None => None,
    }
}

/// Whether the name has what the case wants there. If it says what crashes leave, the first image
/// is the folder as it reads, and temporary files are as they may be.
fn is_name_as_wanted(folder: &MemFolder, case: &Case, name: Name) -> bool {
    let is_apart = match &case.images {
        Some(images) => name == images.name || name.file_name().ends_with(".tmp"),
        None => false,
    };
    is_apart || folder.get(name) == wanted_at(case, name)
}

/// Whether each name has what the case wants there.
fn is_as_wanted(folder: &MemFolder, case: &Case) -> bool {
    for name in NAMES {
        if !is_name_as_wanted(folder, case, name) {
            return false;
        }
    }
    true
}

/// Whether the folder's calls are those that the case wants, if it says which.
fn has_calls(alloc: Global, folder: &MemFolder, case: &Case) -> Result<bool, Unread> {
    let Some(calls) = &case.calls else {
        return Ok(true);
    };
    Ok(calls_of(alloc, folder.history())? == *calls)
}

/// Puts the files of the case into the folder.
fn put_files(folder: &mut MemFolder, case: &Case) -> Result<(), Unread> {
    for file in case.files.as_slice() {
        folder.put(file.name, file.bytes.as_slice())?;
    }
    Ok(())
}

/// Reads what is left of a log that had this many bytes, and returns how many bytes that is.
fn unread(log: &mut MemSource, length: usize) -> u64 {
    let mut left = 0u64;
    let mut byte = [0u8; 1];
    for _ in 0..length {
        if let Ok(count) = log.read(&mut byte) {
            left = left.saturating_add(count as u64);
        }
    }
    left
}

/// Whether as many bytes are left of the log as the case wants.
fn is_read_as_wanted(log: &mut MemSource, case: &Case) -> bool {
    match case.unread {
        Some(count) => unread(log, case.log.len()) == count,
        None => true,
    }
}

/// Whether the text has the SHA-256 in hexadecimal.
fn has_sum(alloc: Global, text: &[u8], sum: &str) -> Result<bool, AllocError> {
    let digest = hex::encode(alloc, Sha256::digest(text).as_slice())?;
    Ok(digest.as_str() == sum)
}

/// Whether a replay of `dump` in the folder writes the text that the case wants, if it says which.
fn has_dump(alloc: Global, folder: &mut MemFolder, case: &Case) -> Result<bool, Unread> {
    let Some(sum) = &case.dump_sum else {
        return Ok(true);
    };
    let listing = list_tables(alloc, folder)?;
    let has_sum = has_sum(alloc, listing.text.as_slice(), sum.as_str())?;
    Ok(listing.status == Status::Done && has_sum)
}

/// Returns what was written, and nothing if it has the sum that the case wants in its place.
fn written_of(alloc: Global, text: &[u8], case: &Case) -> Result<Vec<u8>, AllocError> {
    if let Some(sum) = &case.sum {
        if has_sum(alloc, text, sum.as_str())? {
            return Ok(Vec::new(alloc));
        }
    }
    Vec::from_slice(alloc, text)
}

/// Runs the program with the arguments of the case.
pub(crate) fn status_of<L: Source, F: Folder, K: Sink>(
    alloc: Global,
    case: &Case,
    log: &mut L,
    folder: &mut F,
    out: &mut K,
) -> Status {
    let hasher = BuildHasherDefault::<FoldHasher>::new();
    run(alloc, hasher, case.arguments.as_slice(), log, folder, out)
}

/// Whether folder and log are left as the case wants, and no call ran out of memory.
fn is_steady(
    alloc: Global,
    case: &Case,
    log: &mut MemSource,
    folder: &mut MemFolder,
    out: &MemSink,
) -> Result<bool, Unread> {
    let has_room = out.starved() == 0 && folder.starved() == 0;
    let has_files = has_calls(alloc, folder, case)? && is_as_wanted(folder, case);
    let has_images = has_images(alloc, folder, case)?;
    let is_read = is_read_as_wanted(log, case);
    Ok(has_room && has_files && has_images && is_read && has_dump(alloc, folder, case)?)
}

/// Runs the program on the log, the folder and the output.
fn run_over(
    alloc: Global,
    case: &Case,
    log: &mut MemSource,
    folder: &mut MemFolder,
    out: &mut MemSink,
) -> Result<Ran, Unread> {
    put_files(folder, case)?;
    let status = status_of(alloc, case, log, folder, out);
    let is_steady = is_steady(alloc, case, log, folder, out)?;
    let written = written_of(alloc, out.bytes(), case)?;
    Ok(Ran {
        end: end_of(alloc, &status)?,
        written,
        is_steady,
    })
}

/// Runs the program on the log and the folder.
fn run_in(
    alloc: Global,
    case: &Case,
    log: &mut MemSource,
    folder: &mut MemFolder,
) -> Result<Ran, Unread> {
    let mut out = MemSink::make(alloc, case.failing_writes.as_slice())?;
    run_over(alloc, case, log, folder, &mut out)
}

/// Runs the program on the log.
fn run_from(alloc: Global, case: &Case, log: &mut MemSource) -> Result<Ran, Unread> {
    let mut folder = MemFolder::make(alloc, case.failing_calls.as_slice())?;
    run_in(alloc, case, log, &mut folder)
}

/// Runs the program on what the case gives. Each of these functions makes one object, since one
/// that has more of them takes long to prove.
pub(crate) fn run_case(alloc: Global, case: &Case) -> Result<Ran, Unread> {
    let log = case.log.as_slice();
    let mut log = MemSource::make(alloc, log, case.piece.max(1), case.failing_reads.as_slice())?;
    run_from(alloc, case, &mut log)
}
