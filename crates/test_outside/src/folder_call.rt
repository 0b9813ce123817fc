//! `FolderCall`, `CALLS` and `TURNS`: calls of a folder, printed with their answers.

use host_io::{DirFolder, Failed, Folder, Lock, Name};
use std::alloc::{AllocError, Global};
use std::io;
use std::rt::Files;

/// A call of a folder.
#[derive(Clone, Copy, Debug)]
pub(crate) enum FolderCall<'a> {
    Size(Name),
    /// The first bytes from the offset on, at most eight.
    Read(Name, u64),
    Create(Name),
    Append(Name, &'a str),
    Sync(Name),
    Rename(Name, Name),
    SyncDir,
}

/// Calls of a folder that has `bitcoin` in asmap.dat, a folder as banlist.json, as banlist.tmp a
/// link to asmap.dat, as asmap.tmp another name of that file, and as prefixes.txt a link to itself.
static CALLS: [FolderCall<'static>; 48] = [
    // No call but `create` makes a file.
    FolderCall::Size(Name::Peers),
    FolderCall::Read(Name::Peers, 0),
    FolderCall::Append(Name::PeersTemp, "bit"),
    FolderCall::Sync(Name::PeersTemp),
    FolderCall::Rename(Name::PeersTemp, Name::Peers),
    FolderCall::Size(Name::PeersTemp),
    // A file is renamed over none.
    FolderCall::Create(Name::PeersTemp),
    FolderCall::Append(Name::PeersTemp, "bit"),
    FolderCall::Append(Name::PeersTemp, ""),
    FolderCall::Append(Name::PeersTemp, "coin"),
    FolderCall::Sync(Name::PeersTemp),
    FolderCall::Rename(Name::PeersTemp, Name::Peers),
    FolderCall::SyncDir,
    FolderCall::Size(Name::PeersTemp),
    FolderCall::Size(Name::Peers),
    FolderCall::Read(Name::Peers, 3),
    FolderCall::Read(Name::Peers, 7),
    FolderCall::Read(Name::Peers, u64::MAX),
    // A file has no other name, and is renamed over another, which is read to its end.
    FolderCall::Size(Name::Asmap),
    FolderCall::Create(Name::AsmapTemp),
    FolderCall::Append(Name::AsmapTemp, "other"),
    FolderCall::Sync(Name::AsmapTemp),
    FolderCall::Rename(Name::AsmapTemp, Name::Asmap),
    FolderCall::SyncDir,
    FolderCall::Read(Name::Asmap, 4),
    FolderCall::Size(Name::AsmapTemp),
    FolderCall::Read(Name::Asmap, 1),
    // Only the file that was created last is written and renamed, and only until a call fails.
    FolderCall::Append(Name::AsmapTemp, "bit"),
    FolderCall::Append(Name::Asmap, "bit"),
    FolderCall::Sync(Name::Asmap),
    FolderCall::Rename(Name::Asmap, Name::Peers),
    FolderCall::Create(Name::PeersTemp),
    FolderCall::Append(Name::AsmapTemp, "bit"),
    FolderCall::Append(Name::PeersTemp, "bit"),
    FolderCall::Rename(Name::PeersTemp, Name::Peers),
    // A file that is there is created anew.
    FolderCall::Size(Name::PeersTemp),
    FolderCall::Create(Name::Peers),
    FolderCall::Size(Name::Peers),
    // Only a regular file is read, and all but a folder is replaced.
    FolderCall::Size(Name::Bans),
    FolderCall::Create(Name::Bans),
    FolderCall::Create(Name::BansTemp),
    FolderCall::Rename(Name::BansTemp, Name::Bans),
    FolderCall::Size(Name::BansTemp),
    FolderCall::Size(Name::Prefixes),
    FolderCall::Read(Name::Prefixes, 0),
    FolderCall::Create(Name::Prefixes),
    FolderCall::Size(Name::Prefixes),
    FolderCall::Size(Name::Asmap),
];

/// Returns `ok` or `failed`.
fn done_text(alloc: Global, answer: Result<(), Failed>) -> Result<String, AllocError> {
    match answer {
        Ok(()) => String::from_str(alloc, "ok"),
        Err(Failed) => String::from_str(alloc, "failed"),
    }
}

/// Returns the size in bytes, `absent` or `failed`.
fn size_text(alloc: Global, answer: Result<Option<u64>, Failed>) -> Result<String, AllocError> {
    match answer {
        Ok(Some(size)) => format!(in alloc; "{size} bytes"),
        Ok(None) => String::from_str(alloc, "absent"),
        Err(Failed) => String::from_str(alloc, "failed"),
    }
}

/// Reads, and returns what was read, or `failed`.
fn read_text<R: Files + Alloc>(
    alloc: Global,
    folder: &mut DirFolder<'_, R>,
    name: Name,
    at: u64,
) -> Result<String, AllocError>
where
    R::File: Lock,
{
    let mut buf = [0u8; 8];
    let text = match folder.read(name, at, &mut buf) {
        Ok(count) => str::from_utf8(&buf[..count]).unwrap_or("no text"),
        Err(Failed) => "failed",
    };
    format!(in alloc; "{text:?}")
}

/// Makes the call, and returns its answer.
pub(crate) fn answer<R: Files + Alloc>(
    alloc: Global,
    folder: &mut DirFolder<'_, R>,
    call: FolderCall<'_>,
) -> Result<String, AllocError>
where
    R::File: Lock,
{
    match call {
        FolderCall::Size(name) => size_text(alloc, folder.size(name)),
        FolderCall::Read(name, at) => read_text(alloc, folder, name, at),
        FolderCall::Create(name) => done_text(alloc, folder.create(name)),
        FolderCall::Append(name, text) => done_text(alloc, folder.append(name, text.as_bytes())),
        FolderCall::Sync(name) => done_text(alloc, folder.sync(name)),
        FolderCall::Rename(from, to) if from != to => done_text(alloc, folder.rename(from, to)),
        FolderCall::Rename(..) => String::from_str(alloc, "not called"),
        FolderCall::SyncDir => done_text(alloc, folder.sync_dir()),
    }
}

/// Makes the call, and prints it with its answer.
fn print_answer<R: Print + AllocGlobal, F: Files + Alloc>(
    rt: &R,
    folder: &mut DirFolder<'_, F>,
    call: FolderCall<'_>,
) -> io::Result<()>
where
    F::File: Lock,
{
    let answer = answer(rt.alloc(), folder, call)?;
    println!(rt; "{call:?}: {}", answer.as_str())
}

/// Makes the calls, and prints each with its answer.
pub(crate) fn print_answers<R: Print + AllocGlobal, F: Files + Alloc>(
    rt: &R,
    folder: &mut DirFolder<'_, F>,
    calls: &[FolderCall<'_>],
) -> io::Result<()>
where
    F::File: Lock,
{
    for call in calls {
        print_answer(rt, folder, *call)?;
    }
    Ok(())
}

/// Makes those calls of the current folder.
pub(crate) fn print_calls<R: Files + Print + AllocGlobal>(rt: &R) -> io::Result<()>
where
    R::File: Lock,
{
    print_answers(rt, &mut DirFolder::make(rt), &CALLS)
}

/// Calls of two programs in one folder, each with whether it is the second one's.
static TURNS: [(bool, FolderCall<'static>); 9] = [
    (false, FolderCall::Create(Name::PeersTemp)),
    (true, FolderCall::Create(Name::AsmapTemp)),
    (true, FolderCall::Size(Name::Peers)),
    (false, FolderCall::Rename(Name::PeersTemp, Name::Peers)),
    (true, FolderCall::Create(Name::PeersTemp)),
    (false, FolderCall::SyncDir),
    (true, FolderCall::Create(Name::PeersTemp)),
    (false, FolderCall::Create(Name::PeersTemp)),
    (true, FolderCall::Append(Name::PeersTemp, "bit")),
];

/// Makes the call, and prints it with its answer, and whether the folder was in use.
fn print_turn<R: Print + AllocGlobal, F: Files + Alloc>(
    rt: &R,
    folder: &mut DirFolder<'_, F>,
    call: FolderCall<'_>,
) -> io::Result<()>
where
    F::File: Lock,
{
    print_answer(rt, folder, call)?;
    println!(rt; "in use: {}", folder.is_in_use())
}

/// Makes those calls of the two programs.
pub(crate) fn print_turns<R: Files + Print + AllocGlobal>(rt: &R) -> io::Result<()>
where
    R::File: Lock,
{
    let mut first = DirFolder::make(rt);
    let mut second = DirFolder::make(rt);
    for (is_second, call) in &TURNS {
        if *is_second {
            print_turn(rt, &mut second, *call)?;
        } else {
            print_turn(rt, &mut first, *call)?;
        }
    }
    Ok(())
}
