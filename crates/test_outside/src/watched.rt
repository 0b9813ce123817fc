//! The system calls that the calls of a folder make, what they answer if one of those fails or is
//! odd, and what is loaded of a file that has another length than it said.

use crate::folder_call::{FolderCall, answer, print_answers};
use crate::saves::print_loaded;
use crate::watch::{Fault, Plan, Watch};
use host_io::{DirFolder, Lock, Name};
use std::cell::Cell;
use std::io;
use std::io::ErrorKind;
use std::rt::Files;

/// Calls that replace peers.dat and read it.
static CALLS: [FolderCall<'static>; 7] = [
    FolderCall::Create(Name::PeersTemp),
    FolderCall::Append(Name::PeersTemp, "bitcoin"),
    FolderCall::Sync(Name::PeersTemp),
    FolderCall::Rename(Name::PeersTemp, Name::Peers),
    FolderCall::SyncDir,
    FolderCall::Size(Name::Peers),
    FolderCall::Read(Name::Peers, 3),
];

/// How many calls of the system those make.
const SYSTEM_CALLS: u32 = 15;

/// What happens to one of the calls.
static FAULTS: [Fault; 7] = [
    Fault::Error(ErrorKind::NotFound),
    Fault::Error(ErrorKind::PermissionDenied),
    Fault::Error(ErrorKind::Interrupted),
    Fault::Error(ErrorKind::StorageFull),
    Fault::Error(ErrorKind::NotADirectory),
    Fault::Error(ErrorKind::WouldBlock),
    Fault::Odd,
];

/// What is printed of a folder that is watched.
#[derive(Clone, Copy)]
enum Part {
    /// The calls, with the system calls that they make and their answers.
    Calls,
    /// The answers of the calls.
    Answers,
    /// What is loaded of peers.dat.
    Load,
}

/// Prints the answers of the calls in a line.
fn print_line<R: Print + AllocGlobal, F: Files + Alloc>(
    rt: &R,
    folder: &mut DirFolder<'_, F>,
) -> io::Result<()>
where
    F::File: Lock,
{
    for call in &CALLS {
        let answer = answer(rt.alloc(), folder, *call)?;
        print!(rt; " {}", answer.as_str())?;
    }
    println!(rt; ", in use: {}", folder.is_in_use())
}

/// Prints a part of the folder that these calls of the system reach.
fn print_part<R: Print + AllocGlobal, F: Files + Alloc>(
    rt: &R,
    part: Part,
    files: &F,
) -> io::Result<()>
where
    F::File: Lock,
{
    let mut folder = DirFolder::make(files);
    match part {
        Part::Calls => print_answers(rt, &mut folder, &CALLS),
        Part::Answers => print_line(rt, &mut folder),
        Part::Load => print_loaded(rt, &mut folder, 20),
    }
}

/// Prints a part of a folder to one of whose system calls this happens, and whose files say that
/// they have this length.
fn print_watch<R: Files + Print + AllocGlobal>(
    rt: &R,
    part: Part,
    fault: Option<(u32, Fault)>,
    len: Option<u64>,
) -> io::Result<()>
where
    R::File: Lock,
{
    let plan = Plan {
        calls: Cell::new(0),
        fault,
        prints: matches!(part, Part::Calls),
        len,
    };
    print_part(rt, part, &Watch { rt, plan: &plan })
}

/// Prints the answers of the calls while each of these happens to each system call.
fn print_faults<R: Files + Print + AllocGlobal>(rt: &R) -> io::Result<()>
where
    R::File: Lock,
{
    for number in 0..SYSTEM_CALLS {
        for fault in &FAULTS {
            print!(rt; "{number} {fault:?}:")?;
            print_watch(rt, Part::Answers, Some((number, *fault)), None)?;
        }
    }
    Ok(())
}

/// Prints all of these.
pub(crate) fn print_watched<R: Files + Print + AllocGlobal>(rt: &R) -> io::Result<()>
where
    R::File: Lock,
{
    print_watch(rt, Part::Calls, None, None)?;
    print_faults(rt)?;
    print_watch(rt, Part::Load, None, Some(2))?;
    print_watch(rt, Part::Load, None, Some(20))
}
