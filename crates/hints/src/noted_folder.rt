//! `NotedFolder`: a folder that counts saves and reports those that failed.

ghost use Rattle.std.specs.Prelude.{◌≡◌, ◌≤◌, length, IfSome, IsNone, None};
ghost use Rattle.std.proofs.Props.{props};

use crate::failures::failure_hint;
use crate::files::Paths;
use host_io::{DirFolder, Failed, Failure, Folder, Name};
use std::alloc::{AllocError, Global};
use std::rt::Files;

/// How many saves of a run were done, and how many failed.
#[derive(Clone, Copy)]
pub struct Saves {
    pub done: u64,
    pub failed: u64,
    /// Whether the last one failed.
    pub is_unsaved: bool,
}

/// A folder that keeps why a call failed.
pub trait KeepsFailure {
    /// Returns the call that failed last.
    fn last_failure(&self) -> Option<Failure>;

    /// Returns `true` if the last `create` failed because another program was saving in the folder.
    fn is_in_use(&self) -> bool;
}

impl<'a, R: Files + Alloc> KeepsFailure for DirFolder<'a, R> {
    fn last_failure(&self) -> Option<Failure> {
        DirFolder::last_failure(self)
    }

    fn is_in_use(&self) -> bool {
        DirFolder::is_in_use(self)
    }
}

/// A folder, with the saves counted. A save that fails is reported at once, if the run goes on
/// after it. A listing may be in the place of peers.dat.
#[derive(Drop)]
pub struct NotedFolder<'a, R, F: Folder> {
    folder: F,
    listing: Option<&'a [u8]>,
    notes: Notes<'a, R>,
    ghost unknown: { IfSome listing (λ _. IsNone (F.past folder)) } by { Prim.hlevel props },
}

/// The saves, and whether those that fail are reported.
#[derive(Drop)]
struct Notes<'a, R> {
    rt: &'a R,
    tells_saves: bool,
    saves: Saves,
}

impl<'a, R: AllocGlobal + Eprint, F: Folder + KeepsFailure> NotedFolder<'a, R, F> {
    /// Returns this folder. If the run goes on after a save that failed, `tells_saves` says so. The
    /// listing, if there is one, is read as peers.dat, in a folder whose files contracts do not
    /// know.
    pub fn make(
        rt: &'a R,
        folder: F,
        tells_saves: bool,
        listing: Option<&'a [u8]>,
    ) -> NotedFolder<'a, R, F>
        requires { IfSome listing (λ _. IsNone (F.past folder)) }
        ensures { result.folder ≡ folder }
    {
        NotedFolder {
            folder,
            listing,
            notes: Notes {
                rt,
                tells_saves,
                saves: Saves {
                    done: 0,
                    failed: 0,
                    is_unsaved: false,
                },
            },
        }
    }

    /// Returns how many saves were done, and how many failed.
    pub fn saves(&self) -> Saves {
        self.notes.saves
    }

    /// Returns the text for the last call that failed, or an empty one. A file of another path is
    /// called by that.
    pub fn failure_text(&self, paths: &Paths<'_>) -> Result<String, AllocError> {
        failure_text(self.notes.rt.alloc(), &self.folder, paths)
    }

    /// Returns what is read in the place of a file of the folder, if something is.
    fn listing_as(&self, name: Name) -> Option<&'a [u8]>
        ensures { IfSome result (λ _. IsNone (F.past self.now.folder)) }
    {
        if name == Name::Peers {
            self.listing
        } else {
            None
        }
    }
}

impl<'a, R: AllocGlobal + Eprint> Notes<'a, R> {
    /// Counts a save that failed, and says so, if the run goes on.
    fn note<F: KeepsFailure>(&mut self, outcome: &Result<(), Failed>, folder: &F) {
        if outcome.is_ok() || !self.tells_saves {
            return;
        }
        self.saves.failed = self.saves.failed.saturating_add(1);
        self.saves.is_unsaved = true;
        if let Ok(text) = failure_text(self.rt.alloc(), folder, &Paths::none()) {
            let _ = eprintln!(self.rt; "addrman: not saved: {}", text.as_str());
        }
    }
}

/// Returns the text for the last call of a folder that failed, or an empty one.
fn failure_text<F: KeepsFailure>(
    alloc: Global,
    folder: &F,
    paths: &Paths<'_>,
) -> Result<String, AllocError> {
    match folder.last_failure() {
        Some(failure) => failure_hint(alloc, &failure, folder.is_in_use(), paths),
        None => Ok(String::new(alloc)),
    }
}

/// Copies the bytes at offset `at` to the start of `buf`, and returns how many.
fn copy_from(bytes: &[u8], at: u64, buf: &mut [u8]) -> usize
    ensures { result ≤ length buf.old }
{
    let start = bytes.len().min(at as usize);
    let left = &bytes[start..];
    let count = left.len().min(buf.len());
    buf[..count].copy_from_slice(&left[..count]);
    count
}

impl<'a, R: AllocGlobal + Eprint, F: Folder + KeepsFailure> Folder for NotedFolder<'a, R, F> {
    ghost past = { λ f. F.past f.folder };

    ghost faults = { λ f. F.faults f.folder };

    ghost calls = { λ _. None };

    fn size(&mut self, name: Name) -> Result<Option<u64>, Failed> {
        match self.listing_as(name) {
            Some(listing) => Ok(Some(listing.len() as u64)),
            None => self.folder.size(name),
        }
    }

    fn read(&mut self, name: Name, at: u64, buf: &mut [u8]) -> Result<usize, Failed> {
        match self.listing_as(name) {
            Some(listing) => Ok(copy_from(listing, at, buf)),
            None => self.folder.read(name, at, buf),
        }
    }

    fn create(&mut self, name: Name) -> Result<(), Failed> {
        let created = self.folder.create(name);
        self.notes.note(&created, &self.folder);
        created
    }

    fn append(&mut self, name: Name, bytes: &[u8]) -> Result<(), Failed> {
        let appended = self.folder.append(name, bytes);
        self.notes.note(&appended, &self.folder);
        appended
    }

    fn sync(&mut self, name: Name) -> Result<(), Failed> {
        let synced = self.folder.sync(name);
        self.notes.note(&synced, &self.folder);
        synced
    }

    fn rename(&mut self, from: Name, to: Name) -> Result<(), Failed> {
        let renamed = self.folder.rename(from, to);
        self.notes.note(&renamed, &self.folder);
        renamed
    }

    /// A save ends with the sync of the folder.
    fn sync_dir(&mut self) -> Result<(), Failed> {
        let synced = self.folder.sync_dir();
        self.notes.note(&synced, &self.folder);
        if synced.is_ok() {
            self.notes.saves.done = self.notes.saves.done.saturating_add(1);
            self.notes.saves.is_unsaved = false;
        }
        synced
    }
}
