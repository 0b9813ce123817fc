//! `DirFolder`, the real current directory, with `flock`, permission bits, `fsync`, `rename` and
//! open files.

ghost use Rattle.std.specs.Prelude.{◌≡◌, ◌≢◌, ℕ, ◌<◌, ◌≤◌, length, IfOk, OnOk, OnErr, None};
ghost use Rattle.host_io.specs.declared.name.Name.{Name};
ghost use Rattle.host_io.specs.Faults.{Rose, raised};

use crate::failed::{Failed, Failure, Tried, fault};
use crate::folder::Folder;
use crate::name::Name;
use std::fs::{File, OpenFile, OpenOptions};
use std::io::{ErrorKind, Read, Seek, SeekFrom, Write};
use std::marker::Model;
use std::os::unix::fs::OpenOptionsExt;
use std::rt::Files;
use std::{fs, io};

/// An open file, or folder, that a program can have for itself.
pub trait Lock {
    /// Takes the lock, which lasts until the file is closed. If the file was opened a second time
    /// and that one has the lock, the call fails at once, with `WouldBlock`.
    fn lock(&self) -> io::Result<()>;
}

impl Lock for File {
    /// Calls `flock`.
    fn lock(&self) -> io::Result<()> {
        self.try_lock()?;
        Ok(())
    }
}

/// The current folder of the process. Contracts do not know its files.
///
/// The file whose size was asked last stays open until the next reading call on another name, so
/// that it is read as it was then, even if it is replaced meanwhile.
///
/// A save has the folder for itself. `create` locks the folder, and `sync_dir` or a fault of the
/// save unlocks it; so does the end of the process. `create` removes what has the name and makes a
/// file that no other name has, and only that file is written, synced and renamed.
///
/// Each error is a fault, and so is an interrupted call. What closing a file answers is not known.
#[derive(Drop)]
pub struct DirFolder<'a, R: Files> {
    rt: &'a R,
    /// The file that is read.
    open: Option<Open<R::File>>,
    /// The file that is written.
    written: Option<Open<R::File>>,
    /// The folder, as long as it is locked.
    lock: Option<R::File>,
    /// Whether another program had the lock when `create` was called last.
    is_in_use: bool,
    /// The call that failed last.
    last: Option<Failure>,
    faults: u64,
}

/// An open file.
#[derive(Drop)]
struct Open<T> {
    name: Name,
    file: T,
    /// Its size in bytes when it was opened.
    size: u64,
}

impl<'a, R: Files> Model for DirFolder<'a, R> {
    ghost Value = { ℕ };

    ghost view = { λ f. f.faults };
}

impl<'a, R: Files + Alloc> DirFolder<'a, R> {
    /// Returns the current folder, as `rt` reaches it. Contracts see it as its count of faults.
    pub fn make(rt: &'a R) -> DirFolder<'a, R>
        ensures { result ≡ 0 }
    {
        DirFolder {
            rt,
            open: None,
            written: None,
            lock: None,
            is_in_use: false,
            last: None,
            faults: 0,
        }
    }

    /// Returns `true` if the last `create` failed because another program was saving in the folder.
    pub fn is_in_use(&self) -> bool {
        self.is_in_use
    }

    /// Returns the call that failed last.
    pub fn last_failure(&self) -> Option<Failure> {
        self.last
    }

    /// Counts a fault, and keeps why.
    fn failed(&mut self, name: Option<Name>, tried: Tried, error: io::Error) -> Failed
        ensures counted { self.new ≡ raised self.old }
        ensures cause { Rose self.old self.new }
        ensures never_falls { self.old ≤ self.new }
    {
        self.last = Some(Failure { name, tried, error });
        fault(&mut self.faults)
    }

    /// Closes the open file and opens this one. Returns its size in bytes, or `None` if it is
    /// absent.
    fn reopen(&mut self, name: Name) -> io::Result<Option<u64>>
        ensures { self.new ≡ self.old }
    {
        self.open = None;
        match open_regular(self.rt, name.file_name()) {
            Ok((file, size)) => {
                self.open = Some(Open { name, file, size });
                Ok(Some(size))
            }
            Err(error) if error.kind() == ErrorKind::NotFound => Ok(None),
            Err(error) => Err(error),
        }
    }

    /// Reads once from the file, from offset `at` on. Opens it unless it is open. After the size that
    /// it had when it was opened there is nothing, so that no offset makes this fail.
    fn read_open(&mut self, name: Name, at: u64, buf: &mut [u8]) -> io::Result<usize>
        ensures within { IfOk result (λ n. n ≤ length buf.old) }
        ensures same { self.new ≡ self.old }
    {
        if !self.open.as_ref().is_some_and(|open| open.name == name) {
            self.reopen(name)?;
        }
        match &mut self.open {
            Some(open) if open.size < at => Ok(0),
            Some(open) => read_at(&mut open.file, at, buf),
            None => Err(io::Error::from(ErrorKind::NotFound)),
        }
    }

    /// Writes at the end of the file that was created last, which has to have this name.
    fn append_own(&mut self, name: Name, bytes: &[u8]) -> io::Result<()>
        ensures { self.new ≡ self.old }
    {
        match &mut self.written {
            Some(own) if own.name == name => write_whole(&mut own.file, bytes),
            _ => Err(io::Error::from(ErrorKind::NotFound)),
        }
    }

    /// Syncs the file that was created last, which has to have this name.
    fn sync_own(&mut self, name: Name) -> io::Result<()>
        ensures { self.new ≡ self.old }
    {
        match &self.written {
            Some(own) if own.name == name => own.file.sync_all(),
            _ => Err(io::Error::from(ErrorKind::NotFound)),
        }
    }

    /// Closes the file that was created last, which has to have the name `from`, and renames it.
    fn rename_own(&mut self, from: Name, to: Name) -> io::Result<()>
        ensures { self.new ≡ self.old }
    {
        match self.written.take() {
            Some(own) if own.name == from => {}
            _ => return Err(io::Error::from(ErrorKind::NotFound)),
        }
        fs::rename(self.rt, from.file_name(), to.file_name())
    }

    /// Syncs the folder, and unlocks it.
    fn sync_folder(&mut self) -> io::Result<()>
        ensures { self.new ≡ self.old }
    {
        match self.lock.take() {
            Some(folder) => folder.sync_all(),
            None => fs::open(self.rt, ".")?.sync_all(),
        }
    }

    /// Counts a fault if a call failed, which ends a save.
    fn counted(
        &mut self,
        name: Option<Name>,
        tried: Tried,
        outcome: io::Result<()>,
    ) -> Result<(), Failed>
        ensures steady { OnOk result (self.new ≡ self.old) }
        ensures counted { OnErr result (self.new ≡ raised self.old) }
        ensures cause { OnErr result (Rose self.old self.new) }
        ensures never_falls { self.old ≤ self.new }
    {
        match outcome {
            Ok(()) => Ok(()),
            Err(error) => {
                self.written = None;
                self.lock = None;
                Err(self.failed(name, tried, error))
            }
        }
    }
}

impl<'a, R: Files> DirFolder<'a, R>
where
    R::File: Lock,
{
    /// Locks the folder, unless it is locked.
    fn lock_folder(&mut self) -> io::Result<()>
        ensures { self.new ≡ self.old }
    {
        if self.lock.is_none() {
            let folder = fs::open(self.rt, ".")?;
            if let Err(error) = folder.lock() {
                self.is_in_use = error.kind() == ErrorKind::WouldBlock;
                return Err(error);
            }
            self.lock = Some(folder);
        }
        Ok(())
    }

    /// Locks the folder, makes a new file there and keeps it open.
    fn create_own(&mut self, name: Name) -> io::Result<()>
        ensures { self.new ≡ self.old }
    {
        self.written = None;
        self.is_in_use = false;
        self.lock_folder()?;
        let file = create_new(self.rt, name)?;
        self.written = Some(Open {
            name,
            file,
            size: 0,
        });
        Ok(())
    }
}

impl<'a, R: Files + Alloc> Folder for DirFolder<'a, R>
where
    R::File: Lock,
{
    ghost past = { λ _. None };

    ghost faults = { λ f. f };

    ghost calls = { λ _. None };

    /// Opens the file, keeps it open and returns its length, or `None` if no file has this name.
    /// Each other error is a fault, and so is anything of this name that is not a regular file.
    fn size(&mut self, name: Name) -> Result<Option<u64>, Failed>
        ensures steady { OnOk result (self.new ≡ self.old) }
        ensures counted { OnErr result (self.new ≡ raised self.old) }
        ensures cause { OnErr result (Rose self.old self.new) }
        ensures never_falls { self.old ≤ self.new }
    {
        match self.reopen(name) {
            Ok(size) => Ok(size),
            Err(error) => Err(self.failed(Some(name), Tried::Read, error)),
        }
    }

    /// Reads once from the open file, or from one that is opened for this. Each error is a fault. An
    /// offset after its size at opening is its end.
    fn read(&mut self, name: Name, at: u64, buf: &mut [u8]) -> Result<usize, Failed>
        requires { 0 < length buf.old }
        ensures within { IfOk result (λ n. n ≤ length buf.old) }
        ensures steady { OnOk result (self.new ≡ self.old) }
        ensures counted { OnErr result (self.new ≡ raised self.old) }
        ensures cause { OnErr result (Rose self.old self.new) }
        ensures never_falls { self.old ≤ self.new }
    {
        match self.read_open(name, at, buf) {
            Ok(count) => Ok(count),
            Err(error) => Err(self.failed(Some(name), Tried::Read, error)),
        }
    }

    /// Locks the folder, removes what has the name, and makes a new file, which stays open. A
    /// folder of this name is not removed, and is a fault.
    fn create(&mut self, name: Name) -> Result<(), Failed>
        ensures steady { OnOk result (self.new ≡ self.old) }
        ensures counted { OnErr result (self.new ≡ raised self.old) }
        ensures cause { OnErr result (Rose self.old self.new) }
        ensures never_falls { self.old ≤ self.new }
    {
        let outcome = self.create_own(name);
        self.counted(Some(name), Tried::Create, outcome)
    }

    /// Writes to the file that was created last, until all of `bytes` is written. It is a fault if
    /// that file has another name or was renamed.
    fn append(&mut self, name: Name, bytes: &[u8]) -> Result<(), Failed>
        ensures steady { OnOk result (self.new ≡ self.old) }
        ensures counted { OnErr result (self.new ≡ raised self.old) }
        ensures cause { OnErr result (Rose self.old self.new) }
        ensures never_falls { self.old ≤ self.new }
    {
        let outcome = self.append_own(name, bytes);
        self.counted(Some(name), Tried::Write, outcome)
    }

    /// Asks the system to write the file that was created last to the disk (`fsync`). It is a fault
    /// if that file has another name or was renamed.
    fn sync(&mut self, name: Name) -> Result<(), Failed>
        ensures steady { OnOk result (self.new ≡ self.old) }
        ensures counted { OnErr result (self.new ≡ raised self.old) }
        ensures cause { OnErr result (Rose self.old self.new) }
        ensures never_falls { self.old ≤ self.new }
    {
        let outcome = self.sync_own(name);
        self.counted(Some(name), Tried::Sync, outcome)
    }

    /// Closes the file that was created last, and renames it. It is a fault if that file has
    /// another name than `from` or was renamed.
    fn rename(&mut self, from: Name, to: Name) -> Result<(), Failed>
        requires { from ≢ to }
        ensures steady { OnOk result (self.new ≡ self.old) }
        ensures counted { OnErr result (self.new ≡ raised self.old) }
        ensures cause { OnErr result (Rose self.old self.new) }
        ensures never_falls { self.old ≤ self.new }
    {
        let outcome = self.rename_own(from, to);
        self.counted(Some(from), Tried::Rename, outcome)
    }

    /// Asks the system to write the folder itself to the disk (`fsync`), and unlocks it.
    fn sync_dir(&mut self) -> Result<(), Failed>
        ensures steady { OnOk result (self.new ≡ self.old) }
        ensures counted { OnErr result (self.new ≡ raised self.old) }
        ensures cause { OnErr result (Rose self.old self.new) }
        ensures never_falls { self.old ≤ self.new }
    {
        let outcome = self.sync_folder();
        self.counted(None, Tried::Sync, outcome)
    }
}

/// Opens a regular file, and returns it with its size in bytes. Nothing else is opened, since
/// opening a pipe may wait; what took the name just before it was opened is not read.
fn open_regular<R: Files>(rt: &R, path: &str) -> io::Result<(R::File, u64)> {
    if !rt.metadata(path)?.is_file() {
        return Err(io::Error::from(ErrorKind::InvalidInput));
    }
    let file = fs::open(rt, path)?;
    let found = file.metadata()?;
    if !found.is_file() {
        return Err(io::Error::from(ErrorKind::InvalidInput));
    }
    Ok((file, found.len()))
}

/// Reads once from an open file, from offset `at` on.
fn read_at<T: Read + Seek>(file: &mut T, at: u64, buf: &mut [u8]) -> io::Result<usize>
    ensures { IfOk result (λ n. n ≤ length buf.old) }
{
    file.seek(SeekFrom::Start(at))?;
    file.read(buf)
}

/// Removes what has the name, and makes a new file, which is opened to be written. Nothing that is
/// there is opened, so neither a link is followed nor a pipe waited for.
fn create_new<R: Files>(rt: &R, name: Name) -> io::Result<R::File> {
    match fs::remove_file(rt, name.file_name()) {
        Err(error) if error.kind() != ErrorKind::NotFound => return Err(error),
        _ => {}
    }
    OpenOptions::new()
        .write(true)
        .create_new(true)
        .mode(mode_of(name))
        .open(rt, name.file_name())
}

/// Returns the permission bits of a new file, of which the umask takes some: `peers.dat` has the
/// node's secret key, and is its owner's only.
fn mode_of(name: Name) -> u32 {
    match name {
        Name::Peers | Name::PeersTemp => 0o600,
        _ => 0o666,
    }
}

/// Writes all of `bytes`, in as many writes as it takes.
fn write_whole<T: Write>(file: &mut T, bytes: &[u8]) -> io::Result<()> {
    let mut done = 0;
    while done < bytes.len() {
        let count = file.write(&bytes[done..])?;
        if count == 0 {
            return Err(io::Error::from(ErrorKind::WriteZero));
        }
        done += count;
    }
    Ok(())
}
