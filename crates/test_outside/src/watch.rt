//! `Watch`: a system whose calls fail by a `Plan`.

use host_io::Lock;
use std::alloc::Allocator;
use std::cell::Cell;
use std::fmt::Debug;
use std::fs::{Metadata, OpenFile, OpenOptions, Permissions};
use std::io;
use std::io::{ErrorKind, PipeReader, PipeWriter, Read, Seek, SeekFrom, Write};
use std::os::fd::BorrowedFd;
use std::os::unix::net::SocketAddr;
use std::path::PathBuf;
use std::rt::Files;

/// What happens to a call of the system.
#[derive(Clone, Copy, Debug)]
pub(crate) enum Fault {
    /// It fails.
    Error(ErrorKind),
    /// A write takes no byte, and metadata is that of a device. Another call is made.
    Odd,
}

/// What happens to the calls of the system.
#[derive(Drop)]
pub(crate) struct Plan {
    /// How many calls there were.
    pub calls: Cell<u32>,
    /// The number of a call, from 0, and what happens to it.
    pub fault: Option<(u32, Fault)>,
    /// Whether each call is printed.
    pub prints: bool,
    /// What an open file says is its length.
    pub len: Option<u64>,
}

/// The folder of a runtime, whose calls follow a plan. A read gives at most three bytes, and a
/// write takes at most three.
#[derive(Drop)]
pub(crate) struct Watch<'a, R> {
    pub rt: &'a R,
    pub plan: &'a Plan,
}

/// An open file of such a folder.
#[derive(Drop)]
pub(crate) struct WatchedFile<'a, R: Files> {
    rt: &'a R,
    plan: &'a Plan,
    file: R::File,
}

impl Plan {
    /// Prints a call, if calls are printed, and counts it. Fails if it is to fail, and returns
    /// whether it is odd.
    fn begin(&self, rt: &impl Print, call: &str) -> io::Result<bool> {
        let number = self.calls.get();
        self.calls.set(number.saturating_add(1));
        if self.prints {
            println!(rt; "  {number} {call}")?;
        }
        match self.fault {
            Some((other, _)) if other != number => Ok(false),
            Some((_, Fault::Error(kind))) => Err(io::Error::from(kind)),
            Some((_, Fault::Odd)) => Ok(true),
            None => Ok(false),
        }
    }

    /// Prints a path, or how it is opened, if calls are printed.
    fn print_more(&self, rt: &impl Print, text: &impl Debug) -> io::Result<()> {
        if self.prints {
            println!(rt; "    {text:?}")?;
        }
        Ok(())
    }
}

impl<'a, R: Alloc> Alloc for Watch<'a, R> {
    type A = R::A;

    fn alloc(&self) -> R::A {
        self.rt.alloc()
    }
}

impl<'a, R: Files + Print> Files for Watch<'a, R> {
    type File = WatchedFile<'a, R>;

    type Dir = R::Dir;

    fn open_file(&self, how: &OpenOptions, path: &str) -> io::Result<WatchedFile<'a, R>> {
        self.plan.begin(self.rt, "open")?;
        self.plan.print_more(self.rt, &path)?;
        self.plan.print_more(self.rt, how)?;
        Ok(WatchedFile {
            rt: self.rt,
            plan: self.plan,
            file: self.rt.open_file(how, path)?,
        })
    }

    fn open_dir(&self, path: &str) -> io::Result<R::Dir> {
        self.rt.open_dir(path)
    }

    fn metadata(&self, path: &str) -> io::Result<Metadata> {
        let is_odd = self.plan.begin(self.rt, "metadata")?;
        self.rt.metadata(if is_odd { "/dev/null" } else { path })
    }

    fn symlink_metadata(&self, path: &str) -> io::Result<Metadata> {
        self.rt.symlink_metadata(path)
    }

    fn copy(&self, from: &str, to: &str) -> io::Result<u64> {
        self.rt.copy(from, to)
    }

    fn rename(&self, from: &str, to: &str) -> io::Result<()> {
        self.plan.begin(self.rt, "rename")?;
        self.plan.print_more(self.rt, &from)?;
        self.rt.rename(from, to)
    }

    fn remove_file(&self, path: &str) -> io::Result<()> {
        self.plan.begin(self.rt, "remove")?;
        self.plan.print_more(self.rt, &path)?;
        self.rt.remove_file(path)
    }

    fn create_dir(&self, path: &str) -> io::Result<()> {
        self.rt.create_dir(path)
    }

    fn remove_dir(&self, path: &str) -> io::Result<()> {
        self.rt.remove_dir(path)
    }

    fn remove_dir_all<B: Allocator>(&self, alloc: B, path: &str) -> io::Result<()> {
        self.rt.remove_dir_all(alloc, path)
    }

    // The bodies are those that std's trait has. Left out, such a method costs five times as much
    // to prove.
    fn canonicalize<B: Allocator>(&self, _alloc: B, _path: &str) -> io::Result<PathBuf<B>> {
        unsupported()
    }

    fn read_link<B: Allocator>(&self, _alloc: B, _path: &str) -> io::Result<PathBuf<B>> {
        unsupported()
    }

    fn hard_link(&self, _original: &str, _link: &str) -> io::Result<()> {
        unsupported()
    }

    fn set_permissions(&self, _path: &str, _permissions: Permissions) -> io::Result<()> {
        unsupported()
    }

    fn symlink(&self, _original: &str, _link: &str) -> io::Result<()> {
        unsupported()
    }

    fn pipe(&self) -> io::Result<(PipeReader, PipeWriter)> {
        unsupported()
    }

    fn chown(&self, _path: &str, _user: Option<u32>, _group: Option<u32>) -> io::Result<()> {
        unsupported()
    }

    fn lchown(&self, _path: &str, _user: Option<u32>, _group: Option<u32>) -> io::Result<()> {
        unsupported()
    }

    fn create_dir_with_mode(&self, _path: &str, _mode: u32) -> io::Result<()> {
        unsupported()
    }

    fn bind_unix(&self, _socket: BorrowedFd<'_>, _address: &SocketAddr) -> io::Result<()> {
        unsupported()
    }
}

/// Returns the error of a call that is not made.
fn unsupported<T>() -> io::Result<T> {
    Err(io::Error::from(ErrorKind::Unsupported))
}

impl<'a, R: Files + Print> Read for WatchedFile<'a, R> {
    fn read(&mut self, buf: &mut [u8]) -> io::Result<usize> {
        self.plan.begin(self.rt, "read")?;
        let most = buf.len().min(3);
        self.file.read(&mut buf[..most])
    }
}

impl<'a, R: Files + Print> Write for WatchedFile<'a, R> {
    fn write(&mut self, buf: &[u8]) -> io::Result<usize> {
        let most = if self.plan.begin(self.rt, "write")? {
            0
        } else {
            3
        };
        self.file.write(&buf[..buf.len().min(most)])
    }

    fn flush(&mut self) -> io::Result<()> {
        self.file.flush()
    }
}

impl<'a, R: Files + Print> Seek for WatchedFile<'a, R> {
    fn seek(&mut self, to: SeekFrom) -> io::Result<u64> {
        self.plan.begin(self.rt, "seek")?;
        self.file.seek(to)
    }
}

impl<'a, R: Files + Print> OpenFile for WatchedFile<'a, R> {
    fn metadata(&self) -> io::Result<Metadata> {
        if self.plan.begin(self.rt, "metadata of the file")? {
            return self.rt.metadata("/dev/null");
        }
        match self.plan.len {
            Some(len) => Ok(Metadata::of_file(len)),
            None => self.file.metadata(),
        }
    }

    fn set_len(&self, size: u64) -> io::Result<()> {
        self.file.set_len(size)
    }

    fn sync_all(&self) -> io::Result<()> {
        self.plan.begin(self.rt, "sync")?;
        self.file.sync_all()
    }

    fn sync_data(&self) -> io::Result<()> {
        self.file.sync_data()
    }
}

impl<'a, R: Files + Print> Lock for WatchedFile<'a, R>
where
    R::File: Lock,
{
    fn lock(&self) -> io::Result<()> {
        self.plan.begin(self.rt, "lock")?;
        self.file.lock()
    }
}
