//! `Placed`: the system with another path instead of a file's own.

use hints::Paths;
use host_io::Name;
use std::alloc::{Allocator, Global};
use std::cell::Cell;
use std::fs::{File, Metadata, OpenOptions, Permissions};
use std::io;
use std::io::{ErrorKind, PipeReader, PipeWriter};
use std::os::fd::BorrowedFd;
use std::os::unix::net::SocketAddr;
use std::path::PathBuf;
use std::rt::Files;

/// The names of the current folder in whose place other files may be read.
static PLACES: [Name; 3] = [Name::Peers, Name::Asmap, Name::Bans];

/// The system, with other files in the place of some of the current folder. A path is not looked up
/// again among the names of the folder. One that leads nowhere is an error and no missing file.
#[derive(Drop)]
pub(crate) struct Placed<'a> {
    rt: &'a HostRuntime,
    paths: Paths<'a>,
    /// The file whose path leads nowhere.
    missing: Cell<Option<Name>>,
}

impl<'a> Placed<'a> {
    /// Returns the system with these files.
    pub(crate) fn make(rt: &'a HostRuntime, paths: Paths<'a>) -> Placed<'a> {
        Placed {
            rt,
            paths,
            missing: Cell::new(None),
        }
    }

    /// Returns the file whose path leads nowhere, if one was looked for.
    pub(crate) fn missing(&self) -> Option<Name> {
        self.missing.get()
    }

    /// Returns the file of the current folder that has this name, and the path that is read in its
    /// place, if there is one.
    fn place(&self, file: &str) -> Option<(Name, &'a str)> {
        for name in PLACES {
            if name.file_name() == file {
                return match self.paths.of(name) {
                    Some(path) => Some((name, path)),
                    None => None,
                };
            }
        }
        None
    }

    /// Returns the error of a path: a file that is missing is not absent from the folder, unless it
    /// is the asmap beside peers.dat.
    fn error(&self, name: Name, error: io::Error) -> io::Error {
        let may_lack = name == Name::Asmap && self.paths.is_beside;
        if error.kind() != ErrorKind::NotFound || may_lack {
            return error;
        }
        self.missing.set(Some(name));
        io::Error::from(ErrorKind::Other)
    }
}

impl Alloc for Placed<'_> {
    type A = Global;

    fn alloc(&self) -> Global {
        self.rt.alloc()
    }
}

// The calls that no folder makes are answered as the bodies of std's trait do. Left out, such a
// method costs five times as much to prove.
impl Files for Placed<'_> {
    type File = File;

    type Dir = <HostRuntime as Files>::Dir;

    fn open_file(&self, how: &OpenOptions, path: &str) -> io::Result<File> {
        let Some((name, path)) = self.place(path) else {
            return self.rt.open_file(how, path);
        };
        match self.rt.open_file(how, path) {
            Ok(file) => Ok(file),
            Err(error) => Err(self.error(name, error)),
        }
    }

    fn metadata(&self, path: &str) -> io::Result<Metadata> {
        let Some((name, path)) = self.place(path) else {
            return self.rt.metadata(path);
        };
        match self.rt.metadata(path) {
            Ok(found) => Ok(found),
            Err(error) => Err(self.error(name, error)),
        }
    }

    fn rename(&self, from: &str, to: &str) -> io::Result<()> {
        self.rt.rename(from, to)
    }

    fn remove_file(&self, path: &str) -> io::Result<()> {
        self.rt.remove_file(path)
    }

    fn open_dir(&self, path: &str) -> io::Result<<HostRuntime as Files>::Dir> {
        self.rt.open_dir(path)
    }

    fn symlink_metadata(&self, _path: &str) -> io::Result<Metadata> {
        unsupported()
    }

    fn copy(&self, _from: &str, _to: &str) -> io::Result<u64> {
        unsupported()
    }

    fn create_dir(&self, _path: &str) -> io::Result<()> {
        unsupported()
    }

    fn remove_dir(&self, _path: &str) -> io::Result<()> {
        unsupported()
    }

    fn remove_dir_all<B: Allocator>(&self, _alloc: B, _path: &str) -> io::Result<()> {
        unsupported()
    }

    fn canonicalize<B: Allocator>(&self, _alloc: B, _path: &str) -> io::Result<PathBuf<B>> {
        unsupported()
    }

    fn read_link<B: Allocator>(&self, _alloc: B, _path: &str) -> io::Result<PathBuf<B>> {
        unsupported()
    }

    fn hard_link(&self, _original: &str, _link: &str) -> io::Result<()> {
        unsupported()
    }

    fn set_permissions(&self, _path: &str, _permissions: Permissions) -> io::Result<()> {
        unsupported()
    }

    fn symlink(&self, _original: &str, _link: &str) -> io::Result<()> {
        unsupported()
    }

    fn pipe(&self) -> io::Result<(PipeReader, PipeWriter)> {
        unsupported()
    }

    fn chown(&self, _path: &str, _user: Option<u32>, _group: Option<u32>) -> io::Result<()> {
        unsupported()
    }

    fn lchown(&self, _path: &str, _user: Option<u32>, _group: Option<u32>) -> io::Result<()> {
        unsupported()
    }

    fn create_dir_with_mode(&self, _path: &str, _mode: u32) -> io::Result<()> {
        unsupported()
    }

    fn bind_unix(&self, _socket: BorrowedFd<'_>, _address: &SocketAddr) -> io::Result<()> {
        unsupported()
    }
}

/// Returns the error of a call that is not made.
fn unsupported<T>() -> io::Result<T> {
    Err(io::Error::from(ErrorKind::Unsupported))
}
