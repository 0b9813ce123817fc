//! What a folder in memory records of each call: `Call`, `Action` and `Change`.

use crate::list::Bytes;
use crate::name::Name;

/// A call of `Folder`, as a folder in memory records it.
#[derive(Drop)]
pub struct Call {
    /// The number of the call, from 0.
    pub number: u64,
    /// What was asked for.
    pub action: Action,
}

/// What a call of `Folder` asks for.
#[derive(Drop)]
pub enum Action {
    /// The length of a file.
    Size {
        /// The name of the file.
        name: Name,
    },
    /// The bytes of a file.
    Read {
        /// The name of the file.
        name: Name,
        /// The offset in bytes of the first byte.
        at: u64,
    },
    /// An empty file.
    Create {
        /// The name of the file.
        name: Name,
    },
    /// Bytes at the end of a file.
    Append {
        /// The name of the file.
        name: Name,
        /// How many bytes.
        count: u64,
    },
    /// The bytes of a file safe.
    Sync {
        /// The name of the file.
        name: Name,
    },
    /// A file at another name.
    Rename {
        /// Its name before.
        from: Name,
        /// Its name after.
        to: Name,
    },
    /// The names of the folder safe.
    SyncDir,
}

/// A change of a folder in memory: what a call of `Folder` did, or `MemFolder::put`.
#[derive(Drop)]
pub enum Change {
    /// A file was put there, with its bytes and its name safe.
    Put {
        /// The name of the file.
        name: Name,
        /// All its bytes.
        bytes: Bytes,
    },
    /// A file was created.
    Created {
        /// The name of the file.
        name: Name,
    },
    /// Bytes were appended to a file.
    Appended {
        /// The name of the file.
        name: Name,
        /// The bytes.
        bytes: Bytes,
    },
    /// A file was synced.
    Synced {
        /// The name of the file.
        name: Name,
    },
    /// A file was renamed.
    Renamed {
        /// Its name before.
        from: Name,
        /// Its name after.
        to: Name,
    },
    /// The folder was synced.
    FolderSynced,
}
