//! The outside of a program: where bytes come from, where they go, and a folder of files.
//!
//! Contracts see of a `Source` the bytes that are left, of a `Sink` those written, and of a
//! `Folder` its files, what a crash may leave of them, how both were before each call, and the
//! calls; of each, how often its calls have failed. They know these of the objects in memory, not
//! of the adapters.
//! A vector that contracts see as the list of its items is a `ListOf`.
//!
//! Proved:
//! - A call answers `Failed` only if its object's count of faults rose in the call.
//! - Each call of a folder says how the files read afterwards and what a crash may leave of them,
//!   by the rules on `fsync` and `rename` in `specs/Disk.antt`.
//! - `write_all` writes all bytes, or a prefix of them and then fails (`all`, `err`).
//! - Objects in memory do exactly what their makers chose, unless memory runs out. What
//!   `MemFolder::crash` gives is a folder that a crash may leave (`image`). `SureSource`,
//!   `SureSink` and `SureFolder` never fail.
//!
//! Tested only, in `test_outside`: what the adapters `StdSource`, `StdSink` and `DirFolder` do with
//! the system, and which image `crash` gives for a choice.
#![tactic(auto)]

mod call;
mod dir_folder;
mod entry;
mod failed;
mod folder;
mod lines;
mod list;
mod mem_disk;
mod mem_folder;
mod name;
mod reading;
mod sink;
mod source;

pub use call::{Action, Call};
pub use dir_folder::{DirFolder, Lock};
pub use failed::{Failed, Failure, ReadFault, Tried, still_count_has_not_risen};
pub use folder::{Folder, SureFolder};
pub use lines::{LINE_FEED, is_passed_over, split_line};
pub use list::{Bytes, ListOf};
pub use mem_folder::MemFolder;
pub use memory::Memory;
pub use name::{NAMES, Name, PerName};
pub use reading::{PIECE, read_past, room};
pub use sink::{MemSink, Sink, StdSink, SureSink, write_all};
pub use source::{MemSource, Source, StdSource, SureSource};
