//! Bitcoin Core's `peers.dat`: a file of peers is read, written, and listed.
//!
//! Contracts see a file as a `Snapshot`.
//!
//! Proved:
//! - `read_file` gives a snapshot exactly if the bytes are the file of it, in one of the formats 1
//!   to 4, and a fault exactly if it is the first that the bytes show, unless memory runs out.
//! - For each chain, a list of bytes has exactly one of the two meanings, and memory is no fault of
//!   bytes (`files_have_one_meaning`).
//! - `write_file` writes format 4; what it writes has no fault, is read as the same snapshot, and
//!   is shorter than the limit.
//! - `record_length` is the length of a record in a file, so that the length of a file is known
//!   before it is written.
//! - `snapshot_text` is exactly the text that lists a snapshot: a line for the file and one for
//!   each record.
//!
//! Tested only: what `Display` writes of the faults.
#![tactic(auto)]

mod chain;
mod fault;
mod head;
mod law;
mod length;
mod listing;
mod read;
mod record;
mod repeated;
mod write;

pub use chain::Chain;
pub use fault::{FileFault, RecordCause, Which};
pub use law::{files_have_one_meaning, limits};
pub use length::{EMPTY_FILE, record_length};
pub use listing::snapshot_text;
pub use read::{MAX_FILE, read_file};
pub use write::write_file;
