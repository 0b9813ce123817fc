//! Bitcoin Core's `anchors.dat`: the peers of its block-relay-only connections, to which a node
//! that starts again connects first.
//!
//! Contracts see a file as the list of its anchors, each with the time when it was last seen, its
//! services and the peer.
//!
//! Proved:
//! - `read_file` gives a list exactly if the bytes are the file of it, and a fault exactly if it is
//!   the first that the bytes show, unless memory runs out.
//! - For each chain, a list of bytes has exactly one of the two meanings, and memory is no fault of
//!   bytes (`files_have_one_meaning`).
//! - What `write_file` writes is read as the same list, has no fault, and is shorter than
//!   `MAX_FILE`.
//! - `anchors_text` is exactly the text that lists the anchors.
//!
//! Tested only: what `Display` writes of the faults.
#![tactic(auto)]

mod fault;
mod law;
mod listing;
mod read;
mod write;

pub use fault::{AnchorCause, AnchorsFault};
pub use law::{files_have_one_meaning, limits};
pub use listing::anchors_text;
pub use read::{Anchors, MAX_ANCHORS, MAX_FILE, read_file};
pub use write::write_file;
