//! The asmap file of Bitcoin Core: its sanity check and the lookup of an address
//! (`util/asmap.cpp`).
//!
//! Contracts see a checked file (`Sane`) as its bytes and the tree that they encode. An `OwnedSane`
//! is a copy of one.
//!
//! Proved: hand `check` any bytes. It accepts them exactly if they are the file of a sane tree, of
//! at most 8,388,608 bytes; no other sane tree has this file. From then on `asn` gives every
//! address the number that the tree means, takes no memory and reads no bit outside the file.
#![tactic(auto)]

mod checking;
mod fault;
mod instruction;
mod owned;
mod sane;
mod scan;
mod stack;
mod walk;

pub use checking::{check, one_tree};
pub use fault::CodeFault;
pub use instruction::{Instruction, first_instruction, match_size};
pub use owned::OwnedSane;
pub use sane::Sane;
