//! Integers and CompactSizes at an offset of some bytes, and the description of formats of bytes
//! that messages and files are made of.
//!
//! Contracts see bytes as a list of numbers. A `Format` of `specs/` says which bytes encode a
//! value, and which show a fault first.
//!
//! Proved: a CompactSize is read exactly if it is encoded in the shortest way, and refused exactly
//! if the bytes end too early or the encoding is longer. The laws in `proofs/` say that a reading
//! agrees with its format.
#![tactic(auto)]

mod compact;
mod fault;
mod numbers;
mod take;

pub use compact::{put_compact, read_compact};
pub use fault::WireFault;
pub use memory::Memory;
pub use numbers::{read_be16, read_le32, read_le64};
pub use take::{take_be16, take_byte, take_bytes, take_compact, take_le32, take_le64};
