//! Reads what `getrawaddrman` of a Bitcoin Core node, or `addrman raw`, printed: the records of
//! both tables by the slots that they are in.
//!
//! Proved: what is read is what the definitions say that the text has, each fault is the first one,
//! and a text has one meaning.
#![tactic(auto)]

mod raw;
mod read;
mod row_fields;
mod rows;

pub use net_addr::Memory;
pub use raw::{Field, Raw, RawFault, RawRow, RawRows, RawTable};
pub use read::{MAX_TEXT, read_raw};
