//! The network group of an address, and the bits by which it is looked up in an asmap.
//!
//! Contracts see a group as a list of bytes. Proved: `group` and `asmap_bits` are as defined by the
//! class of the address and its AS number.
#![tactic(auto)]

mod asmap;
mod law;
mod network_group;

pub use asmap::asmap_bits;
pub use law::limits;
pub use network_group::{MAX_GROUP, group};
