//! The names of addresses as people write them: `base32.onion` of Tor v3, `base32.b32.i2p` of I2P,
//! and IP addresses without brackets or labels.
//!
//! Proved:
//! - `name_text` and `name_of` return the name of an address, which parses as that address unless it is an IPv6
//!   address of fc00::/8 or an address of CJDNS outside of it.
//! - `parse_name` accepts exactly the grammar, so a text is the name of one address at most.
//! - `parse_text` accepts a name, or an address as in a log, with or without a port; a text parses
//!   as at most one address (`texts_have_one_meaning`).
//! - The checksum in a name of Tor v3 is determined by the letters before it
//!   (`checksums_are_determined`).
#![tactic(auto)]

mod base32;
mod keccak;
mod law;
mod name;
mod print;
mod read;
mod sha3;
mod text;

pub use law::{checksums_are_determined, texts_have_one_meaning};
pub use name::letters_of;
pub use print::{NAME_TEXT, name_of, name_text};
pub use read::parse_name;
pub use text::parse_text;
