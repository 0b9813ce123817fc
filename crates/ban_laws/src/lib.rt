//! Laws of the file that is written of a list of bans by the rule of Bitcoin Core; no program.
//!
//! Proved: it reads as the value that it was written for (`files_have_values`), and as the list of
//! the same bans, sorted (`lists_are_read_back`), since the name of a subnet parses as the subnet
//! (`names_are_read_back`). Not so of an address of CJDNS outside of fc00::/8: its name is that of
//! an IPv6 address. No subnet that is parsed and no ban that is read by this rule is of such an
//! address (`read_bans_have_names`).
#![tactic(auto)]

mod law;

pub use law::{files_have_values, lists_are_read_back, names_are_read_back, read_bans_have_names};
