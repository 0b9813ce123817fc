//! The list of banned subnets that a node keeps in `banlist.json`.
//!
//! Contracts see `Bans` as a list of subnets with two times each.
//!
//! Proved: which texts are subnets, what covers an address, each change of the list, each fault of
//! a file, and that what is written reads as the list. Bytes are the file of one list or have one
//! fault, never both, and they cannot be neither (`files_have_one_meaning`).
//!
//! By the rule `Names` a list is read and written as Bitcoin Core does: addresses of Tor v3, I2P
//! and CJDNS have names, and elements that are no bans stay in the file, as do the members beside
//! the list (`write_bans_by`). The element of a ban is written anew, with what the old elements of
//! its subnet have besides the four members. What stays is as it was: members in their order, each
//! as often as it was there, numbers with their digits. A time after 2106 is written as the last
//! one that fits. That such a file reads as the list is a law of `ban_laws`.
//!
//! Seen in the code only: reading takes one look-up for each element, and `covering` looks at each
//! ban.
#![tactic(auto)]

mod ban;
mod bans;
mod fault;
mod law;
mod named_text;
mod read_file;
mod subnet;
mod subnet_names;
mod subnet_text;
mod write_by_name;
mod write_file;

pub use ban::{Ban, BanRule};
pub use bans::{BanReply, Bans, MAX_BANS};
pub use fault::BanFault;
pub use law::{files_have_one_meaning, texts_have_one_meaning};
pub use net_addr::Memory;
pub use read_file::{MAX_FILE, read_bans, read_bans_by, read_bans_counting};
pub use subnet::Subnet;
pub use subnet_names::{parse_subnet_by, put_subnet_by, subnet_name};
pub use subnet_text::{parse_subnet, put_subnet};
pub use write_by_name::write_bans_by;
pub use write_file::write_bans;
