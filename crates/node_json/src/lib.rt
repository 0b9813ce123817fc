//! What Bitcoin Core's `getrawaddrman`, `getaddrmaninfo` and `listbanned` return, as JSON, and how
//! much of the tables each network group has.
//!
//! Proved: each text is laid out line by line, and reads as exactly the value that the definitions
//! give (`IsJsonText`), by the grammar of the toolchain's `json`.
//!
//! Not proved: that names and order of the members are Bitcoin Core's.
#![tactic(auto)]

mod bans;
mod groups;
mod info;
mod law;
mod put;
mod raw;
mod table;

pub use bans::bans_text;
pub use groups::groups_text;
pub use info::info_text;
pub use law::{every_record_counts, groups_add_up, groups_are_listed, numbers_add_up};
pub use net_addr::Memory;
pub use raw::raw_text;
pub use table::Table;
