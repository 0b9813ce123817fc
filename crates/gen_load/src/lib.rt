//! A log for trials that looks like a part of a node's life: its lines follow from one number.
//!
//! Contracts see a `Gen` as the lines that are still to come.
//!
//! Proved: each line is the one that the definition gives (`text`, `lines`), has at most 300 bytes,
//! and parses as exactly one command, which saves nothing and names routable peers only (`line`,
//! `lines_spell_commands`).
#![tactic(auto)]

mod generated;
mod kind;
mod law;
mod line;
mod position;
mod print;

pub use generated::{Gen, MAX_LENGTH, MAX_LINES};
pub use law::{limits, lines_spell_commands};
pub use net_addr::Memory;
