//! The lines of a log with `outbound`, `feeler` and `close` besides those of a replay.
//!
//! Contracts see the state as the machine with the open peers.
//!
//! Proved, of a line (`step`, `fault`, `only_fault`): the first of at most 100 tries that decides
//! counts (`tries_are_fair`, `tries_end_once`), and groups stay apart (`groups_stay_apart`).
//!
//! Not said: how many steps a line takes.
#![tactic(auto)]

mod command;
mod law;
mod opener_log;
mod print;
mod read;
mod requests;
mod tries;

pub use command::{OpenerCommand, OpenerWord};
pub use law::{
    groups_stay_apart, limits, opener_lines_have_one_meaning, tries_are_fair, tries_end_once,
};
pub use opener_log::{OpenerLog, opener_line};
pub use read::read_request;
pub use tries::{Outcome, TRY_WORDS};
