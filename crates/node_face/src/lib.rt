//! The calls of the crate for Rust (`plain/face`) that would have a condition below: none has one
//! here.
//!
//! A call whose condition may not hold says so by its result: the numbers of records are used up
//! (`Full`), a message has too many entries, a group has an open peer. What has no condition is
//! called where it is, most of it in `node_calls`.
//!
//! Proved: each call is safe, returns, and states its result by the words of the crate that it
//! calls.
#![tactic(auto)]

mod answering;
mod ban_files;
mod banning;
mod entries;
mod files;
mod limits;
mod messages;
mod outbound;
mod prefixes;
mod proper_ban;
mod sampling;
mod saving;
mod subnet;

pub use answering::{AnswerFault, answer};
pub use ban_files::{ListFault, load_bans, save_bans};
pub use banning::ban;
pub use entries::{AddFault, MAX_RECORDS, TakeFault, add, take_message};
pub use files::{OpenFault, load, open, read};
pub use limits::{AdmitFault, admit};
pub use messages::{WriteFault, write_message};
pub use outbound::{OutboundFault, add_outbound};
pub use prefixes::read_prefixes;
pub use proper_ban::ProperBan;
pub use sampling::{sample, sample_unfiltered};
pub use saving::{SaveFault, save, write};
pub use subnet::ProperSubnet;
