//! The answer to `getaddr`: the one that is kept for the requester's key, or a new sample of the
//! tables without the banned addresses.
//!
//! Proved: what is kept after a request, and how the order of the tables is (`kept`, `state`); the
//! entries of a new answer are records of the tables at that time, of the five networks, that are
//! neither terrible nor banned (`answers_are_records`); their times tell nothing of the tables
//! unless the caller wants them to (`times_are_hidden`); and two new answers are as two samples
//! (`answers_are_independent`).
#![tactic(auto)]

mod asking;
mod entries;
mod law;
mod message;
mod requests;
mod times;

pub use asking::{MAX_PERCENT, prepare};
pub use law::{answers_are_independent, answers_are_records, limits, times_are_hidden};
pub use message::{write_answer, write_new, write_old};
pub use requests::{RequestFault, prepare_with};
pub use times::Times;
