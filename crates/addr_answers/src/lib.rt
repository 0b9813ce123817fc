//! What a node answers to `getaddr`: one answer for all requesters of a key, for 21 to 27 hours.
//!
//! Contracts see `Answers` as the list of the answers that are kept. A key is a number for the
//! network class of a connection and the local socket that it came in on. An answer that was made
//! of fewer than 1,000 records is kept for an hour only, so that a node that has just started does
//! not tell little for a day.
//!
//! Proved:
//! - After a request for which an answer was made, each request of its key within 21 hours, before
//!   or after by the clock, gets the same one, whatever came between; within an hour, if it was
//!   made of few records (`answers_stay`).
//! - Each network class and local socket has a key of its own (`keys_are_distinct`), and what is
//!   kept of a key does not depend on requests of other keys (`keys_are_apart`).
//! - An answer is empty or what was sampled at one request of its key (`answers_are_samples`).
//! - While the clock does not go back, the samples that requests of a key show are 21 hours apart,
//!   or an hour after one of few records (`samples_are_rare`).
#![tactic(auto)]

mod answers;
mod hiding;
mod kept;
mod law;

pub use answers::{Answers, MAX_KEYS, MAX_TOLD};
pub use hiding::{EXTRA_AGE, MIN_AGE, told_time};
pub use kept::{EXTRA_SECONDS, FEW_RECORDS, FEW_SECONDS, KEPT_SECONDS, key_of};
pub use law::{
    answers_are_samples, answers_stay, keys_are_apart, keys_are_distinct, limits, samples_are_rare,
};
pub use net_addr::Memory;
