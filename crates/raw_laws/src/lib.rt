//! Laws that join what `raw` prints with what `raw_read` and `raw_view` read; no program.
//!
//! Proved: what `raw` printed of tables reads as the slots and records of these tables
//! (`raw_is_read_back`), and its view has in each slot what they have there (`raw_is_shown`).
#![tactic(auto)]

mod law;

pub use law::{raw_is_read_back, raw_is_shown};
