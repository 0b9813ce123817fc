//! Which part of the picks falls to each group of records, at most, computed from the tables. How
//! many starts lead to records of each chance comes from the slots; `risk_sum` has the sum, and
//! `risk_laws` that it is a bound.
#![tactic(auto)]

mod by;
mod classes;
mod firsts;
mod gaps;
mod law;
mod leads;
mod occupants;
mod parts;
mod rows;
mod set_text;
mod shares;
mod starts;
mod ten;
mod text;

pub use by::By;
pub use law::{rows_are_bounds, tens_are_bounds};
pub use net_addr::Memory;
pub use parts::set_parts;
pub use rows::Row;
pub use set_text::sets_text;
pub use text::risk_text;
