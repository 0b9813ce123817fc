//! The part of the searches of one table that ends at somebody's peers, at most: a sum in integers
//! of 128 bits, of which each quotient is rounded up. It is computed from how many starts lead to
//! records of each chance; `risk_laws` has the law that it bounds.
#![tactic(auto)]

mod kinds;

pub use kinds::{Kind, most};
