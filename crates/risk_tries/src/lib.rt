//! Which part of the lists of tries opens all outbound connections to peers of a set, at most.
//! The law says that `ten_bound` computes such a part.
#![tactic(auto)]

mod law;
mod ten;

pub use law::{limits, tries_are_bounded};
pub use ten::{TRY_LISTS, ten_bound};
