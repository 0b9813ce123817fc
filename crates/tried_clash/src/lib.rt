//! Collisions: records that were reached while their slot of the tried table was occupied. What
//! becomes of them, and which occupant is to be tested next.
//!
//! Proved: `resolve` decides on each collision, in increasing order of record numbers, and
//! `clash_pick` returns the occupant that the selected collision is to displace, as defined
//! (`answer`, `state`, `sound`). Neither takes memory.
#![tactic(auto)]

mod clash;
mod fate;
mod resolution;

pub use clash::clash_pick;
pub use peer_rec::Resolved;
pub use resolution::resolve;
