//! The outbound connections of a node, no two of them in one network group.
//!
//! Contracts see an `Opener` as the list of open peers with their groups.
//!
//! Proved: the groups are pairwise distinct (`apart`), a peer whose last try is less than ten
//! minutes old is taken only by the 31st try or a later one (`recent`), and `judge` says so for a
//! candidate. Only the list of open peers (`peers`) takes memory.
#![tactic(auto)]

mod law;
mod opener;
mod outbound;
mod rules;

pub use law::limits;
pub use opener::{MAX_OUTBOUND, MAX_TRIES, Opener};
pub use outbound::Verdict;
pub use rules::{BAD_PORTS, MAX_COUNTED, OpenRules};
