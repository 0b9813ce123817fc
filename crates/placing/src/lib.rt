//! Buckets and slots of the tables, by hashes over a node's secret key.
//!
//! Contracts see a `Placer` as the key, the asmap and the rule of its checksum (`Places`).
//!
//! Proved: the AS number and the group of an address, and its buckets and slots by SHA-256 as the
//! crate `sha2` defines it. A new bucket is one of the 64 of the source's group, a tried bucket one
//! of the 8 of the peer's group (`reach`).
//!
//! Neither proved nor tested: that SHA-256 spreads buckets evenly.
#![tactic(auto)]

mod hash;
mod law;
mod placer;
mod sum;

pub use hash::{cheap, double_sha256};
pub use law::limits;
pub use placer::{GROUP_BUCKETS, Placer, SOURCE_BUCKETS, number_of};
pub use sum::{SumRule, sum_by};
