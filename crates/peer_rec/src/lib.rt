//! The record of a peer: its source, when it was last seen and tried, and its place in the tables;
//! and the snapshot that a file has of all records.
//!
//! Contracts see the fields as they are.
//!
//! Proved: changes of a record's buckets, whether it is terrible, its chance of being picked, in
//! parts of 2^30, and the factor that a search multiplies chances with.
#![tactic(auto)]

mod answers;
mod buckets;
mod file_rec;
mod law;
mod place;
mod rec;
mod snapshot;

pub use answers::{Counts, Fate, Good, Peers, Picked, Resolved};
pub use buckets::{Buckets, MAX_LISTS};
pub use file_rec::{FileRec, FileRecs, MAX_ATTEMPTS};
pub use law::limits;
pub use place::Place;
pub use rec::{Rec, Recs, next_factor};
pub use snapshot::{MAX_BUCKETS, MAX_NEW, MAX_TRIED, Pairs, Snapshot};
