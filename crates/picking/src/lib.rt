//! Picks from the tables: a peer to connect to, and peers to announce to another node. The caller
//! gives the random words, in a slice or to be drawn as they are needed (`select_by`).
//!
//! Proved:
//! - `select` and `select_by` give the peer that the definition gives for the random words
//!   (`picked`), and have refused at most 44 records if they use up the words (`few`).
//! - `sample` gives the peers and the order that the definition gives (`peers`, `state`). It says
//!   `ShortWords` if, and only if, there are fewer words than records (`short`, `enough`,
//!   `memory`); after a refusal the tables are as before (`err`).
//! - `sample_by` gives what the same definition gives for the words that it may draw (`peers`,
//!   `state`).
//! - A sample has at most its limit of peers, each of a record that may be announced
//!   (`samples_are_records`), and a full one stays the same when more words follow
//!   (`words_suffice`).
//!
//! Not said: how many steps a `sample` takes.
#![tactic(auto)]

mod bucket;
mod drawing;
mod law;
mod sampling;
mod search;

pub use drawing::sample_by;
pub use law::{samples_are_records, words_suffice};
pub use peer_rec::{Peers, Picked};
pub use sampling::{SampleFault, sample};
pub use search::{select, select_by};
