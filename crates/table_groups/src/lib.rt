//! The network groups of the tables: how many slots, buckets and records each has, which come
//! first, and how people write them.
//!
//! Definitions see a group as its bytes. It is no enum, since the group of an AS number may equal
//! that of an IPv6 prefix, as in Bitcoin Core.
//!
//! Proved: a pass over the records and one over the slots of the new table count for each group its
//! own records, slots and buckets (`rows_of`), one over the slots of both tables those of the
//! sources (`sources_of`), and no name of a group has anything that has to be escaped
//! (`names_are_plain`).
#![tactic(auto)]

mod group_names;
mod group_records;
mod group_slots;
mod ranked_groups;
mod sources;
mod table_view;
mod tally;

pub use group_names::{name_of, names_are_plain, put_numbered};
pub use group_slots::{bucket_count, new_slots};
pub use net_addr::Memory;
pub use ranked_groups::{Counted, Group, Numbers, Row, copy_of, rows_of};
pub use sources::{Source, sources_of};
pub use table_view::TableView;
pub use tally::{Lent, Tally, put_value, value_of};
