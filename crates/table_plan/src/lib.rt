//! What the tables compute without an index of their records: the plan by which a file is
//! restored, the record after an entry, a success or an attempt, and the bucket of an announced
//! peer.
//!
//! Proved:
//! - `Plan::of` makes the state that the definition gives for a file before records in no bucket
//!   are deleted (`state`), and `order` the numbers of the records that are left (`order`).
//! - `refresh`, `after_success`, `after_try`, `still_connected` and `with_services` make the record
//!   that the definition gives.
//! - `bucket_of` returns the bucket that a source gives a peer (`value`), from those that `Reach`
//!   keeps of the source's group if it is among them.
//! - `forget` drops the id of a deleted record from all collisions.
#![tactic(auto)]

mod draft;
mod known;
mod number_order;
mod plan;
mod reach;
mod waiter;

pub use draft::Draft;
pub use known::{
    after_success, after_try, first_bucket, is_drawn, is_wanted, penalty_of, refresh, stays,
    still_connected, with_services,
};
pub use memory::Memory;
pub use number_order::NumberOrder;
pub use plan::Plan;
pub use reach::{Reach, bucket_of};
pub use waiter::{Waiter, forget};
