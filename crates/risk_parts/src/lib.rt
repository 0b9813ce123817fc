//! Which part of the picks falls to peers of a set, at most, in parts of a million: the sets of
//! addresses that people name, the sum, and the law that each part is a bound.
#![tactic(auto)]

mod addr_set;
mod law;
mod leads;
mod parts;

pub use addr_set::{AddrSet, parse_set, put_set};
pub use law::{limits, parts_are_bounds, parts_last};
pub use leads::{CHANCES, Lead, any_has, kinds_of_all};
pub use net_addr::Memory;
pub use parts::{AHEAD, MILLION, Parts, WHOLE, millionths, parts_among};
