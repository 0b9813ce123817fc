//! The picture of the tables, an SVG, from the marks of their slots and the groups of their
//! sources.
#![tactic(auto)]

mod by;
mod head;
mod list;
mod maps;
mod marks;
mod parts;
mod picture;
mod pieces;
mod sets_picture;
mod spread;
mod spread_picture;

pub use by::By;
pub use marks::group_mark;
pub use net_addr::Memory;
pub use picture::{listed_in, put_picture, put_picture_by};
pub use sets_picture::put_sets_picture;
pub use spread::{is_spread, spread_of, unlisted_in};
pub use spread_picture::put_spread_picture;
