//! The picture of the tables: the mark of each slot's group, and the names of the groups.
#![tactic(auto)]

mod classes;
mod date;
mod facts;
mod marks;
mod marks_by_rule;
mod picture;
mod recoloured;
mod sets_picture;

pub use picture::{put_picture, put_picture_by};
pub use picture_text::{By, Memory};
pub use sets_picture::put_picture_of_sets;
