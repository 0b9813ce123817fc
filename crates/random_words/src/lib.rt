//! Random words that are drawn one after another: those of a slice, or those of a seed.
//!
//! Contracts see `Draws` as the words that are left, as a list.
//!
//! Proved: `Draws::seeded` gives the first words of the generator with the seed (`words`), and as
//! many as are wanted (`count`).
#![tactic(auto)]

mod draws;

pub use draws::Draws;
