//! The way back from an asmap file to a table of prefixes.
//!
//! Proved: `decompile` gives the rows of an asmap: a prefix to which the tree gives a number has a
//! row, unless the longest row that is a shorter prefix of it has this number (`rows`). Their
//! longest match gives each of the 2^128 addresses the number of the asmap (`best`, `asn`). Unless
//! memory runs out, it refuses exactly what has more than 2,000,000 rows (`too_many`, `cause`);
//! `fits_table` says whether an asmap has no more (`few`, `many`). `BackRows` gives the same rows
//! one after another, and `write_rows` writes their lines; none of these three takes memory.
//!
//! Tested besides: against an independent program, on 40 random codes.
#![tactic(auto)]

mod back_rows;
mod decompiling;
mod fault;
mod part;
mod parts;
mod reading;
mod writing;

pub use back_rows::BackRows;
pub use decompiling::{decompile, fits_table};
pub use fault::BackFault;
pub use writing::write_rows;
