//! The difference of two asmaps, as the prefixes whose number changes.
//!
//! Contracts see an asmap as the tree of its file, and the changes as a list of prefixes, each with
//! the number that the old asmap gives all its addresses and the one that the new asmap gives them.
//!
//! Proved:
//! - `difference` gives the largest prefixes on which both asmaps are constant and differ, in their
//!   order (`rows`). Unless memory runs out, it refuses exactly what has more than 2,000,000
//!   (`too_many`, `cause`). Their addresses are as many as those with two numbers (`counted`).
//! - `put_difference` writes exactly the lines of `difference_text` (`ok`), whose form follows
//!   contrib/asmap/asmap-tool.py of Bitcoin Core but for the last line.
//! - An address is covered by a change exactly if the asmaps give it two numbers, and the first
//!   change that covers it has both (`exact`). No list of prefixes on which both are constant and
//!   differ covers these addresses with fewer (`fewest`).
#![tactic(auto)]

mod changed;
mod cursor;
mod fault;
mod law;
mod text;
mod walk;

pub use changed::{ChangedPrefix, difference};
pub use fault::DiffFault;
pub use law::changes_are_the_differences;
pub use prefix_table::Memory;
pub use text::put_difference;
