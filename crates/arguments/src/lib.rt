//! The arguments of the command line: a table of the commands, the reader of what
//! they ask for, and the help.
//!
//! Contracts see arguments as lists of bytes. `Asks` says which of them ask for which `Request`:
//! the name of a command, and after it arguments of its form with the values of the request.
//!
//! Proved: `read_request` gives a request exactly if the arguments ask for it (`found`, `only`),
//! a subnet that it has is proper (`proper`), and `help_text`
//! returns the text that the definition puts together of the texts in `pages.rt`.
#![tactic(auto)]

mod address;
mod bans;
mod chain_option;
mod colouring;
mod colours;
mod commands;
mod file_kind;
mod grouping;
mod help;
mod marks;
mod name;
mod opener_options;
mod options;
mod pages;
mod read;
mod request;
mod tables_from;

pub use colouring::Colouring;
pub use colours::Colours;
pub use file_kind::FileKind;
pub use grouping::Grouping;
pub use help::help_text;
pub use marks::{MAX_MARKS, Marks};
pub use name::CommandName;
pub use read::read_request;
pub use request::Request;
pub use tables_from::TablesFrom;
