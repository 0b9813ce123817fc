//! The runs of the program: arguments, log, folder and output in, a status out.
//!
//! Contracts see the log as the bytes that are left, the output as those written, and the folder as
//! its files and what a crash may leave of them. Of an object that contracts cannot look into,
//! clauses on bytes say nothing.
//!
//! Proved, of `run`: which arguments ask for what, what each request leaves untouched, that a
//! failure has a cause, the outcome of each request, and that a request is done if nothing is wrong
//! and nothing fails. docs/PROMISES.md has a chapter for each command.
//!
//! Tested only, in `test_runs`: which calls of the folder a command makes, and that nothing is read
//! while a whole line waits.
#![tactic(auto)]

mod address;
mod address_lines;
mod bans;
mod check;
mod compile;
mod decompile;
mod diff;
mod file_line;
mod from_raw;
mod generate;
mod group_changes;
mod help;
mod input;
mod law;
mod learned;
mod limit;
mod list_anchors;
mod listing;
mod lookup;
mod lookup_lines;
mod opener;
mod opening;
mod output;
mod peers_fault;
mod picture;
mod replay;
mod report;
mod risk;
mod risk_lines;
mod show;
mod status;
mod tables_fault;
mod tables_json;
mod top;
mod trial;
mod trial_line;
mod view_text;

pub use law::{changes_are_counted_last, folders_open_once, times_are_numbers};
pub use learned::{Learned, SumFit};
pub use net_addr::Memory;
pub use peers_fault::PeersFault;
pub use report::{code, status_line};
pub use status::Status;
pub use tables_fault::TablesFault;
pub use top::{run, run_learning};
