//! The lines of a log and the texts of their replies.
//!
//! Contracts see a line as its bytes, and a command and a reply as values.
//!
//! Proved:
//! - `read_line` gives a command exactly if the line parses as it (`found`, `only`), `None` exactly
//!   for a line that is passed over (`passed`), and a fault exactly if it is the line's (`fault`,
//!   `only_fault`), unless memory runs out. No line has two meanings (`lines_have_one_meaning`).
//! - `read_command` gives the command that the fields after a keyword parse as, or their fault,
//!   unless
//!   memory runs out (`found`, `fault`).
//! - `put_reply` appends exactly the text of the reply (`ok`, `err`).
//!
//! Tested only: the texts of the faults.
#![tactic(auto)]

mod choices;
mod command;
mod law;
mod print;
mod read;
mod reply;
mod word;

pub use command::Command;
pub use grammar::{LineFault, WordSource, Words, read_decimal, read_hex, read_words};
pub use host_io::split_line;
pub use law::lines_have_one_meaning;
pub use net_addr::Memory;
pub use print::{put_reply, reply_text};
pub use read::{read_command, read_line};
pub use reply::Reply;
pub use word::{CommandWord, KEYWORDS};
