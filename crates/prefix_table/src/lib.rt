//! Tables of address prefixes with the numbers of autonomous systems, and their text.
//!
//! Contracts see a `Table` as the list of its rows.
//!
//! Proved:
//! - `read_table` reads a text, up to 134,217,728 bytes long, as a table exactly if it is the text
//!   of one (`found`, `only`), and refuses it for its first fault exactly if it has one (`cause`,
//!   `exact`), unless memory runs out.
//! - No text is that of two tables, has two faults, or is that of a table and has a fault
//!   (`texts_have_one_meaning`).
//! - `best` gives each of the 2^128 addresses the number of the most specific row that covers it,
//!   or 0 (`found`, `longest`, `none`).
//! - `put_table` writes a text of the same table, short enough to be read again (`reads_back`,
//!   `short`). `Table::from_rows` makes a table of rows exactly if they are those of one.
//!
//! Tested only: what `Display` writes of the faults; a table of the largest size and one too large
//! by one row.
#![tactic(auto)]

mod fault;
mod in_order;
mod law;
mod line;
mod numbered;
mod print;
mod read;
mod repeats;
mod rows;
mod search;
mod table;

pub use fault::TableFault;
pub use law::texts_have_one_meaning;
pub use memory::Memory;
pub use print::{ROW_ROOM, put_prefix, put_table, row_text};
pub use read::{MAX_TEXT, read_table};
pub use rows::{MAX_ASN, MAX_ROWS, Row};
pub use search::common_bits;
pub use table::Table;
