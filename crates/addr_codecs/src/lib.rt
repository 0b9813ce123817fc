//! The messages `addr` and `addrv2`, by which nodes announce peers to each other.
//!
//! Contracts see a message as the list of its entries; a skipped entry is `None`.
//!
//! Proved:
//! - Hand `read_addr` or `read_addrv2` any bytes. They give a list of entries exactly if the bytes
//!   are a message of it (`found`, `only`), and a fault exactly if it is the first that the bytes
//!   show (`cause`, `first`), unless memory runs out.
//! - Every list of bytes has exactly one of the two meanings (`messages_have_one_meaning`).
//! - A message that `write_addr` or `write_addrv2` made is read back as the same list
//!   (`read_back`).
//!
//! Tested only: the texts of the faults.
#![tactic(auto)]

mod address;
mod address_fault;
mod entry;
mod fault;
mod form;
mod law;
mod message;
mod writing;

pub use address::take_address;
pub use address_fault::AddressFault;
pub use fault::MsgFault;
pub use form::Form;
pub use law::{limits, messages_have_one_meaning};
pub use memory::Memory;
pub use message::{Entries, MAX_ENTRIES, read_addr, read_addrv2, read_message};
pub use writing::{put_address, write_addr, write_addrv2};
