//! The values of the header for C: its codes, its structs, and what reads and writes them.
//!
//! Contracts see a struct as the address, the peer or the record that it reads as (`address_in`,
//! `peer_in`, `IsRecord`).
//!
//! Proved: what is written reads as what it was written of, outputs are written whole or not at
//! all, and nothing is written after their end. The library for C uses this crate, and has the
//! calls themselves.
#![tactic(auto)]

pub mod code;
mod entries;
mod faults;
mod law;
mod output;
mod peers;
mod records;
mod structs;
mod values;

pub use entries::{put_entries, read_entries};
pub use faults::fault_number;
pub use law::codes_are_numbers;
pub use output::put_all;
pub use peers::put_peers;
pub use records::{put_records, write_record};
pub use structs::{
    AddrmanAdded, AddrmanBan, AddrmanCounts, AddrmanEntry, AddrmanFault, AddrmanLimits,
    AddrmanPicked, AddrmanRecord, AddrmanResolved,
};
pub use values::{
    AddrmanAddr, AddrmanPeer, bit, read_addr, read_class, read_nets, read_peer, write_addr,
    write_peer,
};
