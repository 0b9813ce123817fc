//! The tables with a clock, and the commands that are carried out on them.
//!
//! Contracts see a `Manager` as the state of the tables and the clock (`Machine`).
//!
//! Proved: `apply` carries out every command but those of saves, as the machine's step says
//! (`step`). Only a message, a sample and a dump can run out of memory (`cause`). The tables and
//! the clock are then unchanged, but for some first entries of a message (`err`).
//!
//! Not said: how many steps a command takes.
#![tactic(auto)]

mod manager;

pub use manager::Manager;
pub use memory::Memory;
