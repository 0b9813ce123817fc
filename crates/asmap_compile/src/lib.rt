//! The compiler of prefix tables into asmap files, in the form of Bitcoin Core's `util/asmap.cpp`.
//!
//! Contracts see the compiled file as its bytes and the number of its bits.
//!
//! Proved: `compile` gives the file of the compiled tree of a table. The file is sane, and gives
//! every address the number that `best` gives it (`sane`, `bits`, `meaning`, `asn`). `Empty` comes
//! exactly for a table without rows, and `TooLarge` only if the code has more than 67,108,864 bits;
//! no file of such a code is given (`empty`, `too_large`, `small`). `compile_in_place` gives the
//! same and takes the table, whose list it uses.
//!
//! Not said: that no shorter file means the same.
#![tactic(auto)]

mod compiled_code;
mod compiling;
mod fault;
mod instructions;
mod kept;
mod part;
mod tree;

pub use compiled_code::Compiled;
pub use compiling::{MAX_BITS, compile, compile_in_place};
pub use fault::CompileFault;
