//! The bits of an asmap file and the numbers that they encode, as in `util/asmap.cpp` of Bitcoin
//! Core.
//!
//! Contracts see `Bits`, `BitOut` and `BitFront` as lists of bits.
//!
//! Proved: `read_number` gives the value that is encoded at an offset, and `None` exactly if the
//! encoding runs past the end. `BitOut` appends numbers, `BitFront` puts them first; if memory runs
//! out, the bits are unchanged.
#![tactic(auto)]

mod ahead;
mod bit_front;
mod bit_out;
mod bits;
mod coder;
mod number;
mod packing;
mod reversal;
mod spelled;

pub use bit_front::BitFront;
pub use bit_out::BitOut;
pub use bits::{Bits, MAX_ASMAP};
pub use coder::Coder;
pub use memory::Memory;
pub use number::{KindAndNumber, read_kind_and_number, read_number};
