//! `BitFront` writes bits from their end: each number goes before the bits that are there.

ghost use Rattle.std.specs.Prelude.{◌≡◌, List, Bool, [], ◌++◌, length, OnOk, OnErr};
ghost use Rattle.bit_code.specs.Coder.{HasValue, spelling};
ghost use Rattle.bit_code.specs.Files.{IsFileOf};

use crate::Memory;
use crate::coder::Coder;
use crate::packing::{cat_bits, closed, make_room, prepend_bits, shift_in};
use crate::spelled::spell;
use std::alloc::Global;
use std::marker::Model;

/// Bits that are written from their end: each number goes before the bits that are there. Contracts
/// see a list of bits.
#[derive(Debug, Drop)]
pub struct BitFront {
    /// The whole bytes, the last first.
    bytes: Vec<u8>,
    /// The bits before those of the whole bytes; the first is the lowest.
    rest: u8,
    /// The number of bits in `rest`, 0 to 7.
    rest_len: u32,
}

impl Model for BitFront {
    ghost use Rattle.std.specs.Prelude.{List, Bool, ◌++◌, ◌<◌, ◌≤◌, ◌^◌, vec_len, vec_capacity, reverse};
    ghost use Rattle.bit_code.specs.Coder.{file_bits, low_digits};

    ghost Value = { List Bool };

    ghost view = { λ o. low_digits o.rest_len o.rest ++ file_bits (reverse o.bytes.items) };

    ghost invariant = { λ o. (o.rest_len < 8) × (o.rest < 2 ^ o.rest_len)
        × (vec_len o.bytes ≤ 2 ^ 60) × (0 < o.rest_len → vec_len o.bytes < vec_capacity o.bytes) };
}

impl BitFront {
    /// Makes an empty list of bits. Takes no memory.
    pub fn make(alloc: Global) -> BitFront
        ensures { result ≡ [] }
    {
        BitFront {
            bytes: Vec::new(alloc),
            rest: 0,
            rest_len: 0,
        }
    }

    /// Returns the number of bits.
    pub fn len(&self) -> usize
        ensures { result ≡ length self.now }
    {
        self.bytes.len() * 8 + self.rest_len as usize
    }

    /// Puts the encoding of a value of `coder` before the bits that are there. If memory runs out,
    /// the bits are unchanged.
    pub fn put_number_front(&mut self, coder: Coder, value: u32) -> Result<(), Memory>
        requires { HasValue coder value }
        ensures bits { OnOk result (self.new ≡ spelling coder value ++ self.old) }
        ensures err { OnErr result (self.new ≡ self.old) }
    {
        let number = spell(coder, value);
        make_room(&mut self.bytes, 8)?;
        let bits = cat_bits(number.bits, number.len, u64::from(self.rest), self.rest_len);
        let len = self.rest_len + number.len;
        self.rest = prepend_bits(&mut self.bytes, bits, len);
        self.rest_len = len % 8;
        Ok(())
    }

    /// Returns the bytes of the file of these bits, with zero-bits after them up to a whole byte.
    /// Takes no memory.
    pub fn into_bytes(self) -> Vec<u8>
        ensures { IsFileOf self result.items }
    {
        let mut bytes = self.bytes;
        bytes.reverse();
        let rest = shift_in(&mut bytes, self.rest, self.rest_len);
        closed(bytes, rest, self.rest_len)
    }
}
