//! `BitOut` writes bits: each number goes after the one before it.

ghost use Rattle.std.specs.Prelude.{◌≡◌, List, Bool, [], ◌++◌, length, OnOk, OnErr};
ghost use Rattle.bit_code.specs.Coder.{HasValue, spelling};
ghost use Rattle.bit_code.specs.Files.{IsFileOf};

use crate::Memory;
use crate::coder::Coder;
use crate::packing::{append_bits, append_bytes, cat_bits, closed, make_room};
use crate::spelled::spell;
use std::alloc::Global;
use std::marker::Model;

/// Bits that are written one number after another. Contracts see a list of bits.
#[derive(Debug, Drop)]
pub struct BitOut {
    /// The whole bytes.
    bytes: Vec<u8>,
    /// The bits after them; the first one is the lowest.
    rest: u8,
    /// The number of bits in `rest`, 0 to 7.
    rest_len: u32,
}

impl Model for BitOut {
    ghost use Rattle.std.specs.Prelude.{List, Bool, ◌++◌, ◌<◌, ◌≤◌, ◌^◌, vec_len, vec_capacity};
    ghost use Rattle.bit_code.specs.Coder.{file_bits, low_digits};

    ghost Value = { List Bool };

    ghost view = { λ o. file_bits o.bytes.items ++ low_digits o.rest_len o.rest };

    ghost invariant = { λ o. (o.rest_len < 8) × (o.rest < 2 ^ o.rest_len)
        × (vec_len o.bytes ≤ 2 ^ 60) × (0 < o.rest_len → vec_len o.bytes < vec_capacity o.bytes) };
}

impl BitOut {
    /// Makes an empty list of bits. Takes no memory.
    pub fn make(alloc: Global) -> BitOut
        ensures { result ≡ [] }
    {
        BitOut {
            bytes: Vec::new(alloc),
            rest: 0,
            rest_len: 0,
        }
    }

    /// Returns the number of bits.
    pub fn len(&self) -> usize
        ensures { result ≡ length self.now }
    {
        self.bytes.len() * 8 + self.rest_len as usize
    }

    /// Appends the encoding of a value of `coder`. If memory runs out, the bits are unchanged.
    pub fn put_number(&mut self, coder: Coder, value: u32) -> Result<(), Memory>
        requires { HasValue coder value }
        ensures bits { OnOk result (self.new ≡ self.old ++ spelling coder value) }
        ensures err { OnErr result (self.new ≡ self.old) }
    {
        let number = spell(coder, value);
        make_room(&mut self.bytes, 8)?;
        let bits = cat_bits(u64::from(self.rest), self.rest_len, number.bits, number.len);
        let len = self.rest_len + number.len;
        self.rest = append_bits(&mut self.bytes, bits, len);
        self.rest_len = len % 8;
        Ok(())
    }

    /// Appends the bits of `other`. If memory runs out, the bits are unchanged.
    pub fn put_out(&mut self, other: &BitOut) -> Result<(), Memory>
        ensures bits { OnOk result (self.new ≡ self.old ++ other.now) }
        ensures err { OnErr result (self.new ≡ self.old) }
    {
        make_room(&mut self.bytes, other.bytes.len() + 8)?;
        let rest = append_bytes(&mut self.bytes, self.rest, self.rest_len, &other.bytes);
        let bits = cat_bits(
            u64::from(rest),
            self.rest_len,
            u64::from(other.rest),
            other.rest_len,
        );
        let len = self.rest_len + other.rest_len;
        self.rest = append_bits(&mut self.bytes, bits, len);
        self.rest_len = len % 8;
        Ok(())
    }

    /// Returns the bytes of the file of these bits, with zero-bits after them up to a whole byte.
    /// Takes no memory.
    pub fn into_bytes(self) -> Vec<u8>
        ensures { IsFileOf self result.items }
    {
        closed(self.bytes, self.rest, self.rest_len)
    }
}
