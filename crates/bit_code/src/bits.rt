//! `Bits`, the bits of a file, with `get` and a `window` of 57 bits; and `MAX_ASMAP`, 8 MiB.

ghost use Rattle.std.specs.Prelude.{◌≡◌, ◌+◌, ◌*◌, ◌<◌, ◌≤◌, ◌∷◌, ◌++◌, Some, length, slice_get, drop, replicate};
ghost use Rattle.bit_code.specs.Coder.{file_bits};
ghost use Rattle.std.specs.Int.{from_le_bytes, w64};
ghost use Rattle.bit_code.specs.Inside.{IsWindow, IsWord, AreBytes, eight};

use std::marker::Model;

/// The maximum number of bytes that an asmap file may have. This limit is our own.
pub const MAX_ASMAP: usize = 8_388_608;

/// The bits of a file: the first byte's first, and of each byte the low bit first.
#[derive(Debug, Drop)]
pub struct Bits<'a> {
    bytes: &'a [u8],
}

impl<'a> Model for Bits<'a> {
    ghost use Rattle.std.specs.Prelude.{List, Bool, length, ◌≤◌};
    ghost use Rattle.bit_code.specs.Coder.{file_bits};
    ghost use Rattle.bit_code.specs.declared.bits.TheConstants.{MAX_ASMAP};

    ghost Value = { List Bool };

    ghost view = { λ b. file_bits b.bytes.now };

    ghost invariant = { λ b. length b.bytes.now ≤ MAX_ASMAP };
}

impl<'a> Bits<'a> {
    /// Makes the bits of a file of at most `MAX_ASMAP` bytes.
    #[inline]
    pub fn of(bytes: &'a [u8]) -> Bits<'a>
        requires { length bytes.now ≤ MAX_ASMAP }
        ensures limit { MAX_ASMAP ≡ 8388608 }
        ensures bits { result ≡ file_bits bytes.now }
        ensures len { length result ≡ 8 * length bytes.now }
    {
        Bits { bytes }
    }

    /// Returns the number of bits, eight to a byte.
    #[inline]
    pub fn len(&self) -> usize
        ensures { result ≡ length self.now }
    {
        self.bytes.len() * 8
    }

    /// Returns the bit at offset `at`, counted from 0.
    #[inline]
    pub fn get(&self, at: usize) -> bool
        requires { at < length self.now }
        ensures bit { slice_get self.now at ≡ Some result }
        ensures next { drop at self.now ≡ result ∷ drop (at + 1) self.now }
    {
        (self.bytes[at / 8] >> (at % 8)) & 1 == 1
    }

    /// Returns at least 57 bits from an offset on; the first one is the lowest. Any bits follow the
    /// last one.
    #[inline(always)]
    pub(crate) fn window(&self, at: usize) -> u64
        requires { at ≤ length self.now }
        ensures { IsWindow self.now at result }
    {
        word_from(self.bytes, at / 8) >> (at % 8)
    }
}

/// Returns the bytes from byte `q` on; the first one is the lowest.
#[inline(always)]
fn word_from(bytes: &[u8], q: usize) -> u64
    requires { q ≤ length bytes.now }
    ensures { IsWord bytes.now q result }
{
    if bytes.len() - q >= 8 {
        word_at(bytes, q)
    } else {
        last_word(bytes, q)
    }
}

/// Returns eight bytes from byte `q` on; the first one is the lowest.
#[inline(always)]
fn word_at(bytes: &[u8], q: usize) -> u64
    requires { q + 8 ≤ length bytes.now }
    ensures bytes { AreBytes (eight bytes.now q) }
    ensures word { result ≡ from_le_bytes w64 (eight bytes.now q) }
{
    u64::from_le_bytes([
        bytes[q],
        bytes[q + 1],
        bytes[q + 2],
        bytes[q + 3],
        bytes[q + 4],
        bytes[q + 5],
        bytes[q + 6],
        bytes[q + 7],
    ])
}

/// Returns the last bytes, fewer than eight, and zeros after them; the first one is the lowest.
#[inline(never)]
fn last_word(bytes: &[u8], q: usize) -> u64
    requires q { q ≤ length bytes.now }
    requires few { length bytes.now < q + 8 }
    ensures { IsWord bytes.now q result }
{
    word_at(&with_zeros(&bytes[q..]), 0)
}

/// Returns these bytes and zeros after them, eight in all.
fn with_zeros(bytes: &[u8]) -> [u8; 8]
    requires { length bytes.now ≤ 8 }
    ensures { result ≡ bytes.now ++ drop (length bytes.now) (replicate 8 0) }
{
    let mut word = [0u8; 8];
    word[..bytes.len()].copy_from_slice(bytes);
    word
}
