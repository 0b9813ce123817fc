//! Reads at an offset in bits: `read_number` and `read_kind_and_number`.

ghost use Rattle.std.specs.Prelude.{◌≡◌, ℕ, ◌+◌, ◌<◌, ◌≤◌, Bool, List, length, drop, IfSome, IfNone, IsSomeAnd};
ghost use Rattle.bit_code.specs.Coder.{Spells, SpellsBoth};

use crate::ahead::{kind_ahead, number_after, number_ahead};
use crate::bits::Bits;
use crate::coder::Coder;

/// Reads the value of `coder` that is encoded at offset `at`. Returns it and the offset after it,
/// or `None` if the encoding runs past the end. Offsets are in bits. This is `DecodeBits` of
/// `util/asmap.cpp` in Bitcoin Core.
#[inline]
pub fn read_number(bits: &Bits<'_>, at: usize, coder: Coder) -> Option<(u32, usize)>
    requires { at ≤ length bits.now }
    ensures end { IfSome result (λ read. (at < read.1) × (read.1 ≤ length bits.now)) }
    ensures found { IfSome result (λ read.
        Spells coder read.0 (drop at bits.now) (drop read.1 bits.now)) }
    ensures only { (n : ℕ) (rest : List Bool) → Spells coder n (drop at bits.now) rest →
        IsSomeAnd result (λ read. (read.0 ≡ n) × (drop read.1 bits.now ≡ rest)) }
    ensures none { IfNone result ((n : ℕ) (rest : List Bool) →
        Spells coder n (drop at bits.now) rest → ⊥) }
{
    let number = number_ahead(bits.window(at), coder);
    let Some(end) = offset_after(at, number.len, bits.len()) else {
        return None;
    };
    Some((number.value, end))
}

/// A kind and the number after it.
#[derive(Clone, Copy, Debug, PartialEq, Eq)]
pub struct KindAndNumber {
    /// The kind of an instruction, 0 to 3.
    pub kind: u32,
    /// The number after it: of `Coder::Jump` after kind 1, of `Coder::Match` after kind 2, and of
    /// `Coder::Asn` after the others.
    pub number: u32,
    /// The offset after both, in bits.
    pub end: usize,
}

/// Reads the kind that is encoded at offset `at` in bits, and the number after it. Returns `None`
/// if their encoding runs past the end.
#[inline(always)]
pub fn read_kind_and_number(bits: &Bits<'_>, at: usize) -> Option<KindAndNumber>
    requires { at ≤ length bits.now }
    ensures end { IfSome result (λ read. (at < read.end) × (read.end ≤ length bits.now)) }
    ensures found { IfSome result (λ read.
        SpellsBoth read.kind read.number (drop at bits.now) (drop read.end bits.now)) }
    ensures only { (kind n : ℕ) (rest : List Bool) → SpellsBoth kind n (drop at bits.now) rest →
        IsSomeAnd result (λ read. (read.kind ≡ kind) × (read.number ≡ n)
        × (drop read.end bits.now ≡ rest)) }
    ensures none { IfNone result ((kind n : ℕ) (rest : List Bool) →
        SpellsBoth kind n (drop at bits.now) rest → ⊥) }
{
    let window = bits.window(at);
    let kind = kind_ahead(window);
    let number = number_after(window >> kind.len, kind.value);
    let Some(end) = offset_after(at, kind.len + number.len, bits.len()) else {
        return None;
    };
    Some(KindAndNumber {
        kind: kind.value,
        number: number.value,
        end,
    })
}

/// Returns the offset after `len` more bits, or `None` if that is past the end.
#[inline(always)]
fn offset_after(at: usize, len: u32, total: usize) -> Option<usize>
    requires { at ≤ total }
    ensures found { IfSome result (λ end. (end ≡ at + len) × (end ≤ total)) }
    ensures none { IfNone result (total < at + len) }
{
    if len as usize > total - at {
        return None;
    }
    Some(at + len as usize)
}
