//! `Spelled`: the bits that encode a number, from its class and its digits.

ghost use Rattle.std.specs.Prelude.{◌≡◌, ◌+◌, ◌-◌, ◌*◌, ◌^◌, ◌<◌, ◌≤◌};
ghost use Rattle.std.specs.List.{range_with_len};
ghost use Rattle.bit_code.specs.Coder.{HasValue, spelling, spelling_by, low_digits};

use crate::ahead::head_len;
use crate::coder::{Classes, Coder, classes_of};
use crate::packing::cat_bits;
use crate::reversal::front_digits;

/// The bits that encode a number.
#[derive(Clone, Copy)]
pub(crate) struct Spelled {
    /// The bits of a number; the first one is the lowest.
    pub bits: u64,
    /// The number of bits.
    pub len: u32,
}

/// Encodes a value of `coder`.
#[inline]
pub(crate) fn spell(coder: Coder, value: u32) -> Spelled
    requires { HasValue coder value }
    ensures bits { low_digits result.len result.bits ≡ spelling coder value }
    ensures few { result.len ≤ 55 }
    ensures within { result.bits < 2 ^ result.len }
{
    match classes_of(coder) {
        Some(classes) => spell_rising(value - classes.least, classes),
        None => spell_kind(value),
    }
}

/// Encodes a kind: as many one-bits, and a zero-bit after fewer than three.
#[inline(always)]
fn spell_kind(value: u32) -> Spelled
    requires { value < 4 }
    ensures bits { low_digits result.len result.bits ≡ spelling Coder.Kind value }
    ensures few { result.len ≤ 3 }
    ensures within { result.bits < 2 ^ result.len }
{
    Spelled {
        bits: (1 << value) - 1,
        len: head_len(value, 3),
    }
}

/// Encodes a number, counted from 0, over classes of rising sizes.
#[inline(always)]
fn spell_rising(number: u32, classes: Classes) -> Spelled
    requires some { 0 < classes.first }
    requires fits { classes.first + classes.last ≤ 30 }
    requires below { number + 2 ^ classes.first < 2 ^ (classes.first + classes.last + 1) }
    ensures bits { low_digits result.len result.bits
        ≡ spelling_by (range_with_len classes.first (classes.last + 1)) number }
    ensures few { result.len ≤ classes.first + 2 * classes.last }
    ensures within { result.bits < 2 ^ result.len }
{
    let digits = number + (1 << classes.first);
    let size = top_digit(digits, classes);
    let class = size - classes.first;
    let head = head_len(class, classes.last);
    let last_digits = u64::from(front_digits(u64::from(digits), size));
    Spelled {
        bits: cat_bits((1 << class) - 1, head, last_digits, size),
        len: head + size,
    }
}

/// Returns the index of the highest digit that is set, which is the size of one of the classes.
#[inline(always)]
fn top_digit(number: u32, classes: Classes) -> u32
    requires fits { classes.first + classes.last ≤ 30 }
    requires some { 2 ^ classes.first ≤ number }
    requires below { number < 2 ^ (classes.first + classes.last + 1) }
    ensures low { 2 ^ result ≤ number }
    ensures high { number < 2 * 2 ^ result }
    ensures least { classes.first ≤ result }
    ensures most { result ≤ classes.first + classes.last }
{
    31 - number.leading_zeros()
}
