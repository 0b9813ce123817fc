//! Decodes a kind or a number from a window of bits, by its class and without branches.

ghost use Rattle.std.specs.Prelude.{◌≡◌, ◌+◌, ◌-◌, ◌<◌, ◌≤◌, Bool, List, ◌++◌, Some, drop, length};
ghost use Rattle.bit_code.specs.Coder.{low_digits, coder_after};
ghost use Rattle.bit_code.specs.Reading.{read_value};
ghost use Rattle.bit_code.specs.Inside.{longest, class_head, IsClass, HasClasses};

use crate::coder::{Classes, Coder, classes_after, classes_of};
use crate::reversal::front_digits;

/// A number that some bits begin with.
#[derive(Clone, Copy)]
pub(crate) struct Number {
    /// The value.
    pub value: u32,
    /// The number of bits that encode it.
    pub len: u32,
}

/// Returns the value of `coder` that a window begins with.
#[inline(always)]
pub(crate) fn number_ahead(window: u64, coder: Coder) -> Number
    ensures least { 0 < result.len }
    ensures most { result.len ≤ longest coder }
    ensures value { (more : List Bool) → let bits = low_digits (longest coder) window ++ more in
        read_value coder bits ≡ Some (result.value, drop result.len bits) }
{
    match classes_of(coder) {
        Some(classes) => rising_ahead(window, classes),
        None => kind_ahead(window),
    }
}

/// Returns the number that a window begins with after `kind`, without a branch on the kind.
#[inline(always)]
pub(crate) fn number_after(window: u64, kind: u32) -> Number
    requires { kind ≤ 3 }
    ensures least { 0 < result.len }
    ensures most { result.len ≤ longest (coder_after kind) }
    ensures value { (more : List Bool) → let coder = coder_after kind in
        let bits = low_digits (longest coder) window ++ more in
        read_value coder bits ≡ Some (result.value, drop result.len bits) }
{
    rising_ahead(window, classes_after(kind))
}

/// Returns the kind that a window begins with: the number of one-bits before the first zero-bit, at
/// most 3.
#[inline(always)]
pub(crate) fn kind_ahead(window: u64) -> Number
    ensures least { 0 < result.len }
    ensures most { result.len ≤ 3 }
    ensures kind { result.len ≤ result.value + 1 }
    ensures top { result.value ≤ 3 }
    ensures value { (more : List Bool) → let bits = low_digits 3 window ++ more in
        read_value Coder.Kind bits ≡ Some (result.value, drop result.len bits) }
{
    let kind = class_ahead(window, 3);
    Number {
        value: kind,
        len: head_len(kind, 3),
    }
}

/// Returns the class that a window begins with: the number of one-bits before the first zero-bit,
/// at most `last`.
#[inline(always)]
fn class_ahead(window: u64, last: u32) -> u32
    requires { last < 64 }
    ensures class { IsClass window result last }
    ensures most { result ≤ last }
{
    (!window | (1 << last)).trailing_zeros()
}

/// Returns the number that a window begins with over classes of rising sizes.
#[inline(always)]
fn rising_ahead(window: u64, classes: Classes) -> Number
    requires some { 0 < classes.first }
    requires fits { classes.first + classes.last ≤ 30 }
    requires low { classes.least < 32 }
    ensures least { 0 < result.len }
    ensures most { (coder : Coder) → HasClasses coder classes → result.len ≤ longest coder }
    ensures value { (coder : Coder) (more : List Bool) → HasClasses coder classes →
        let bits = low_digits (longest coder) window ++ more in
        read_value coder bits ≡ Some (result.value, drop result.len bits) }
{
    let class = class_ahead(window, classes.last);
    let head = head_len(class, classes.last);
    let size = classes.first + class;
    let before = (1 << size) - (1 << classes.first);
    Number {
        value: classes.least + before + front_digits(window >> head, size),
        len: head + size,
    }
}

/// Returns the number of bits before the digits of a value, by its class and the last class.
#[inline(always)]
pub(crate) fn head_len(class: u32, last: u32) -> u32
    requires { class ≤ last }
    ensures len { result ≡ length (class_head class last) }
    ensures least { class ≤ result }
    ensures most { result ≤ last }
    ensures one { result ≤ class + 1 }
    ensures some { 0 < last → 0 < result }
{
    class + zero_bits(class, last)
}

/// Returns the number of zero-bits after the one-bits of a class: one, and none in the last class.
#[inline(always)]
fn zero_bits(class: u32, last: u32) -> u32
    requires { class ≤ last }
    ensures one { class < last → result ≡ 1 }
    ensures none { class ≡ last → result ≡ 0 }
    ensures few { result + class ≤ last }
    ensures most { result ≤ 1 }
    ensures some { 0 < last → 0 < class + result }
{
    if class < last { 1 } else { 0 }
}
