//! `Part`: a part of the tree with its path, its default and its sides.

ghost use Rattle.std.specs.Prelude.{◌≡◌, ◌+◌, ◌-◌, ◌*◌, ◌^◌, ◌<◌, ◌≤◌};
ghost use Rattle.asmap_vm.specs.Matches.{match_size};
ghost use Rattle.asmap_back.specs.Inside.{whole_part, zero_side, one_side, after_match, row_of};

use asmap_vm::match_size;
use prefix_table::Row;

/// A part of the tree that is still to be read.
#[derive(Clone, Copy)]
pub(crate) struct Part {
    /// The path of the part as the high bits of an address; the others are zero.
    pub bits: u128,
    /// The number of bits of the path.
    pub len: u8,
    /// The default that holds there.
    pub default: u32,
    /// The number of the longest row above the path, or 0.
    pub last: u32,
}

/// Returns the whole tree's part, at the empty path.
pub(crate) fn whole() -> Part
    ensures { result ≡ whole_part }
{
    Part {
        bits: 0,
        len: 0,
        default: 0,
        last: 0,
    }
}

/// Returns the row of the part's path with this number.
pub(crate) fn row_of(part: Part, asn: u32) -> Row
    ensures { result ≡ row_of part asn }
{
    Row {
        bits: part.bits,
        len: part.len,
        asn,
    }
}

/// Returns the parts of a jump: for the addresses with a zero-bit next, and with a one-bit.
pub(crate) fn sides(part: Part) -> (Part, Part)
    requires len { part.len < 128 }
    requires room { part.bits + 2 ^ (127 - part.len) < 2 ^ 128 }
    ensures zero { result.0 ≡ zero_side part }
    ensures one { result.1 ≡ one_side part }
{
    let len = part.len + 1;
    let zero = Part { len, ..part };
    let bits = part.bits + (1 << (127 - part.len));
    let one = Part { bits, len, ..part };
    (zero, one)
}

/// Returns the part after a match with this number. The row that the match may add is the longest
/// one above it, with the default as its number.
pub(crate) fn after_match(part: Part, number: u32) -> Part
    requires low { 2 ≤ number }
    requires high { number < 512 }
    requires len { part.len + match_size number ≤ 128 }
    requires room { part.bits + (number - 2 ^ match_size number)
        * 2 ^ (128 - (part.len + match_size number)) < 2 ^ 128 }
    ensures { result ≡ after_match part number }
{
    let size = match_size(number);
    let digits = number - (1 << size);
    let len = part.len + size;
    Part {
        bits: part.bits + (u128::from(digits) << (128 - len)),
        len,
        default: part.default,
        last: part.default,
    }
}
