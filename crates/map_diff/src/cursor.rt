//! `Cursor`: how far one asmap has been read, and its two sides.

ghost use Rattle.std.specs.Prelude.{◌≡◌, ℕ, ◌<◌, ◌^◌, ◌-◌, Bool, true, false, List, length};
ghost use Rattle.bit_code.specs.Coder.{has_bit};
ghost use Rattle.map_diff.specs.Diff.{after_bit};
ghost use Rattle.map_diff.specs.Inside.{IsTree, IsMap, IsMatching};

use asmap_vm::{Instruction, first_instruction, match_size};
use bit_code::Bits;

/// How far an asmap has been read for the addresses that begin with some prefix.
#[derive(Clone, Copy)]
pub(crate) enum Cursor {
    /// Each of these addresses has this number.
    Fixed(u32),
    /// The next address bit decides between the trees at two offsets.
    Fork {
        left: usize,
        right: usize,
        default: u32,
    },
    /// The low `size` digits of the number are wanted next, and after them comes the tree at the
    /// offset.
    Match {
        number: u32,
        size: u8,
        offset: usize,
        default: u32,
    },
}

/// Returns the cursor at the tree at this offset, under this default.
pub(crate) fn cursor_at(bits: &Bits<'_>, offset: usize, default: u32) -> Cursor
    requires size { length bits.now < 2 ^ 32 }
    requires tree { (n : ℕ) × ((f : List Bool → ℕ) × IsTree bits.now n offset default f) }
    ensures { (n : ℕ) (f : List Bool → ℕ) → IsTree bits.now n offset default f
        → IsMap bits.now n result f }
{
    let (instruction, next) = first_instruction(bits, offset);
    match instruction {
        Instruction::Return(asn) => Cursor::Fixed(asn),
        Instruction::Jump(over) => Cursor::Fork {
            left: next,
            right: next + over as usize,
            default,
        },
        Instruction::Match(number) => Cursor::Match {
            number,
            size: match_size(number),
            offset: next,
            default,
        },
        Instruction::Default(asn) => cursor_at(bits, next, asn),
    }
}

/// Returns `true` if bit `k` of the number, counted from the low one, is one.
fn has_bit(number: u32, k: u8) -> bool
    requires { k < 32 }
    ensures { result ≡ has_bit number k }
{
    (number >> k) & 1 == 1
}

/// Returns the cursor after the first bit that a match wants.
fn after_match(bits: &Bits<'_>, number: u32, size: u8, offset: usize, default: u32) -> Cursor
    requires size { length bits.now < 2 ^ 32 }
    requires matching { (n : ℕ) × ((f : List Bool → ℕ)
        × IsMatching bits.now n number size offset default f) }
    ensures { (n : ℕ) (f : List Bool → ℕ) → IsMatching bits.now n number size offset default f
        → IsMap bits.now (n - 1) result (after_bit (has_bit number (size - 1)) f) }
{
    if size == 1 {
        return cursor_at(bits, offset, default);
    }
    Cursor::Match {
        number,
        size: size - 1,
        offset,
        default,
    }
}

/// Returns the cursors after a zero-bit and after a one-bit.
pub(crate) fn sides(bits: &Bits<'_>, cursor: Cursor) -> (Cursor, Cursor)
    requires size { length bits.now < 2 ^ 32 }
    requires map { (n : ℕ) × ((f : List Bool → ℕ) × IsMap bits.now n cursor f) }
    ensures zero { (n : ℕ) (f : List Bool → ℕ) → IsMap bits.now n cursor f
        → IsMap bits.now (n - 1) result.0 (after_bit false f) }
    ensures one { (n : ℕ) (f : List Bool → ℕ) → IsMap bits.now n cursor f
        → IsMap bits.now (n - 1) result.1 (after_bit true f) }
{
    match cursor {
        Cursor::Fixed(_) => (cursor, cursor),
        Cursor::Fork {
            left,
            right,
            default,
        } => (
            cursor_at(bits, left, default),
            cursor_at(bits, right, default),
        ),
        Cursor::Match {
            number,
            size,
            offset,
            default,
        } => {
            let wanted = after_match(bits, number, size, offset, default);
            let other = Cursor::Fixed(default);
            if has_bit(number, size - 1) {
                (other, wanted)
            } else {
                (wanted, other)
            }
        }
    }
}
