//! `Reading` reads one instruction after another, and gives a row unless the one above says the
//! same.

ghost use Rattle.std.specs.Prelude.{◌≡◌, ◌<◌, ◌≤◌, ◌∷◌, [], List, length, option_to_list};
ghost use Rattle.prefix_table.specs.declared.rows.Row.{Row};
ghost use Rattle.asmap_back.specs.Back.{unless_same};
ghost use Rattle.asmap_back.specs.Ahead.{AreAhead};
ghost use Rattle.asmap_back.specs.Inside.{Gives, row_of, whole_part};

use crate::part::{Part, after_match, row_of, sides};
use crate::parts::PartsLeft;
use asmap_vm::{Instruction, first_instruction};
use bit_code::Bits;
use prefix_table::Row;

/// How far a file was read.
#[derive(Drop)]
pub(crate) struct Reading {
    /// The offset of the next instruction.
    pub offset: usize,
    /// The part that begins there, and after it the right parts of the jumps that are open. Each
    /// begins where the part before it ends.
    pub parts: PartsLeft,
}

/// Returns the row of the part's path with this number, unless the longest row above has the same
/// number.
fn row_unless_same(part: Part, asn: u32) -> Option<Row>
    ensures { option_to_list result ≡ unless_same (row_of part asn) part.last }
{
    if asn == part.last {
        return None;
    }
    Some(row_of(part, asn))
}

impl Reading {
    /// Starts before the first instruction.
    pub fn start() -> Reading
        ensures offset { result.offset ≡ 0 }
        ensures parts { result.parts ≡ whole_part ∷ [] }
    {
        Reading {
            offset: 0,
            parts: PartsLeft::new(),
        }
    }

    /// Reads the first instruction of a part, and returns the row that it gives.
    pub fn step(&mut self, part: Part, bits: &Bits<'_>) -> Option<Row>
        requires ahead { (left : List Row) ×
            AreAhead bits.now self.old.offset (part ∷ self.old.parts) left }
        requires offset { self.old.offset ≤ length bits.now }
        ensures further { self.old.offset < self.new.offset }
        ensures offset { self.new.offset ≤ length bits.now }
        ensures gives { (left : List Row) →
            AreAhead bits.now self.old.offset (part ∷ self.old.parts) left →
            Gives bits.now self.new.offset self.new.parts (option_to_list result) left }
    {
        let (instruction, next) = first_instruction(bits, self.offset);
        self.offset = next;
        match instruction {
            Instruction::Return(asn) => row_unless_same(part, asn),
            Instruction::Jump(_) => {
                let (zero, one) = sides(part);
                self.parts.push(one);
                self.parts.push(zero);
                None
            }
            Instruction::Match(number) => {
                self.parts.push(after_match(part, number));
                row_unless_same(part, part.default)
            }
            Instruction::Default(asn) => {
                self.parts.push(Part {
                    default: asn,
                    ..part
                });
                None
            }
        }
    }
}
