//! `BackRows`: an iterator over the rows of an asmap, which takes no memory.

ghost use Rattle.std.specs.Prelude.{◌≡◌, ◌<◌, ◌∷◌, [], List, MatchOption, OnSome};
ghost use Rattle.asmap_vm.specs.Held.{tree_held};
ghost use Rattle.prefix_table.specs.declared.rows.Row.{Row};
ghost use Rattle.asmap_back.specs.Back.{rows_back};
ghost use Rattle.asmap_back.specs.Ahead.{HasLeft, bits_left};

use crate::reading::Reading;
use asmap_vm::Sane;
use bit_code::Bits;
use prefix_table::Row;

/// The rows of an asmap, one after another. No list of them is made.
#[derive(Drop)]
pub struct BackRows<'a> {
    pub(crate) bits: Bits<'a>,
    pub(crate) reading: Reading,
}

impl<'a> BackRows<'a> {
    /// Starts before the first row.
    pub fn of(code: &Sane<'a>) -> BackRows<'a>
        ensures { HasLeft result (rows_back (tree_held code.now)) }
    {
        BackRows {
            bits: Bits::of(code.code()),
            reading: Reading::start(),
        }
    }

    /// Returns the next row, or `None` after the last one, and `None` again when asked again.
    pub fn next(&mut self) -> Option<Row>
        requires { (left : List Row) × HasLeft self.old left }
        ensures row { (left : List Row) → HasLeft self.old left → MatchOption result
            ((left ≡ []) × HasLeft self.new [])
            (λ row. (after : List Row) × (left ≡ row ∷ after) × HasLeft self.new after) }
        ensures further { OnSome result (bits_left self.new < bits_left self.old) }
    {
        while let Some(part) = self.reading.parts.pop() {
            if let Some(row) = self.reading.step(part, &self.bits) {
                return Some(row);
            }
        }
        None
    }
}
