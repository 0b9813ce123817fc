//! `NumberedRow`: a row with the number of its line, used to find prefixes that are repeated.

use crate::Row;

/// A row with the number of its line, counted from 1. The order is that of the rows of a table;
/// rows with the same prefix are in the order of their lines.
#[derive(Clone, Copy, PartialEq, Eq, PartialOrd, Ord)]
pub(crate) struct NumberedRow {
    /// As in `Row`.
    pub bits: u128,
    /// As in `Row`.
    pub len: u8,
    /// The number of the line.
    pub line: u32,
    /// As in `Row`.
    pub asn: u32,
}

impl NumberedRow {
    ghost use Rattle.std.specs.Prelude.{◌≡◌, ◌↔◌, IsTrue};
    ghost use Rattle.prefix_table.specs.Numbered.{row_in, with_line};
    ghost use Rattle.prefix_table.specs.Rows.{SamePrefix};

    /// Gives a row the number of its line.
    pub(crate) fn of(row: Row, line: u32) -> NumberedRow
        ensures { result ≡ with_line row line }
    {
        NumberedRow {
            bits: row.bits,
            len: row.len,
            line,
            asn: row.asn,
        }
    }

    /// Returns `true` if the two rows have the same prefix.
    pub(crate) fn is_same_prefix(&self, other: &NumberedRow) -> bool
        ensures { IsTrue result ↔ SamePrefix (row_in self.now) (row_in other.now) }
    {
        self.bits == other.bits && self.len == other.len
    }
}
