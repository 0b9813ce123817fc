//! Whether rows are in the order of a table: they rise by bits, then by length.

ghost use Rattle.std.specs.Prelude.{◌≡◌, ◌↔◌, IsTrue, AllPairs};
ghost use Rattle.prefix_table.specs.Rows.{IsRow, IsTable, Precedes};
ghost use Rattle.prefix_table.specs.Inside.{precedes};

use crate::line::is_clear;
use crate::{MAX_ASN, MAX_ROWS, Row};

/// Returns `true` if the rows are those of a table.
pub(crate) fn is_table(rows: &[Row]) -> bool
    ensures { IsTrue result ↔ IsTable rows.now }
{
    rows.len() <= MAX_ROWS && rows.iter().all(|row| is_row(*row)) && rises(rows)
}

/// Returns `true` if a table may have the row.
fn is_row(row: Row) -> bool
    ensures { IsTrue result ↔ IsRow row }
{
    if row.len > 128 || row.asn == 0 || row.asn > MAX_ASN {
        return false;
    }
    is_clear(&row)
}

/// Returns `true` if the rows rise strictly by bits and then by length.
pub(crate) fn rises(rows: &[Row]) -> bool
    ensures { IsTrue result ↔ AllPairs Precedes rows.now }
{
    for i in 1..rows.len() {
        if !precedes(rows[i - 1], rows[i]) {
            return false;
        }
    }
    true
}

/// Returns `true` if row `a` comes before row `b` in a table.
fn precedes(a: Row, b: Row) -> bool
    ensures { result ≡ precedes a b }
{
    a.bits < b.bits || (a.bits == b.bits && a.len < b.len)
}
