//! `kept_of` drops the rows that say what a shorter prefix already says.

ghost use Rattle.std.specs.Prelude.{◌≡◌, ℕ, ◌-◌, ◌<◌, ◌≤◌, true, false, length, IfOk, slice_index_or};
ghost use Rattle.prefix_table.specs.Rows.{IsTable, row_covers, first_bits};
ghost use Rattle.prefix_table.specs.declared.rows.Row.{Row};
ghost use Rattle.asmap_compile.specs.Compiled.{rows_kept};

use prefix_table::Row;
use std::alloc::{AllocError, Global};

/// Returns the first `len` bits as a number.
fn first_bits(bits: u128, len: u8) -> u128
    requires { len ≤ 128 }
    ensures { result ≡ first_bits len bits }
{
    if len == 0 { 0 } else { bits >> (128 - len) }
}

/// Returns `true` if the row is a prefix of the address.
fn row_covers(row: &Row, address: u128) -> bool
    requires { row.now.len ≤ 128 }
    ensures { result ≡ row_covers row.now address }
{
    first_bits(address, row.len) == first_bits(row.bits, row.len)
}

/// Returns how many rows are left without those at the end that are no prefix of the address.
fn count_around(rows: &[Row], address: u128) -> usize
    requires { (k : ℕ) (d : Row) → k < length rows.now → (slice_index_or rows.now k d).len ≤ 128 }
    ensures bound { result ≤ length rows.now }
    ensures last { 0 < result → (d : Row)
        → row_covers (slice_index_or rows.now (result - 1) d) address ≡ true }
    ensures past { (k : ℕ) (d : Row) → result ≤ k → k < length rows.now
        → row_covers (slice_index_or rows.now k d) address ≡ false }
{
    let mut count = rows.len();
    while count > 0 && !row_covers(&rows[count - 1], address) {
        count -= 1;
    }
    count
}

/// Returns the AS number of the last row, or 0 if there is no row.
fn last_asn(rows: &[Row]) -> u32
    ensures none { length rows.now ≡ 0 → result ≡ 0 }
    ensures some { (d : Row) → 0 < length rows.now
        → result ≡ (slice_index_or rows.now (length rows.now - 1) d).asn }
{
    match rows.last() {
        Some(row) => row.asn,
        None => 0,
    }
}

/// Returns the rows that stay in the asmap, in one pass and in the same memory. Of the rows before
/// the next one, `around` has those that may be a prefix of it or of a later one, the longest last.
pub(crate) fn kept_of(alloc: Global, rows: Vec<Row>) -> Result<Vec<Row>, AllocError>
    requires { IsTable rows.items }
    ensures { IfOk result (λ kept. kept.items ≡ rows_kept rows.items) }
{
    let mut kept = rows;
    let mut count = 0;
    let mut around: Vec<Row> = Vec::new(alloc);
    for i in 0..kept.len() {
        let row = kept[i];
        let left = count_around(around.as_slice(), row.bits);
        around.truncate(left);
        if last_asn(around.as_slice()) != row.asn {
            kept[count] = row;
            count += 1;
        }
        around.push(row)?;
    }
    kept.truncate(count);
    Ok(kept)
}
