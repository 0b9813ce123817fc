//! `longest_match` by binary search, with `common_bits` and `cut`.

ghost use Rattle.std.specs.Prelude.{◌≡◌, ℕ, ◌<◌, ◌≤◌, ◌^◌, ◌↔◌, ◌⊎◌, ◌-◌, IfSome, IfNone, Contains, AllPairs, true, false, length, slice_index_or};
ghost use Rattle.std.specs.List.Sorted.{IsPartitionPoint};
ghost use Rattle.prefix_table.specs.Rows.{IsTable, IsLongest, Precedes, row_covers, first_bits};
ghost use Rattle.prefix_table.specs.Inside.{cut, is_up_to};
ghost use Rattle.prefix_table.specs.declared.rows.Row.{Row};

use crate::Row;

/// Returns the longest row that covers the address. Each search shortens the prefixes that are
/// left, so there are at most 129.
pub(crate) fn longest_match(rows: &[Row], address: u128) -> Option<Row>
    requires { IsTable rows.now }
    ensures found { IfSome result (λ row. IsLongest rows.now address row) }
    ensures none { IfNone result ((row : Row) → Contains rows.now row
        → row_covers row address ≡ true → ⊥) }
{
    let mut max = 128;
    loop {
        let row = last_up_to(rows, cut(address, max), max)?;
        let common = common_bits(address, row.bits);
        if row.len <= common {
            return Some(row);
        }
        max = common;
    }
}

/// Returns the last row that is not after one of these bits and this length.
fn last_up_to(rows: &[Row], bits: u128, len: u8) -> Option<Row>
    requires { AllPairs Precedes rows.now }
    ensures found { IfSome result (λ row. Contains rows.now row) }
    ensures up_to { IfSome result (λ row. is_up_to bits len row ≡ true) }
    ensures last { IfSome result (λ row. (other : Row) → Contains rows.now other
        → is_up_to bits len other ≡ true → (other ≡ row) ⊎ Precedes other row) }
    ensures none { IfNone result ((other : Row) → Contains rows.now other
        → is_up_to bits len other ≡ true → ⊥) }
{
    let count = count_up_to(rows, bits, len);
    if count == 0 {
        return None;
    }
    Some(row_before(rows, count))
}

/// Returns the row before an index.
fn row_before(rows: &[Row], index: usize) -> Row
    requires some { 0 < index }
    requires within { index ≤ length rows.now }
    ensures { (d : Row) → result ≡ slice_index_or rows.now (index - 1) d }
{
    rows[index - 1]
}

/// Returns how many rows are not after one of these bits and this length.
fn count_up_to(rows: &[Row], bits: u128, len: u8) -> usize
    requires { AllPairs Precedes rows.now }
    ensures bound { result ≤ length rows.now }
    ensures count { IsPartitionPoint (λ row. is_up_to bits len row ≡ true)
        (λ row. is_up_to bits len row ≡ false) rows.now result }
{
    rows.partition_point(|row| is_up_to(row, bits, len))
}

/// Returns `true` if the row is not after one of these bits and this length.
fn is_up_to(row: &Row, bits: u128, len: u8) -> bool
    ensures { result ≡ is_up_to bits len row.now }
{
    row.bits < bits || (row.bits == bits && row.len <= len)
}

/// Returns the first `len` bits, and zeros after them.
pub(crate) fn cut(bits: u128, len: u8) -> u128
    requires { len ≤ 128 }
    ensures { result ≡ cut bits len }
{
    if len == 0 {
        0
    } else {
        bits >> (128 - len) << (128 - len)
    }
}

/// Returns how many bits two addresses begin with in common.
pub fn common_bits(a: u128, b: u128) -> u8
    ensures most { result ≤ 128 }
    ensures common { (len : ℕ) → len ≤ 128
        → (first_bits len a ≡ first_bits len b) ↔ (len ≤ result) }
{
    (a ^ b).leading_zeros() as u8
}
