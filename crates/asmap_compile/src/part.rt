//! The rows below a path: those that are longer, and where the rows with a one bit begin.

ghost use Rattle.std.specs.Prelude.{◌≡◌, ℕ, ◌<◌, ◌≤◌, Bool, true, false, List, length};
ghost use Rattle.std.specs.List.Sorted.{IsPartitionPoint, IsPartitionedBy};
ghost use Rattle.bit_code.specs.Coder.{has_bit};
ghost use Rattle.prefix_table.specs.declared.rows.Row.{Row};
ghost use Rattle.prefix_table.specs.Rows.{number_at};
ghost use Rattle.asmap_compile.specs.Compiled.{rows_kept};
ghost use Rattle.asmap_compile.specs.Inside.{IsPart, IsLonger, bit_of, is_low};

use prefix_table::Row;

/// Returns the number of the path that all rows of a part begin with.
pub(crate) fn number_of_path(part: &[Row], depth: u8, above: u32) -> u32
    requires { 0 < length part.now }
    ensures { (table : List Row) (p : List Bool) (left default : ℕ)
        → IsPart table p left part.now depth above default
        → result ≡ number_at (rows_kept table) p }
{
    if part[0].len == depth {
        part[0].asn
    } else {
        above
    }
}

/// Returns the rows of a part that are longer than the path.
pub(crate) fn longer_rows<'a>(part: &'a [Row], depth: u8) -> &'a [Row]
    requires { 0 < length part.now }
    ensures { (table : List Row) (p : List Bool) (left above default : ℕ)
        → IsPart table p left part.now depth above default → IsLonger table p result.now }
{
    if part[0].len == depth {
        &part[1..]
    } else {
        part
    }
}

/// Returns the address bit after the first `depth` bits.
pub(crate) fn bit_of(bits: u128, depth: u8) -> bool
    requires { depth < 128 }
    ensures { result ≡ bit_of bits depth }
{
    (bits >> (127 - depth)) & 1 == 1
}

/// Returns how many rows have a zero-bit after the first `depth` bits. These come first.
pub(crate) fn middle_of(rows: &[Row], depth: u8) -> usize
    requires depth { depth < 128 }
    requires sides { IsPartitionedBy (is_low depth) rows.now }
    ensures bound { result ≤ length rows.now }
    ensures sides { IsPartitionPoint (λ row. is_low depth row ≡ true)
        (λ row. is_low depth row ≡ false) rows.now result }
{
    rows.partition_point(|row| !bit_of(row.bits, depth))
}
