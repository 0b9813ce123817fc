//! Prints rows as lines: `put_table`, `row_text` and `put_prefix`.

ghost use Rattle.std.specs.Prelude.{◌≡◌, ◌≤◌, ◌++◌, ◌<◌, ◌^◌, length, take, flat_map, OnOk, OnErr, All};
ghost use Rattle.arrayvec.specs.ArrayVec.{array_vec_len};
ghost use Rattle.prefix_table.specs.Rows.{IsRow};
ghost use Rattle.prefix_table.specs.Text.{IsTableText, IsRowAddress, width};
ghost use Rattle.prefix_table.specs.declared.read.TheConstants.{MAX_TEXT};
ghost use Rattle.prefix_table.specs.Print.{entry_of, address_text, prefix_text, row_text, table_text};

use crate::line::{Family, RowEntry};
use crate::{Memory, Row, Table};
use arrayvec::ArrayVec;
use itoa::Buffer;
use net_addr::{append, ipv4_text, ipv6_text};

/// Room for the line of a row: an address of at most 39 bytes, and two numbers.
pub const ROW_ROOM: usize = 80;

/// Appends the rows of the table in their order, one a line. A row of mapped addresses is written
/// in the IPv4 form. If memory runs out, `out` is unchanged.
pub fn put_table(table: &Table, out: &mut Vec<u8>) -> Result<(), Memory>
    ensures ok { OnOk result (out.new.items ≡ out.old.items ++ table_text table.now) }
    ensures err { OnErr result (out.new.items ≡ out.old.items) }
    ensures reads_back { OnOk result (IsTableText (table_text table.now) table.now) }
    // The text of a table is short enough for `read_table`.
    ensures short { length (table_text table.now) ≤ MAX_TEXT }
{
    let before = out.len();
    let put = put_rows(table.rows(), out);
    if put.is_err() {
        out.truncate(before);
    }
    put
}

/// Appends the lines of the rows. If memory runs out, some of them may have been appended.
fn put_rows(rows: &[Row], out: &mut Vec<u8>) -> Result<(), Memory>
    requires { All IsRow rows.now }
    ensures ok { OnOk result (out.new.items ≡ out.old.items ++ flat_map row_text rows.now) }
    ensures err { OnErr result (take (length out.old.items) out.new.items ≡ out.old.items) }
    ensures reads_back { OnOk result (All (λ row. IsRowAddress (entry_of row).family
        (address_text (entry_of row)) (entry_of row).address) rows.now) }
{
    for row in rows {
        put_row(row, out)?;
    }
    Ok(())
}

/// Appends the line of a row. If memory runs out, `out` is unchanged.
fn put_row(row: &Row, out: &mut Vec<u8>) -> Result<(), Memory>
    requires { IsRow row.now }
    ensures ok { OnOk result (out.new.items ≡ out.old.items ++ row_text row.now) }
    ensures err { OnErr result (out.new.items ≡ out.old.items) }
    ensures reads_back { OnOk result (IsRowAddress (entry_of row.now).family
        (address_text (entry_of row.now)) (entry_of row.now).address) }
{
    out.extend_from_slice(row_text(*row).as_slice())?;
    Ok(())
}

/// Appends the prefix of a row: the address, a slash and the length. If memory runs out, `out` is
/// unchanged.
pub fn put_prefix(row: &Row, out: &mut Vec<u8>) -> Result<(), Memory>
    requires { row.now.bits < 2 ^ 128 }
    ensures ok { OnOk result (out.new.items ≡ out.old.items ++ prefix_text row.now) }
    ensures err { OnErr result (out.new.items ≡ out.old.items) }
    ensures reads_back { OnOk result (IsRowAddress (entry_of row.now).family
        (address_text (entry_of row.now)) (entry_of row.now).address) }
{
    out.extend_from_slice(prefix_text(row).as_slice())?;
    Ok(())
}

/// Returns the line of a row: its prefix, a space, `AS`, the number and a line feed. A row of
/// mapped addresses is written in the IPv4 form.
pub fn row_text(row: Row) -> ArrayVec<u8, ROW_ROOM>
    ensures text { result.items ≡ row_text row }
    ensures reads_back { IsRowAddress (entry_of row).family (address_text (entry_of row))
        (entry_of row).address }
{
    let mut text = prefix_text(&row);
    append(&mut text, b" AS");
    append(&mut text, Buffer::new().format(row.asn).as_bytes());
    text.push(b'\n');
    text
}

/// Returns the prefix of a row: the address, a slash and the length.
fn prefix_text(row: &Row) -> ArrayVec<u8, ROW_ROOM>
    requires { row.now.bits < 2 ^ 128 }
    ensures text { result.items ≡ prefix_text row.now }
    ensures short { array_vec_len result ≤ 60 }
    ensures reads_back { IsRowAddress (entry_of row.now).family
        (address_text (entry_of row.now)) (entry_of row.now).address }
{
    let entry = entry_of(row);
    let mut text = address_text(&entry);
    text.push(b'/');
    append(&mut text, Buffer::new().format(entry.len).as_bytes());
    text
}

/// Returns the address of an entry.
fn address_text(entry: &RowEntry) -> ArrayVec<u8, ROW_ROOM>
    requires { entry.now.address < 2 ^ width entry.now.family }
    ensures text { result.items ≡ address_text entry.now }
    ensures short { array_vec_len result ≤ 39 }
    ensures reads_back { IsRowAddress entry.now.family (address_text entry.now) entry.now.address }
{
    let mut text = ArrayVec::new();
    match entry.family {
        Family::Ipv4 => append(&mut text, ipv4_text(entry.address as u32).as_slice()),
        Family::Ipv6 => append(&mut text, ipv6_text(entry.address).as_slice()),
    }
    text
}

/// Returns how the row is printed.
fn entry_of(row: &Row) -> RowEntry
    requires { row.now.bits < 2 ^ 128 }
    ensures value { result ≡ entry_of row.now }
    ensures address { result.address < 2 ^ width result.family }
{
    let asn = u64::from(row.asn);
    if row.len >= 96 && row.bits >> 32 == 0xffff {
        RowEntry {
            family: Family::Ipv4,
            address: row.bits & 0xffff_ffff,
            len: u64::from(row.len - 96),
            asn,
        }
    } else {
        RowEntry {
            family: Family::Ipv6,
            address: row.bits,
            len: u64::from(row.len),
            asn,
        }
    }
}
