//! Reads one line `PREFIX/LEN AS..`: `Family`, `RowEntry`, the ranges of numbers, and the bits
//! after the prefix.

ghost use Rattle.std.specs.Prelude.{◌≡◌, ℕ, ◌+◌, ◌<◌, ◌≤◌, ◌^◌, ◌↔◌, [], IsTrue, IfSome, IfOk, IfErr, MatchOption, Some};
ghost use Rattle.host_io.specs.Lines.{IsPassedOver};
ghost use Rattle.prefix_table.specs.Text.{HasRowFault, IsRowAddress, IsRowEntry, IsInRange, IsClear, IsRowLine, row_of, width};
ghost use Rattle.prefix_table.specs.Numbered.{IsSettled};
ghost use Rattle.prefix_table.specs.declared.line.RowEntry.{RowEntry};
ghost use Rattle.prefix_table.specs.declared.line.Family.{Family};

use crate::search::cut;
use crate::{MAX_ASN, Row, TableFault};
use host_io::is_passed_over;
use net_addr::{around_last, parse_ipv4, parse_ipv6, parse_number};

/// The family of an address in a row's line.
#[derive(Clone, Copy)]
pub enum Family {
    Ipv4,
    Ipv6,
}

/// What a row's line says, before its numbers are tested.
#[derive(Clone, Copy)]
pub struct RowEntry {
    /// The family of the address.
    pub family: Family,
    /// The address as a number, an IPv4 address below 2^32.
    pub address: u128,
    /// The length of the prefix in bits.
    pub len: u64,
    /// The number of the AS.
    pub asn: u64,
}

/// The largest number of ten digits.
const MAX_NUMBER: u64 = 9_999_999_999;

/// Returns the row of the line, which has number `line`, or `None` if it is passed over.
pub(crate) fn read_line(text: &[u8], line: u32) -> Result<Option<Row>, TableFault>
    ensures found { IfOk result (λ row.
        MatchOption row (IsPassedOver text.now) (IsRowLine text.now)) }
    ensures cause { IfErr result (HasRowFault [] text.now line) }
    ensures settled { IsSettled text.now }
{
    if is_passed_over(text) {
        return Ok(None);
    }
    let Some(entry) = read_entry(text) else {
        return Err(TableFault::Form { line });
    };
    if !is_in_range(&entry) {
        return Err(TableFault::Number { line });
    }
    let row = row_of(&entry);
    if !is_clear(&row) {
        return Err(TableFault::HostBits { line });
    }
    Ok(Some(row))
}

/// Returns what the line says, or `None` if it does not have the form of a row.
fn read_entry(line: &[u8]) -> Option<RowEntry>
    requires { IsPassedOver line.now → ⊥ }
    ensures found { IfSome result (IsRowEntry line.now) }
    ensures address { IfSome result (λ entry. entry.address < 2 ^ width entry.family) }
    ensures only { (entry : RowEntry) → IsRowEntry line.now entry → result ≡ Some entry }
{
    let (address, numbers) = around_last(line, b'/')?;
    let (len, asn) = around_last(numbers, b' ')?;
    let digits = asn.strip_prefix(b"AS")?;
    let (family, address) = read_address(address)?;
    Some(RowEntry {
        family,
        address,
        len: parse_number(len, MAX_NUMBER)?,
        asn: parse_number(digits, MAX_NUMBER)?,
    })
}

/// Returns the address that the text writes, with its family, or `None` if there is none.
fn read_address(text: &[u8]) -> Option<(Family, u128)>
    ensures found { IfSome result (λ read. IsRowAddress read.0 text.now read.1) }
    ensures address { IfSome result (λ read. read.1 < 2 ^ width read.0) }
    ensures only { (family : Family) (address : ℕ) → IsRowAddress family text.now address
        → result ≡ Some (family, address) }
{
    if let Some(address) = parse_ipv4(text) {
        return Some((Family::Ipv4, u128::from(address)));
    }
    Some((Family::Ipv6, parse_ipv6(text)?))
}

/// Returns `true` if the length fits the family and an asmap can encode the AS number.
fn is_in_range(entry: &RowEntry) -> bool
    ensures { IsTrue result ↔ IsInRange entry.now }
{
    let width = match entry.family {
        Family::Ipv4 => 32,
        Family::Ipv6 => 128,
    };
    entry.len <= width && 1 <= entry.asn && entry.asn <= u64::from(MAX_ASN)
}

/// Returns the row of an entry. IPv4 is mapped to IPv6, so its length grows by 96.
fn row_of(entry: &RowEntry) -> Row
    requires address { entry.now.address < 2 ^ width entry.now.family }
    requires in_range { IsInRange entry.now }
    ensures { result ≡ row_of entry.now }
{
    let (bits, len) = match entry.family {
        Family::Ipv4 => ((0xffff << 32) + entry.address, 96 + entry.len),
        Family::Ipv6 => (entry.address, entry.len),
    };
    Row {
        bits,
        len: len as u8,
        asn: entry.asn as u32,
    }
}

/// Returns `true` if no bit is set after the prefix.
pub(crate) fn is_clear(row: &Row) -> bool
    requires { row.now.len ≤ 128 }
    ensures { IsTrue result ↔ IsClear row.now }
{
    cut(row.bits, row.len) == row.bits
}
