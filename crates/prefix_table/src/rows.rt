//! Reads lines one after another into rows: `Row`, `MAX_ROWS` and `MAX_ASN`.

ghost use Rattle.std.specs.Prelude.{◌≡◌, ◌<◌, ◌≤◌, true, false, length, IfOk, IfSome, IfNone};
ghost use Rattle.prefix_table.specs.Numbered.{IsReading, AreAllRows};
ghost use Rattle.prefix_table.specs.Text.{HasNoTable};
ghost use Rattle.prefix_table.specs.declared.read.TheConstants.{MAX_TEXT};
ghost use Rattle.prefix_table.specs.declared.rows.TheConstants.{MAX_ROWS};

use crate::TableFault;
use crate::line::read_line;
use crate::numbered::NumberedRow;
use host_io::split_line;
use std::alloc::{AllocError, Global};

/// The largest AS number that an asmap can encode (`ASN_BIT_SIZES` in util/asmap.cpp of Bitcoin
/// Core).
pub const MAX_ASN: u32 = 33_521_664;

/// The maximum number of rows of a table. This limit is our own.
pub const MAX_ROWS: usize = 2_000_000;

/// The addresses that begin with a prefix belong to an AS. An IPv4 prefix is one of mapped
/// addresses, `::ffff:0:0/96`. The order is that of the rows of a table.
#[derive(Clone, Copy, Debug, PartialEq, Eq, PartialOrd, Ord)]
pub struct Row {
    /// The bits of the prefix as the high bits of an address; the others are zero.
    pub bits: u128,
    /// The length of the prefix in bits, at most 128.
    pub len: u8,
    /// The number of the AS, from 1 to `MAX_ASN`.
    pub asn: u32,
}

/// The rows of a text in the order of its lines, up to the first line with a fault of its own,
/// or up to one row more than a table has. Prefixes may repeat.
#[derive(Drop)]
pub(crate) struct Reading {
    /// The rows.
    pub rows: Vec<NumberedRow>,
    /// The fault of the line after them, or of the last row.
    pub fault: Option<TableFault>,
}

/// Returns the rows of a text in the order of its lines, or `None` if a line has a fault of its own
/// or there are more rows than a table has. Prefixes may repeat.
pub(crate) fn plain_rows(alloc: Global, text: &[u8]) -> Result<Option<Vec<Row>>, AllocError>
    requires { length text.now ≤ MAX_TEXT }
    ensures found { IfOk result (λ read. IfSome read (λ rows. AreAllRows text.now rows.items)) }
    ensures none { IfOk result (λ read. IfNone read (HasNoTable text.now)) }
{
    let mut rows = Vec::new(alloc);
    let mut rest = text;
    let mut line = 0;
    while !rest.is_empty() {
        let (first, after) = split_line(rest);
        rest = after;
        line += 1;
        match read_line(first, line) {
            Ok(None) => {}
            Ok(Some(row)) => {
                rows.push(row)?;
                if is_too_many(rows.len()) {
                    return Ok(None);
                }
            }
            Err(_) => return Ok(None),
        }
    }
    Ok(Some(rows))
}

/// Reads the lines one after another, and numbers the rows.
pub(crate) fn read_rows(alloc: Global, text: &[u8]) -> Result<Reading, AllocError>
    requires { length text.now ≤ MAX_TEXT }
    ensures { IfOk result (IsReading text.now) }
{
    let mut rows = Vec::new(alloc);
    let mut rest = text;
    let mut line = 0;
    while !rest.is_empty() {
        let (first, after) = split_line(rest);
        rest = after;
        line += 1;
        match read_line(first, line) {
            Ok(None) => {}
            Ok(Some(row)) => {
                rows.push(NumberedRow::of(row, line))?;
                if is_too_many(rows.len()) {
                    let fault = Some(TableFault::TooMany);
                    return Ok(Reading { rows, fault });
                }
            }
            Err(fault) => {
                let fault = Some(fault);
                return Ok(Reading { rows, fault });
            }
        }
    }
    Ok(Reading { rows, fault: None })
}

/// Returns `true` if there are more rows than a table has.
fn is_too_many(count: usize) -> bool
    ensures many { result ≡ true → MAX_ROWS < count }
    ensures few { result ≡ false → count ≤ MAX_ROWS }
{
    count > MAX_ROWS
}
