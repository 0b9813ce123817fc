//! The calls `prefix` and `rows`, and those on the table of the lines read before.

use crate::fields::RowFields;
use crate::text::{bytes_of, decimal, in_one_line, owned};
use crate::unread::Unread;
use prefix_table::{MAX_TEXT, Row, Table, put_table, read_table};
use std::alloc::Global;

/// The text of a table of prefixes that calls add lines to.
#[derive(Drop)]
pub(crate) struct Prefixes {
    text: Vec<u8>,
}

impl Prefixes {
    /// Returns a text without lines.
    pub fn make(alloc: Global) -> Prefixes {
        Prefixes {
            text: Vec::new(alloc),
        }
    }

    /// `prefix LINE`: a line of the text. `best HEX`: the number of the longest row of the text
    /// that covers the address. The other call is the one below.
    pub fn answer(&mut self, alloc: Global, name: &str, arguments: &str) -> Result<String, Unread> {
        match name {
            "prefix" => {
                self.text.extend_from_slice(arguments.as_bytes())?;
                self.text.push(b'\n')?;
                owned(alloc, "done")
            }
            "rows" => rows(alloc, arguments),
            _ => {
                let table = read(alloc, self.text.as_slice())?;
                decimal(alloc, u64::from(table.best(bits_of(alloc, arguments)?)))
            }
        }
    }
}

/// Reads the table of the text.
fn read(alloc: Global, text: &[u8]) -> Result<Table, Unread> {
    if text.len() > MAX_TEXT {
        return Err(Unread::Unmet);
    }
    match read_table(alloc, text) {
        Ok(table) => Ok(table),
        Err(_) => Err(Unread::Form),
    }
}

/// Returns the address bits that 32 digits in hexadecimal have.
fn bits_of(alloc: Global, digits: &str) -> Result<u128, Unread> {
    match <[u8; 16]>::try_from(bytes_of(alloc, digits)?.as_slice()) {
        Ok(bytes) => Ok(u128::from_be_bytes(bytes)),
        Err(_) => Err(Unread::Form),
    }
}

/// Returns the text of the table.
fn table_text(alloc: Global, table: &Table) -> Result<Vec<u8>, Unread> {
    let mut text = Vec::new(alloc);
    match put_table(table, &mut text) {
        Ok(()) => Ok(text),
        Err(_) => Err(Unread::Memory),
    }
}

/// Takes a row: its bits, its length and its number.
fn row_of(alloc: Global, fields: &mut RowFields<'_>) -> Result<Row, Unread> {
    let bits = bits_of(alloc, fields.word())?;
    let Ok(len) = u8::try_from(fields.number()?) else {
        return Err(Unread::Form);
    };
    let asn = fields.small()?;
    Ok(Row { bits, len, asn })
}

/// `rows ROW ROW`: the text of the table that has these rows, each `BITS LENGTH NUMBER`, or `none`.
fn rows(alloc: Global, arguments: &str) -> Result<String, Unread> {
    let mut fields = RowFields::of(arguments);
    let rows = [row_of(alloc, &mut fields)?, row_of(alloc, &mut fields)?];
    match Table::from_rows(alloc, &rows) {
        Ok(Some(table)) => in_one_line(table_text(alloc, &table)?),
        Ok(None) => owned(alloc, "none"),
        Err(_) => Err(Unread::Memory),
    }
}
