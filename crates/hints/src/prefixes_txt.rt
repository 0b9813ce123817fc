//! What is wrong with a row of `prefixes.txt`.

use crate::common_errors::usual_error;
use crate::files::{MARKED, is_marked, packed_text};
use crate::keyword_fields::expected_text;
use crate::quoting::quoted;
use ban_list::{parse_subnet, put_subnet};
use host_io::split_line;
use prefix_table::{MAX_ASN, MAX_ROWS, MAX_TEXT, TableFault, read_table};
use std::alloc::{AllocError, Global};

/// The maximum number of bytes of a row that is explained.
const MAX_ROW: usize = 1000;

/// Says what is wrong with prefixes.txt, which has this text and this fault.
pub fn table_hint(alloc: Global, fault: &TableFault, text: &[u8]) -> Result<String, AllocError> {
    if let Some(said) = packed_text(text) {
        return String::from_str(alloc, said);
    }
    match fault {
        TableFault::Form { line } | TableFault::Number { line } => {
            row_hint(alloc, *line, line_at(text, *line))
        }
        TableFault::HostBits { line } => host_bits_hint(alloc, line_at(text, *line)),
        TableFault::Repeated { line } => repeated_hint(alloc, *line, text),
        TableFault::TooMany => format!(in alloc; "it has more than {MAX_ROWS} rows"),
        TableFault::TooLarge { size } => {
            format!(in alloc; "it has {size} bytes; at most {MAX_TEXT} are allowed")
        }
        TableFault::Memory => Ok(String::new(alloc)),
    }
}

/// Returns the line of this number, counted from 1, or no byte.
fn line_at(text: &[u8], number: u32) -> &[u8] {
    let index = (number as usize).saturating_sub(1);
    text.split(|byte| *byte == b'\n').nth(index).unwrap_or(b"")
}

/// Says what is wrong with the form or the numbers of a row.
fn row_hint(alloc: Global, number: u32, row: &[u8]) -> Result<String, AllocError> {
    if number == 1 && is_marked(row) {
        return String::from_str(alloc, MARKED);
    }
    if row.last() == Some(&b'\r') {
        return String::from_str(alloc, "the line ends with a carriage return");
    }
    let Some(space) = row.iter().position(|byte| *byte == b' ') else {
        return expected_text(alloc, "a row such as 1.2.0.0/16 AS6", row, "");
    };
    let (prefix, asn) = row.split_at(space);
    if is_row(alloc, prefix, b" AS1")? {
        return asn_hint(alloc, space, asn);
    }
    prefix_hint(alloc, prefix)
}

/// Says what is wrong with the prefix of a row.
fn prefix_hint(alloc: Global, prefix: &[u8]) -> Result<String, AllocError> {
    if prefix.is_empty() {
        return String::from_str(alloc, "column 1: the line begins with a space");
    }
    let usual = usual_error("S", prefix).unwrap_or("");
    let expected = "a prefix such as 1.2.0.0/16 or 2001:470::/32";
    let said = expected_text(alloc, expected, prefix, usual)?;
    format!(in alloc; "column 1: {}", said.as_str())
}

/// Says what is wrong with the AS number of a row, which comes after the space at an index.
fn asn_hint(alloc: Global, space: usize, asn: &[u8]) -> Result<String, AllocError> {
    let column = space.saturating_add(2);
    let shown = quoted(alloc, asn.get(1..).unwrap_or(b""))?;
    let shown = shown.as_str();
    format!(in alloc; "column {column}: expected AS1 to AS{MAX_ASN}; got {shown}")
}

/// Returns `true` if two texts together are a row, or have bits after their prefix.
fn is_row(alloc: Global, first: &[u8], second: &[u8]) -> Result<bool, AllocError> {
    if first.len() > MAX_ROW || second.len() > MAX_ROW {
        return Ok(false);
    }
    let mut row = Vec::from_slice(alloc, first)?;
    row.extend_from_slice(second)?;
    Ok(matches!(
        fault_of(alloc, row.as_slice()),
        None | Some(TableFault::HostBits { .. })
    ))
}

/// Returns the fault of a text, if it is short enough to be a table's.
fn fault_of(alloc: Global, text: &[u8]) -> Option<TableFault> {
    if text.len() > MAX_TEXT {
        return None;
    }
    read_table(alloc, text).err()
}

/// Says which row is meant by one that has bits after its prefix.
fn host_bits_hint(alloc: Global, row: &[u8]) -> Result<String, AllocError> {
    let end = row.iter().position(|byte| *byte == b' ').unwrap_or(0);
    let (prefix, asn) = row.split_at(end);
    let Some(subnet) = parse_subnet(prefix) else {
        return String::from_str(alloc, "the bits after the prefix must be 0");
    };
    let mut meant = Vec::new(alloc);
    if put_subnet(&subnet, &mut meant).is_err() {
        return Err(AllocError);
    }
    meant.extend_from_slice(asn)?;
    let shown = quoted(alloc, meant.as_slice())?;
    format!(in alloc; "did you mean {}?", shown.as_str())
}

/// Says which earlier line has the prefix of a row.
fn repeated_hint(alloc: Global, number: u32, text: &[u8]) -> Result<String, AllocError> {
    let row = line_at(text, number);
    let mut rest = text;
    for earlier in 1..number {
        if rest.is_empty() {
            break;
        }
        let (line, after) = split_line(rest);
        rest = after;
        if is_repeated(alloc, line, row)? {
            return format!(in alloc; "line {earlier} has the same prefix");
        }
    }
    String::from_str(alloc, "an earlier line has the same prefix")
}

/// Returns `true` if two lines have one prefix.
fn is_repeated(alloc: Global, first: &[u8], second: &[u8]) -> Result<bool, AllocError> {
    if first.len() > MAX_ROW || second.len() > MAX_ROW {
        return Ok(false);
    }
    let mut rows = Vec::from_slice(alloc, first)?;
    rows.push(b'\n')?;
    rows.extend_from_slice(second)?;
    Ok(matches!(
        fault_of(alloc, rows.as_slice()),
        Some(TableFault::Repeated { .. })
    ))
}
