//! What is wrong with a line of a log, and in which column.

use crate::common_errors::usual_error;
use crate::files::{MARKED, is_marked};
use crate::keyword_fields::{expected_text, explain};
use crate::syntax::Reader;
use std::alloc::{AllocError, Global};

/// Says what is wrong with a line of a log, which the command of this name refuses, and in which
/// column. The line has no line feed; lines are counted from 1.
pub fn line_hint(
    alloc: Global,
    command: &[u8],
    number: u64,
    line: &[u8],
) -> Result<String, AllocError> {
    if line.is_empty() {
        return Ok(String::new(alloc));
    }
    if number == 1 && is_marked(line) {
        return String::from_str(alloc, MARKED);
    }
    if line.last() == Some(&b'\r') {
        return String::from_str(alloc, "the line ends with a carriage return");
    }
    if line.first() == Some(&b' ') {
        return String::from_str(alloc, "column 1: the line begins with a space");
    }
    if command == b"risk".as_slice() {
        return set_hint(alloc, line);
    }
    if command == b"lookup".as_slice() || command == b"address".as_slice() {
        return address_hint(alloc, command, line);
    }
    let fields = fields_of(alloc, line)?;
    let Some(reader) = Reader::of_log(command) else {
        return Ok(String::new(alloc));
    };
    let Some((keyword, rest)) = fields.as_slice().split_first() else {
        return Ok(String::new(alloc));
    };
    let wrong = explain(alloc, reader, *keyword, rest)?;
    let column = column_of(fields.as_slice(), wrong.index);
    format!(in alloc; "column {column}: {}", wrong.text.as_str())
}

/// Says what is wrong with a line for `lookup -` or `address -`, which has one address.
fn address_hint(alloc: Global, command: &[u8], line: &[u8]) -> Result<String, AllocError> {
    let space = line.iter().position(|byte| *byte == b' ');
    match space {
        Some(index) if command == b"lookup".as_slice() => {
            let column = index.saturating_add(1);
            format!(in alloc; "column {column}: expected one peer per line, without spaces")
        }
        _ => {
            let wrong = explain(alloc, Reader::Arguments, command, &[line])?;
            format!(in alloc; "column 1: {}", wrong.text.as_str())
        }
    }
}

/// What is said of a set of addresses.
pub(crate) const SET: &str =
    "a prefix such as 1.2.0.0/16 or 2001:470::/32, an address, or an AS number such as AS64500";

/// Says what is wrong with a text that is that of no set of addresses.
pub(crate) fn set_text(alloc: Global, text: &[u8]) -> Result<String, AllocError> {
    let usual = usual_error("S", text).unwrap_or("");
    expected_text(alloc, SET, text, usual)
}

/// Says what is wrong with a line that names no set of addresses.
fn set_hint(alloc: Global, line: &[u8]) -> Result<String, AllocError> {
    let said = set_text(alloc, line)?;
    format!(in alloc; "column 1: {}", said.as_str())
}

/// Returns the texts between the spaces of a line.
fn fields_of(alloc: Global, line: &[u8]) -> Result<Vec<&[u8]>, AllocError> {
    let mut fields = Vec::new(alloc);
    for field in line.split(|byte| *byte == b' ') {
        fields.push(field)?;
    }
    Ok(fields)
}

/// Returns the column, from 1, at which the field of an index begins.
fn column_of(fields: &[&[u8]], index: usize) -> usize {
    let mut column = 1usize;
    for field in fields.iter().take(index) {
        column = column.saturating_add(field.len()).saturating_add(1);
    }
    column
}
