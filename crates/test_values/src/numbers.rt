//! The call `number`, and calls that read a number at an offset in bytes.

use crate::fields::{RowFields, first_word};
use crate::text::{bytes_of, number_text};
use crate::unread::Unread;
use net_addr::parse_number;
use std::alloc::Global;
use wire_num::{read_be16, read_le32, read_le64};

/// Returns the number of the call's kind that the bytes have at the offset.
fn read(kind: &str, bytes: &[u8], at: usize) -> Option<u64> {
    match kind {
        "le32" => Some(u64::from(read_le32(bytes, at)?)),
        "le64" => read_le64(bytes, at),
        _ => Some(u64::from(read_be16(bytes, at)?)),
    }
}

/// `number MOST TEXT`: the number that the text has, if it is at most `MOST`. `le32 HEX OFFSET`,
/// `le64 HEX OFFSET` and `be16 HEX OFFSET`: a number in bytes.
pub(crate) fn answer(alloc: Global, name: &str, arguments: &str) -> Result<String, Unread> {
    if name == "number" {
        let (most, text) = first_word(arguments);
        let most = RowFields::of(most).number()?;
        return number_text(alloc, parse_number(text.as_bytes(), most));
    }
    let (hex, at) = first_word(arguments);
    let bytes = bytes_of(alloc, hex)?;
    let at = RowFields::of(at).number()? as usize;
    number_text(alloc, read(name, bytes.as_slice(), at))
}
