//! A text in quotation marks, cut after 40 bytes.

use std::alloc::{AllocError, Global};

/// The maximum number of bytes of a text that are shown.
const MAX_SHOWN: usize = 40;

/// Returns the text in quotation marks, with three dots after it if it has more than 40 bytes, of
/// which the first are shown. A byte that is no printable ASCII character, a quotation mark or a
/// backslash is shown as `\x` and two hexadecimal digits.
pub(crate) fn quoted(alloc: Global, text: &[u8]) -> Result<String, AllocError> {
    let mut shown = String::from_str(alloc, "\"")?;
    for byte in text.iter().take(MAX_SHOWN) {
        push_byte(alloc, &mut shown, *byte)?;
    }
    shown.push_str("\"")?;
    if text.len() > MAX_SHOWN {
        shown.push_str("...")?;
    }
    Ok(shown)
}

/// Appends a byte as it is shown.
fn push_byte(alloc: Global, shown: &mut String, byte: u8) -> Result<(), AllocError> {
    match byte {
        b'"' | b'\\' => shown.push_str(format!(in alloc; "\\x{byte:02x}")?.as_str()),
        b' '..=b'~' => shown.push(char::from(byte)),
        _ => shown.push_str(format!(in alloc; "\\x{byte:02x}")?.as_str()),
    }
}
