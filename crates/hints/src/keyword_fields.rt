//! Which field after a keyword is wrong, and which keyword is nearest by edits.

use crate::field_kinds::find_wanted;
use crate::quoting::quoted;
use crate::syntax::{Reader, keyword_of};
use ban_list::BanRule;
use std::alloc::{AllocError, Global};
use strsim::levenshtein;

/// What is said of a text that `lookup` does not read.
pub(crate) const LOOKUP: &str = "; for a name, or an address without a port, use addrman address";

/// What is wrong with texts, and which of them it is in.
#[derive(Drop)]
pub(crate) struct Wrong {
    pub text: String,
    pub index: usize,
}

/// Says what is wrong with a keyword and the fields after it, which the reader refuses.
pub(crate) fn explain(
    alloc: Global,
    reader: Reader,
    keyword: &[u8],
    fields: &[&[u8]],
) -> Result<Wrong, AllocError> {
    let Some(form) = reader.find_form(keyword) else {
        let text = unknown_keyword(alloc, reader, keyword)?;
        return Ok(Wrong { text, index: 0 });
    };
    if form.split(' ').skip(1).count() != fields.len() {
        let text = other_count(alloc, reader, form, fields)?;
        return Ok(Wrong { text, index: 0 });
    }
    for (i, (name, field)) in form.split(' ').skip(1).zip(fields.iter()).enumerate() {
        if let Some(text) = explain_field(alloc, form, name, field)? {
            let index = i.saturating_add(1);
            return Ok(Wrong { text, index });
        }
    }
    let more = if form.ends_with("UNTIL") {
        ", with UNTIL later than NOW"
    } else {
        ""
    };
    let text = format!(in alloc; "expected \"{form}\"{more}")?;
    Ok(Wrong { text, index: 0 })
}

/// Says what is expected in the place of a field, or returns `None` if the field is right.
fn explain_field(
    alloc: Global,
    form: &'static str,
    name: &'static str,
    field: &[u8],
) -> Result<Option<String>, AllocError> {
    if let Some((first, second)) = name.split_once('|') {
        if field == first.as_bytes() || field == second.as_bytes() {
            return Ok(None);
        }
        let mut expected = String::from_str(alloc, first)?;
        expected.push_str(" or ")?;
        expected.push_str(second)?;
        return Ok(Some(expected_text(alloc, expected.as_str(), field, "")?));
    }
    match find_wanted(name) {
        Some(wanted) if !wanted.has(alloc, rule_of(form), field) => {
            let usual = wanted.usual_error(rule_of(form), field).unwrap_or("");
            let mut text = expected_text(alloc, wanted.text, field, usual)?;
            if keyword_of(form) == "lookup" {
                text.push_str(LOOKUP)?;
            }
            Ok(Some(text))
        }
        _ => Ok(None),
    }
}

/// Returns the rule of the list of bans that a form is for.
fn rule_of(form: &str) -> BanRule {
    if form.contains("--core") {
        BanRule::Names
    } else {
        BanRule::Labels
    }
}

/// Says what is expected, what there is, and which usual error it has, if it has one.
pub fn expected_text(
    alloc: Global,
    expected: &str,
    field: &[u8],
    usual: &str,
) -> Result<String, AllocError> {
    let shown = quoted(alloc, field)?;
    let colon = if usual.is_empty() { "" } else { ": " };
    format!(in alloc; "expected {expected}; got {}{colon}{usual}", shown.as_str())
}

/// Says how many fields there are, and which the form has.
fn other_count(
    alloc: Global,
    reader: Reader,
    form: &'static str,
    fields: &[&[u8]],
) -> Result<String, AllocError> {
    if keyword_of(form) == "limit" {
        return String::from_str(alloc, "limit reads its log from standard input: use < FILE");
    }
    if has_empty(fields) {
        return format!(in alloc; "expected one space before each field: \"{form}\"");
    }
    let what = if reader == Reader::Arguments || reader == Reader::CoreBans {
        "arguments"
    } else {
        "fields"
    };
    format!(in alloc; "expected \"{form}\"; {what} given: {}", fields.len())
}

/// Returns `true` if a field is empty.
fn has_empty(fields: &[&[u8]]) -> bool {
    for field in fields {
        if field.is_empty() {
            return true;
        }
    }
    false
}

/// Says which command reads lines that begin with this keyword, or which keyword is the nearest.
pub(crate) fn unknown_keyword(
    alloc: Global,
    reader: Reader,
    keyword: &[u8],
) -> Result<String, AllocError> {
    if let Some(other) = reader.that_knows(keyword) {
        // The keyword is one of a table, so it is short and has no other byte.
        let name = str::from_utf8(keyword).unwrap_or("");
        return format!(in alloc; "{name} belongs in a log for {}", other.command());
    }
    let shown = quoted(alloc, keyword)?;
    let what = reader.keyword_name();
    let mut text = format!(in alloc; "{} is not a {what}", shown.as_str())?;
    if let Some(name) = in_lower_case(alloc, reader, keyword)? {
        text.push_str("; write it in lower case: ")?;
        text.push_str(name)?;
    } else if let Some(name) = nearest(alloc, reader.forms(), keyword)? {
        text.push_str("; did you mean ")?;
        text.push_str(name)?;
        text.push_str("?")?;
    } else if reader == Reader::Arguments {
        text.push_str("; addrman help lists the commands")?;
    }
    Ok(text)
}

/// Returns the keyword that a text is in lower case, if it has a capital letter.
fn in_lower_case(
    alloc: Global,
    reader: Reader,
    text: &[u8],
) -> Result<Option<&'static str>, AllocError> {
    let mut lower = Vec::new(alloc);
    for byte in text {
        lower.push(byte.to_ascii_lowercase())?;
    }
    match reader.find_form(lower.as_slice()) {
        Some(form) => Ok(Some(keyword_of(form))),
        None => Ok(None),
    }
}

/// The maximum number of bytes of a text that is compared.
const MAX_COMPARED: usize = 40;

/// The maximum number of edits between a text and the keyword that is named for it.
const MAX_EDITS: usize = 3;

/// Returns the keyword of the forms to which the fewest edits lead from a text, if they are at most
/// three and at most half as many as its bytes.
pub(crate) fn nearest(
    alloc: Global,
    forms: &[&'static str],
    text: &[u8],
) -> Result<Option<&'static str>, AllocError> {
    let Ok(text) = str::from_utf8(text) else {
        return Ok(None);
    };
    if text.len() > MAX_COMPARED {
        return Ok(None);
    }
    let mut best = None;
    let mut fewest = (text.len() / 2).min(MAX_EDITS).saturating_add(1);
    for form in forms {
        let keyword = keyword_of(*form);
        let edits = levenshtein(alloc, text, keyword)?;
        if edits < fewest {
            fewest = edits;
            best = Some(keyword);
        }
    }
    Ok(best)
}
