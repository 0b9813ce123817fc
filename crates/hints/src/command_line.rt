//! Which argument is wrong (`usage_hint`), the options of `risk` and `show`, and the options that
//! name files.

use crate::keyword_fields::{expected_text, explain, unknown_keyword};
use crate::log_line::{SET, set_text};
use crate::option_names::{before_command, rare_option};
use crate::options::{explain_options, missing_value, wrong_option};
use crate::syntax::Reader;
use arguments::MAX_MARKS;
use risk_parts::parse_set;
use std::alloc::{AllocError, Global};

/// What makes records one group in the form of `risk`.
static GROUPINGS: [&str; 4] = ["source", "peer", "network", "-"];

/// Returns the arguments after `--peers` or `--no-key`, if they begin with it and the form has it.
/// `--no-key` may come last, too.
fn after_flag<'a>(form: &str, words: &'a [String]) -> &'a [String] {
    match words {
        [first, rest @ ..] if is_flag(form, first.as_str()) => rest,
        [rest @ .., last] if last.as_str() == "--no-key" && form.contains("--no-key") => rest,
        _ => words,
    }
}

/// Returns `true` if an argument is an option of the form without a value.
fn is_flag(form: &str, word: &str) -> bool {
    (word == "--peers" || word == "--no-key") && form.contains(word)
}

/// The form of `show` for a file of anchors.
const ANCHORS_FORM: &str = "show --anchors [--net CHAIN]";

/// What is said of `risk -` with `--raw -`.
const ONE_INPUT: &str = "risk - cannot be combined with --raw -: both read standard input";

/// Returns how many of the arguments after `risk` are `--core` and `--raw -`, which are before what
/// makes records one group.
fn front_length(words: &[String]) -> usize {
    let mut is_raw = false;
    for (i, word) in words.iter().enumerate() {
        let word = word.as_str();
        let is_value = is_raw && word == "-";
        is_raw = word == "--raw";
        if !is_value && !is_raw && word != "--core" && word != "--raw=-" {
            return i;
        }
    }
    words.len()
}

/// Returns `true` if one of the options is `--raw`.
fn has_raw(words: &[String]) -> bool {
    for word in words {
        if word.as_str().starts_with("--raw") {
            return true;
        }
    }
    false
}

/// Says which argument of `risk` is wrong: what makes records one group, or an option.
fn risk_hint(alloc: Global, form: &'static str, words: &[String]) -> Result<String, AllocError> {
    let length = front_length(words);
    let front = words.get(..length).unwrap_or(words);
    if let Some(text) = wrong_option(alloc, form, front)? {
        return Ok(text);
    }
    match words.get(length..).unwrap_or(&[]) {
        [first, ..] if first.as_str() == "-" && has_raw(front) => {
            String::from_str(alloc, ONE_INPUT)
        }
        [first, options @ ..] if GROUPINGS.contains(&first.as_str()) => {
            explain_options(alloc, form, options)
        }
        [first, ..] => expected_text(alloc, "source, peer, network or -", first.as_bytes(), ""),
        [] => format!(in alloc; "expected \"{form}\""),
    }
}

/// Returns the index of `--mark`.
fn mark_index(words: &[String]) -> Option<usize> {
    for (i, word) in words.iter().enumerate() {
        if word.as_str() == "--mark" {
            return Some(i);
        }
    }
    None
}

/// Returns `true` if one of the options is `--by`.
fn has_by(words: &[String]) -> bool {
    for word in words {
        if word.as_str() == "--by" || word.as_str().starts_with("--by=") {
            return true;
        }
    }
    false
}

/// Says which argument of `picture` is wrong: an option, or a set after `--mark`, which is the last
/// one.
fn picture_hint(alloc: Global, form: &'static str, words: &[String]) -> Result<String, AllocError> {
    let Some(index) = mark_index(words) else {
        return explain_options(alloc, form, words);
    };
    let options = words.get(..index).unwrap_or(words);
    if let Some(text) = wrong_option(alloc, form, options)? {
        return Ok(text);
    }
    if has_by(options) {
        return String::from_str(
            alloc,
            "--mark cannot be combined with --by: both choose the colours",
        );
    }
    let sets = words.get(index.saturating_add(1)..).unwrap_or(&[]);
    for set in sets {
        if set.as_str() == "--mark" {
            return String::from_str(alloc, "--mark is given twice");
        }
        if parse_set(set.as_bytes()).is_none() {
            let said = set_text(alloc, set.as_bytes())?;
            return format!(in alloc; "--mark: {}", said.as_str());
        }
    }
    if sets.len() > MAX_MARKS {
        return format!(in alloc;
            "--mark: at most {MAX_MARKS} sets are allowed, not {}",
            sets.len()
        );
    }
    format!(in alloc; "expected \"{form}\"")
}

/// Returns what the arguments of a command are read as.
fn reader_of(command: &[u8], rest: &[String]) -> Reader {
    let is_core = match rest {
        [first, ..] => first.as_str() == "--core",
        [] => false,
    };
    if is_core && Reader::CoreBans.find_form(command).is_some() {
        Reader::CoreBans
    } else {
        Reader::Arguments
    }
}

/// Says which argument is wrong, and what it has to be. The arguments are not those of a command.
pub fn usage_hint(alloc: Global, words: &[String]) -> Result<String, AllocError> {
    let Some((command, rest)) = words.split_first() else {
        return String::from_str(
            alloc,
            "expected a command, for example addrman lookup 1.2.3.4:8333",
        );
    };
    if command.as_str().starts_with("-") {
        return before_command(alloc, command.as_str());
    }
    if let Some(form) = Reader::Arguments.find_form(command.as_bytes()) {
        if let Some(option) = rare_option(form, rest) {
            return format!(in alloc;
                "{} is not an option of {}, only of {}",
                option.flag,
                command.as_str(),
                option.commands
            );
        }
        if let Some(text) = missing_value(alloc, form, rest)? {
            return Ok(text);
        }
        if form.starts_with("risk ") {
            return risk_hint(alloc, form, rest);
        }
        if form.starts_with("picture ") {
            return picture_hint(alloc, form, rest);
        }
        if let [first, options @ ..] = rest {
            if first.as_str() == "--anchors" {
                return explain_options(alloc, ANCHORS_FORM, options);
            }
        }
        if form.contains("--") {
            return explain_options(alloc, form, after_flag(form, rest));
        }
    }
    if command.as_str() == "help" {
        if let [name] = rest {
            return unknown_keyword(alloc, Reader::Arguments, name.as_bytes());
        }
    }
    let mut fields = Vec::new(alloc);
    for word in rest {
        fields.push(word.as_bytes())?;
    }
    let wrong = explain(
        alloc,
        reader_of(command.as_bytes(), rest),
        command.as_bytes(),
        fields.as_slice(),
    )?;
    Ok(wrong.text)
}
