//! The arguments in the order in which `run` takes them, whichever order they were given in.

use std::alloc::{AllocError, Global};

/// The options in the order in which `run` takes them, and how many values each has at most.
static ORDER: [(&str, usize); 16] = [
    ("--exempt", 1),
    ("--services", 1),
    ("--skip-bad-ports", 0),
    ("--core", 0),
    ("--raw", 1),
    ("--by", 1),
    ("--peers", 1),
    ("--anchors", 1),
    ("--asmap", 1),
    ("--bans", 1),
    ("--key", 1),
    ("--key-file", 1),
    ("--net", 1),
    ("--magic", 1),
    ("--no-key", 0),
    ("--mark", usize::MAX),
];

/// How many of them come before the arguments that are not options.
const BEFORE_PLACES: usize = 6;

/// The position of all other arguments: no option has it.
const NONE: usize = 16;

/// An argument that no command takes. After an option it stands for the value that is missing.
pub(crate) const NO_ARGUMENT: &str = "--";

/// Returns `true` if an argument looks like an option.
pub(crate) fn is_dashed(word: &str) -> bool {
    word.starts_with("-") && word != "-"
}

/// Returns the position of an option in the order, and the maximum number of values after it.
fn position_of(word: &str) -> (usize, usize) {
    let (flag, is_joined) = match word.split_once('=') {
        Some((flag, _)) => (flag, true),
        None => (word, false),
    };
    for (i, (name, count)) in ORDER.iter().enumerate() {
        if *name == flag {
            return (i, if is_joined { 0 } else { *count });
        }
    }
    (NONE, 0)
}

/// Returns `true` if an option may have no value after it: `--anchors`, and `--peers` of `diff`.
fn may_be_alone(command: &str, option: &str) -> bool {
    option == "--anchors" || command == "diff" && option == "--peers"
}

/// Returns `true` if a value can follow an option, as the next argument.
fn has_value(next: Option<&String>) -> bool {
    match next {
        Some(word) => !is_dashed(word.as_str()),
        None => false,
    }
}

/// Appends those of the arguments that have this position in the order: an option with its values,
/// or what is no value of an option.
fn put_position(
    alloc: Global,
    command: &str,
    wanted: usize,
    words: &[String],
    out: &mut Vec<String>,
) -> Result<(), AllocError> {
    let mut position = NONE;
    let mut left: usize = 0;
    for (i, word) in words.iter().enumerate() {
        let word = word.as_str();
        let mut is_torn = false;
        if is_dashed(word) {
            (position, left) = position_of(word);
            let next = words.get(i.saturating_add(1));
            is_torn = left > 0 && !has_value(next) && !may_be_alone(command, word);
        } else if left > 0 {
            left = left.saturating_sub(1);
        } else {
            position = NONE;
        }
        if position == wanted {
            out.push(String::from_str(alloc, word)?)?;
            if is_torn {
                out.push(String::from_str(alloc, NO_ARGUMENT)?)?;
            }
        }
    }
    Ok(())
}

/// Returns the command and its arguments in the order in which `run` takes them: the options that
/// come first with their values, what is not an option, and the other options.
pub(crate) fn put_in_order(alloc: Global, words: &[String]) -> Result<Vec<String>, AllocError> {
    let mut out = Vec::new(alloc);
    let Some((command, rest)) = words.split_first() else {
        return Ok(out);
    };
    let command = command.as_str();
    out.push(String::from_str(alloc, command)?)?;
    for position in 0..BEFORE_PLACES {
        put_position(alloc, command, position, rest, &mut out)?;
    }
    put_position(alloc, command, NONE, rest, &mut out)?;
    for position in BEFORE_PLACES..NONE {
        put_position(alloc, command, position, rest, &mut out)?;
    }
    Ok(out)
}
