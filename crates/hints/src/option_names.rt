//! Names of options: which commands have them, and which one a wrong name is like.

use crate::keyword_fields::nearest;
use crate::quoting::quoted;
use crate::syntax::keyword_of;
use std::alloc::{AllocError, Global};

/// The options that may come after a command.
static OPTIONS: [&str; 17] = [
    "--help",
    "--key",
    "--key-file",
    "--net",
    "--magic",
    "--core",
    "--no-key",
    "--peers",
    "--asmap",
    "--anchors",
    "--bans",
    "--raw",
    "--by",
    "--mark",
    "--exempt",
    "--services",
    "--skip-bad-ports",
];

/// The options that are commands.
static COMMANDS: [&str; 2] = ["--help", "--version"];

/// An option that few commands have, and these.
pub(crate) struct RareOption {
    pub flag: &'static str,
    pub commands: &'static str,
}

/// The options that few commands have.
static RARE_OPTIONS: [RareOption; 10] = [
    RareOption {
        flag: "--peers",
        commands: "show, picture, raw, info, groups, risk and diff",
    },
    RareOption {
        flag: "--asmap",
        commands: "picture, raw, info, groups, risk, from-raw, diff, check, lookup, decompile \
                   and address",
    },
    RareOption {
        flag: "--anchors",
        commands: "show",
    },
    RareOption {
        flag: "--bans",
        commands: "banned and bans",
    },
    RareOption {
        flag: "--raw",
        commands: "picture, info, groups and risk",
    },
    RareOption {
        flag: "--by",
        commands: "picture",
    },
    RareOption {
        flag: "--mark",
        commands: "picture",
    },
    RareOption {
        flag: "--exempt",
        commands: "opener",
    },
    RareOption {
        flag: "--services",
        commands: "opener",
    },
    RareOption {
        flag: "--skip-bad-ports",
        commands: "opener",
    },
];

/// Returns the option of other commands, if an argument is one.
pub(crate) fn rare_option(form: &str, words: &[String]) -> Option<&'static RareOption> {
    for option in &RARE_OPTIONS {
        for word in words {
            let begins = word.as_str().strip_prefix(option.flag);
            if !form.contains(option.flag)
                && begins.is_some_and(|rest| rest.is_empty() || rest.starts_with("="))
            {
                return Some(option);
            }
        }
    }
    None
}

/// Returns `true` if a command, whose form this is, has an option.
fn has_option(form: &'static str, name: &str) -> bool {
    let in_form = match name {
        "--key-file" => "--key",
        "--magic" => "--net",
        other => other,
    };
    OPTIONS.contains(&name)
        && (name == "--help" || form.contains(in_form) || is_rare_of(keyword_of(form), name))
}

/// Returns `true` if a command is one of the few that have this option.
fn is_rare_of(command: &str, name: &str) -> bool {
    for option in &RARE_OPTIONS {
        if option.flag == name {
            for word in option.commands.split(' ') {
                if word.strip_suffix(",").unwrap_or(word) == command {
                    return true;
                }
            }
        }
    }
    false
}

/// Says that a command has no option of this name, and which one it has that is like it; or what is
/// wrong with one that it has, which takes no value.
pub(crate) fn unknown_option(
    alloc: Global,
    form: &'static str,
    word: &str,
) -> Result<String, AllocError> {
    let flag = match word.split_once('=') {
        Some((flag, _)) => flag,
        None => word,
    };
    let command = keyword_of(form);
    if has_option(form, flag) {
        let said = if flag == word {
            "is given twice"
        } else {
            "takes no value"
        };
        return format!(in alloc; "{flag} {said}");
    }
    let shown = quoted(alloc, flag.as_bytes())?;
    let shown = shown.as_str();
    match nearest(alloc, &OPTIONS, flag.as_bytes())? {
        Some(name) if has_option(form, name) => {
            format!(in alloc; "{shown} is not an option of {command}; did you mean {name}?")
        }
        _ => format!(in alloc; "{shown} is not an option of {command}; expected \"{form}\""),
    }
}

/// Says what comes before the options, or which command is like an option in its place.
pub(crate) fn before_command(alloc: Global, word: &str) -> Result<String, AllocError> {
    match nearest(alloc, &COMMANDS, word.as_bytes())? {
        Some(name) => {
            let shown = quoted(alloc, word.as_bytes())?;
            format!(in alloc; "{} is not an option; did you mean {name}?", shown.as_str())
        }
        None => String::from_str(
            alloc,
            "expected [-C DIR] COMMAND before other options, for example addrman show --net CHAIN",
        ),
    }
}
