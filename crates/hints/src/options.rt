//! What is wrong with an option or its value: the key, the chain, the magic.

use crate::keyword_fields::{expected_text, nearest};
use crate::log_line::SET;
use crate::option_names::unknown_option;
use crate::peers_dat::CHAINS;
use crate::quoting::quoted;
use crate::syntax::keyword_of;
use grammar::{read_decimal, read_nets};
use risk_parts::parse_set;
use std::alloc::{AllocError, Global};

/// What the colours of a picture go by.
static COLOURINGS: [&str; 4] = ["network", "source", "group", "age"];

/// The argument that stands for the value of an option, if it has none.
const NO_VALUE: &str = "--";

/// How many hexadecimal digits a key has.
const KEY_DIGITS: usize = 64;

/// How many hexadecimal digits the magic of a chain has.
const MAGIC_DIGITS: usize = 8;

/// An option.
#[derive(Clone, Copy, PartialEq, Eq)]
enum Name {
    Key,
    Net,
    Magic,
    Core,
    Raw,
    By,
    Mark,
    Exempt,
    Services,
    SkipBadPorts,
}

/// All options.
static NAMES: [Name; 10] = [
    Name::Key,
    Name::Net,
    Name::Magic,
    Name::Core,
    Name::Raw,
    Name::By,
    Name::Mark,
    Name::Exempt,
    Name::Services,
    Name::SkipBadPorts,
];

/// An option, and the value that an argument has after `=`.
#[derive(Clone, Copy)]
struct Given<'a> {
    name: Name,
    value: Option<&'a str>,
}

impl Name {
    /// Returns the name as it is given.
    fn text(self) -> &'static str {
        match self {
            Name::Key => "--key",
            Name::Net => "--net",
            Name::Magic => "--magic",
            Name::Core => "--core",
            Name::Raw => "--raw",
            Name::By => "--by",
            Name::Mark => "--mark",
            Name::Exempt => "--exempt",
            Name::Services => "--services",
            Name::SkipBadPorts => "--skip-bad-ports",
        }
    }

    /// Returns the name in the forms that have the option.
    fn in_form(self) -> &'static str {
        match self {
            Name::Magic => "--net",
            other => other.text(),
        }
    }

    /// Returns what its value has to be.
    fn wanted(self) -> &'static str {
        match self {
            Name::Key => "64 hexadecimal digits",
            Name::Net => "main, test, testnet4, signet or regtest",
            Name::Magic => "8 hexadecimal digits",
            Name::Core | Name::SkipBadPorts => "",
            Name::Raw => "- (standard input)",
            Name::By => "network, source, group or age",
            Name::Mark => SET,
            Name::Exempt => {
                "all, or some of ipv4, ipv6, onion, i2p, cjdns and internal, such as ipv4,onion"
            }
            Name::Services => "a number below 2^64",
        }
    }

    /// Returns `true` if a value comes after it.
    fn has_value(self) -> bool {
        self != Name::Core && self != Name::SkipBadPorts
    }
}

/// What is said of `--core` and `--raw -` together.
const NO_SUM: &str = "--core cannot be combined with --raw: a listing has no checksum";

/// Says which of the arguments after the name of a command is wrong. After the name its form has
/// only options.
pub(crate) fn explain_options(
    alloc: Global,
    form: &'static str,
    words: &[String],
) -> Result<String, AllocError> {
    match wrong_option(alloc, form, words)? {
        Some(text) => Ok(text),
        None => format!(in alloc; "expected \"{form}\""),
    }
}

/// Says which of some options is wrong, or returns `None` if each is right by itself.
pub(crate) fn wrong_option(
    alloc: Global,
    form: &'static str,
    words: &[String],
) -> Result<Option<String>, AllocError> {
    let mut names = Vec::new(alloc);
    let mut pending = None;
    for word in words {
        let Some(given) = given_by(form, pending, word.as_str()) else {
            return Ok(Some(no_option(alloc, form, word.as_str())?));
        };
        let name = given.name;
        if pending.is_none() {
            if names.contains(&name) {
                return Ok(Some(format!(in alloc; "{} is given twice", name.text())?));
            }
            names.push(name)?;
        }
        if names.contains(&Name::Core) && names.contains(&Name::Raw) {
            return Ok(Some(String::from_str(alloc, NO_SUM)?));
        }
        if let Some(text) = explain_given(alloc, given)? {
            return Ok(Some(text));
        }
        pending = match given.value {
            None if name.has_value() => Some(name),
            _ => None,
        };
    }
    match pending {
        Some(name) => Ok(Some(missing_text(alloc, name)?)),
        None => Ok(None),
    }
}

/// Says that the value of an option is missing.
fn missing_text(alloc: Global, name: Name) -> Result<String, AllocError> {
    format!(in alloc; "{}: expected {}", name.text(), name.wanted())
}

/// Says which option lacks its value, or returns `None` if none does.
pub(crate) fn missing_value(
    alloc: Global,
    form: &'static str,
    words: &[String],
) -> Result<Option<String>, AllocError> {
    let mut pending = None;
    for word in words {
        let given = option_of(form, word.as_str());
        match (pending, given) {
            (Some(name), _) if word.as_str() == NO_VALUE => {
                return Ok(Some(missing_text(alloc, name)?));
            }
            (_, Some(Given { name, value: None })) if name.has_value() => pending = Some(name),
            _ => pending = None,
        }
    }
    Ok(None)
}

/// Returns what an argument gives: the value of an option before it, or an option of the form.
fn given_by<'a>(form: &'static str, pending: Option<Name>, word: &'a str) -> Option<Given<'a>> {
    match pending {
        Some(name) => Some(Given {
            name,
            value: Some(word),
        }),
        None => option_of(form, word),
    }
}

/// Returns the option of the form that an argument begins with.
fn option_of<'a>(form: &'static str, word: &'a str) -> Option<Given<'a>> {
    for name in NAMES {
        if !form.contains(name.in_form()) {
            continue;
        }
        if word == name.text() {
            return Some(Given { name, value: None });
        }
        let value = after_equals(word, name.text());
        if name.has_value() && value.is_some() {
            return Some(Given { name, value });
        }
    }
    None
}

/// Returns what follows the name and `=`.
fn after_equals<'a>(word: &'a str, name: &str) -> Option<&'a str> {
    word.strip_prefix(name)?.strip_prefix("=")
}

/// Says what is wrong with the value of an option, or returns `None` if nothing is.
fn explain_given(alloc: Global, given: Given<'_>) -> Result<Option<String>, AllocError> {
    let Some(value) = given.value else {
        return Ok(None);
    };
    match given.name {
        Name::Key => explain_key(alloc, value),
        other => explain_value(alloc, other, value),
    }
}

/// Says what is wrong with a key, or returns `None` if nothing is. The key is not shown.
fn explain_key(alloc: Global, digits: &str) -> Result<Option<String>, AllocError> {
    let Some(error) = key_error(digits) else {
        return Ok(None);
    };
    let count = digits.len();
    let wanted = Name::Key.wanted();
    let text = format!(in alloc; "--key: expected {wanted}; got {count} characters{error}")?;
    Ok(Some(text))
}

/// Says what is wrong with the value of an option other than the key, or returns `None` if nothing
/// is.
fn explain_value(alloc: Global, name: Name, value: &str) -> Result<Option<String>, AllocError> {
    let is_right = match name {
        Name::Magic => value.len() == MAGIC_DIGITS && is_hex(value),
        Name::Raw => value == "-",
        Name::By => COLOURINGS.contains(&value),
        Name::Mark => parse_set(value.as_bytes()).is_some(),
        Name::Exempt => read_nets(value.as_bytes()).is_ok(),
        Name::Services => read_decimal(value.as_bytes(), u64::MAX).is_some(),
        _ => is_chain(value),
    };
    if is_right {
        return Ok(None);
    }
    let mut said = format!(in alloc; "{}: ", name.text())?;
    said.push_str(expected_text(alloc, name.wanted(), value.as_bytes(), "")?.as_str())?;
    if let (Name::Net, Some(chain)) = (name, similar_chain(alloc, value)?) {
        said.push_str("; did you mean ")?;
        said.push_str(chain)?;
        said.push_str("?")?;
    }
    Ok(Some(said))
}

/// Returns the chain that a text is another name of, or nearly the name of.
fn similar_chain(alloc: Global, value: &str) -> Result<Option<&'static str>, AllocError> {
    let mut names = Vec::new(alloc);
    for (_, name) in &CHAINS {
        names.push(*name)?;
    }
    match value {
        "mainnet" => Ok(Some("main")),
        "testnet" | "testnet3" => Ok(Some("test")),
        _ => nearest(alloc, names.as_slice(), value.as_bytes()),
    }
}

/// Returns `true` if a text is the name of a chain.
fn is_chain(value: &str) -> bool {
    for (_, name) in &CHAINS {
        if *name == value {
            return true;
        }
    }
    false
}

/// Returns `true` if all of a text is hexadecimal digits.
fn is_hex(text: &str) -> bool {
    for byte in text.as_bytes() {
        if !byte.is_ascii_hexdigit() {
            return false;
        }
    }
    true
}

/// Returns what is wrong with a key besides its length.
fn key_error(digits: &str) -> Option<&'static str> {
    if digits.starts_with("0x") {
        return Some("; leave out the 0x");
    }
    if !is_hex(digits) {
        return Some(", not all of them hexadecimal digits");
    }
    if digits.len() != KEY_DIGITS {
        return Some("");
    }
    None
}

/// Says that the form has no such option. A key is not shown.
fn no_option(alloc: Global, form: &'static str, word: &str) -> Result<String, AllocError> {
    let command = keyword_of(form);
    if word.len() == KEY_DIGITS && is_hex(word) {
        return format!(in alloc; "a key comes after --key; expected \"{form}\"");
    }
    if word.starts_with("-") && word != "-" {
        return unknown_option(alloc, form, word);
    }
    let shown = quoted(alloc, word.as_bytes())?;
    let shown = shown.as_str();
    let input = match command {
        "replay" | "opener" => "log",
        "from-raw" => "listing",
        _ => "",
    };
    if !input.is_empty() {
        return format!(in alloc;
            "{shown} is not an option: {command} reads its {input} from standard input, so use < \
             FILE"
        );
    }
    let file = if is_path(word) {
        "; to read another file, use --peers FILE"
    } else {
        ""
    };
    format!(in alloc; "{shown} is not an option of {command}{file}; expected \"{form}\"")
}

/// Returns `true` if an argument looks like the path of a file.
fn is_path(word: &str) -> bool {
    !word.starts_with("-") && (word.contains(".") || word.contains("/"))
}
