//! `--help`, `-h` and `--version` as commands, and the argument after `help`.

ghost use Rattle.std.specs.Prelude.{◌≡◌, map, string_bytes, IfSome, IfNone};
ghost use Rattle.arguments.specs.Table.{HasNoValues, OfCommand, Reads, name_of, plain_word, request_values};
ghost use Rattle.arguments.specs.declared.name.CommandName.TheVariants as name;

use crate::Request;
use crate::name::NAMES;
use crate::options::only_word;
use grammar::find_keyword;

/// Returns the name of the command that an option in its place asks for, and else the word itself.
#[tactic(auto, unfolding(crate::specs::Table::plain_word))]
pub(crate) fn plain_word(word: &[u8]) -> &[u8]
    ensures { result.now ≡ plain_word word.now }
{
    if word == b"--help".as_slice() {
        b"help"
    } else if word == b"-h".as_slice() {
        b"help"
    } else if word == b"--version".as_slice() {
        b"version"
    } else {
        word
    }
}

/// Reads the argument after `help`, the name of a command, or none.
pub(crate) fn read_command(words: &[String]) -> Option<Request>
    ensures found { IfSome result (λ request. (name_of request ≡ name.Help)
        × Reads OfCommand (map string_bytes words.now) (request_values request)) }
    ensures none { IfNone result (HasNoValues OfCommand (map string_bytes words.now)) }
{
    if words.is_empty() {
        return Some(Request::Help { command: None });
    }
    let Some(word) = only_word(words) else {
        return None;
    };
    match find_keyword(&NAMES, word) {
        Some(name) => Some(Request::Help {
            command: Some(name),
        }),
        None => None,
    }
}
