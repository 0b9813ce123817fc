//! `FileKind`: `--core` and the chain together, for each command that reads `peers.dat`.

ghost use Rattle.std.specs.Prelude.{◌≡◌, ◌≢◌, ℕ, Bool, List, ◌∷◌, codes, map, string_bytes, IfSome, IfNone};
ghost use Rattle.arguments.specs.Options.{HasRule, IsAfterColouring, IsAfterDash, IsAfterGrouping, IsFileOptions, IsListingOptions, IsNet, IsOpeningOptions, IsPeersOption};
ghost use Rattle.arguments.specs.Table.{HasNoValues, Keyed, Network, Opening, Reads, Records, name_of, request_values};
ghost use Rattle.arguments.specs.declared.colours.Colours.{Colours};
ghost use Rattle.arguments.specs.declared.file_kind.FileKind.{FileKind};
ghost use Rattle.arguments.specs.declared.grouping.Grouping.{Grouping};
ghost use Rattle.arguments.specs.declared.name.CommandName.TheVariants as name;
ghost use Rattle.placing.specs.declared.sum.SumRule.TheVariants.{Bytes};

use crate::colours::read_colours;
use crate::grouping::read_after_grouping;
use crate::options::{after_flag, read_after_word, read_listing, read_net, read_opening};
use crate::{Colours, Grouping, Request};
use peers_file::Chain;
use placing::SumRule;

/// Which peers.dat is read and written.
#[derive(Clone, Copy)]
pub struct FileKind {
    /// The chain whose peers it has.
    pub chain: Chain,
    /// What the checksum in it, of the asmap in use, is taken of: `Bits` with `--core`, as Bitcoin
    /// Core does it, and else `Bytes`.
    pub rule: SumRule,
}

/// Cuts `--core` off the arguments that begin with it, and returns the rule that it chooses and the
/// rest.
fn cut_rule(words: &[String]) -> (SumRule, &[String])
    ensures found { HasRule result.0 (map string_bytes result.1.now) (map string_bytes words.now) }
    ensures none { result.0 ≡ Bytes → (rest : List (List ℕ)) →
        map string_bytes words.now ≢ codes "--core" ∷ rest }
{
    match after_flag(words, b"--core") {
        Some(rest) => (SumRule::Bits, rest),
        None => (SumRule::Bytes, words),
    }
}

/// Reads the arguments that say how tables are opened: `--core`, and after it those that choose a
/// key and a chain.
pub(crate) fn read_opening_kind(words: &[String]) -> Option<(Option<[u8; 32]>, FileKind)>
    ensures found { IfSome result (λ o.
        IsFileOptions (IsOpeningOptions o.0) (map string_bytes words.now) o.1) }
    ensures none { IfNone result (HasNoValues Opening (map string_bytes words.now)) }
{
    let (rule, rest) = cut_rule(words);
    match read_opening(rest) {
        Some((key, chain)) => Some((key, FileKind { chain, rule })),
        None => None,
    }
}

/// Reads the arguments that say which peers.dat is read: `--core`, and after it those that choose a
/// chain.
pub(crate) fn read_file_kind(words: &[String]) -> Option<FileKind>
    ensures found { IfSome result (IsFileOptions IsNet (map string_bytes words.now)) }
    ensures none { IfNone result (HasNoValues Network (map string_bytes words.now)) }
{
    let (rule, rest) = cut_rule(words);
    match read_net(rest) {
        Some(chain) => Some(FileKind { chain, rule }),
        None => None,
    }
}

/// Reads the arguments after `show` that list peers.dat: `--core`, and after it those that choose a
/// chain, and whether the key is listed.
pub(crate) fn read_listing_kind(words: &[String]) -> Option<(bool, FileKind)>
    ensures found { IfSome result (λ o.
        IsFileOptions (IsListingOptions o.0) (map string_bytes words.now) o.1) }
    ensures none { IfNone result ((keyed : Bool) (kind : FileKind) →
        ¬ IsFileOptions (IsListingOptions keyed) (map string_bytes words.now) kind) }
{
    let (rule, rest) = cut_rule(words);
    match read_listing(rest) {
        Some((keyed, chain)) => Some((keyed, FileKind { chain, rule })),
        None => None,
    }
}

/// Reads the arguments after `from-raw`: `--core`, and after it those that choose a key, which is
/// not left out, and a chain.
pub(crate) fn read_keyed_kind(words: &[String]) -> Option<Request>
    ensures found { IfSome result (λ request. (name_of request ≡ name.FromRaw)
        × Reads Keyed (map string_bytes words.now) (request_values request)) }
    ensures none { IfNone result (HasNoValues Keyed (map string_bytes words.now)) }
{
    let Some((key, kind)) = read_opening_kind(words) else {
        return None;
    };
    match key {
        Some(key) => Some(Request::FromRaw { key, kind }),
        None => None,
    }
}

/// Reads the arguments after `risk` for a file: `--core`, and after it what makes records one
/// group, and the arguments that choose a chain.
pub(crate) fn read_grouping_kind(words: &[String]) -> Option<(Grouping, FileKind)>
    ensures found { IfSome result (λ o.
        IsFileOptions (IsAfterGrouping o.0) (map string_bytes words.now) o.1) }
    ensures none { IfNone result ((by : Grouping) (kind : FileKind) →
        ¬ IsFileOptions (IsAfterGrouping by) (map string_bytes words.now) kind) }
{
    let (rule, rest) = cut_rule(words);
    match read_after_grouping(rest) {
        Some((by, chain)) => Some((by, FileKind { chain, rule })),
        None => None,
    }
}

/// Reads the arguments after `risk` that have sets read from the log: `--core`, and after it `-`
/// and the arguments that choose a chain.
pub(crate) fn read_sets_kind(words: &[String]) -> Option<FileKind>
    ensures found { IfSome result (IsFileOptions IsAfterDash (map string_bytes words.now)) }
    ensures none { IfNone result ((kind : FileKind) →
        ¬ IsFileOptions IsAfterDash (map string_bytes words.now) kind) }
{
    let (rule, rest) = cut_rule(words);
    match read_after_word(rest, b"-") {
        Some(chain) => Some(FileKind { chain, rule }),
        None => None,
    }
}

/// Reads the arguments after `picture` for a file: `--core`, and after it what the colours show,
/// and the arguments that choose a chain.
pub(crate) fn read_colours_kind(words: &[String]) -> Option<(Colours, FileKind)>
    ensures found { IfSome result (λ o.
        IsFileOptions (IsAfterColouring o.0) (map string_bytes words.now) o.1) }
    ensures none { IfNone result ((colours : Colours) (kind : FileKind) →
        ¬ IsFileOptions (IsAfterColouring colours) (map string_bytes words.now) kind) }
{
    let (rule, rest) = cut_rule(words);
    match read_colours(rest) {
        Some((colours, chain)) => Some((colours, FileKind { chain, rule })),
        None => None,
    }
}

/// Reads the arguments after `diff`: none, or those that say of which peers.dat the records are.
pub(crate) fn read_records(words: &[String]) -> Option<Option<FileKind>>
    ensures found { IfSome result (IsPeersOption (map string_bytes words.now)) }
    ensures none { IfNone result (HasNoValues Records (map string_bytes words.now)) }
{
    if words.is_empty() {
        return Some(None);
    }
    let (rule, rest) = cut_rule(words);
    match read_after_word(rest, b"--peers") {
        Some(chain) => Some(Some(FileKind { chain, rule })),
        None => None,
    }
}
