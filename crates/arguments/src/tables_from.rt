//! `TablesFrom`: `--raw -`, `--core` or neither, which says whether the tables are those of a
//! listing or of `peers.dat`.

ghost use Rattle.std.specs.Prelude.{◌≡◌, ℕ, List, true, false, map, string_bytes, IfSome, IfNone};
ghost use Rattle.arguments.specs.Options.{IsNet, IsRaw, IsTables};
ghost use Rattle.arguments.specs.Table.{Coloured, Grouped, HasNoValues, Reads, Tables, name_of, request_values};
ghost use Rattle.arguments.specs.declared.name.CommandName.TheVariants as name;

use crate::colours::read_colours;
use crate::file_kind::{read_colours_kind, read_file_kind, read_grouping_kind, read_sets_kind};
use crate::grouping::read_after_grouping;
use crate::options::{cut_option, read_net};
use crate::{FileKind, Request};
use peers_file::Chain;

/// Where the tables come from that a command looks at.
#[derive(Clone, Copy)]
pub enum TablesFrom {
    /// peers.dat, a file of this kind.
    File { kind: FileKind },
    /// A listing of the tables, as JSON, of this chain, in the place of peers.dat.
    Listing { chain: Chain },
}

/// Returns the arguments after `--raw -`, if they begin with it.
pub(crate) fn after_raw(words: &[String]) -> Option<&[String]>
    ensures found { IfSome result (λ rest.
        IsRaw (map string_bytes rest.now) (map string_bytes words.now)) }
    ensures none { IfNone result ((rest : List (List ℕ)) →
        ¬ IsRaw rest (map string_bytes words.now)) }
{
    let Some((value, rest)) = cut_option(words, b"--raw") else {
        return None;
    };
    if value == b"-".as_slice() {
        return Some(rest);
    }
    None
}

/// Reads the arguments that say where the tables come from: `--raw -` or `--core` or none of them,
/// and after it those that choose a chain.
pub(crate) fn read_tables(words: &[String]) -> Option<TablesFrom>
    ensures found { IfSome result (IsTables IsNet (map string_bytes words.now)) }
    ensures none { IfNone result (HasNoValues Tables (map string_bytes words.now)) }
{
    if let Some(rest) = after_raw(words) {
        return match read_net(rest) {
            Some(chain) => Some(TablesFrom::Listing { chain }),
            None => None,
        };
    }
    match read_file_kind(words) {
        Some(kind) => Some(TablesFrom::File { kind }),
        None => None,
    }
}

/// Reads the arguments after `picture`: `--raw -` or `--core` or none of them, and after it what
/// the colours show, and the arguments that choose a chain.
pub(crate) fn read_picture(words: &[String]) -> Option<Request>
    ensures found { IfSome result (λ request. (name_of request ≡ name.Picture)
        × Reads Coloured (map string_bytes words.now) (request_values request)) }
    ensures none { IfNone result (HasNoValues Coloured (map string_bytes words.now)) }
{
    if let Some(rest) = after_raw(words) {
        return match read_colours(rest) {
            Some((colours, chain)) => Some(Request::Picture {
                colours,
                from: TablesFrom::Listing { chain },
            }),
            None => None,
        };
    }
    match read_colours_kind(words) {
        Some((colours, kind)) => Some(Request::Picture {
            colours,
            from: TablesFrom::File { kind },
        }),
        None => None,
    }
}

/// Reads the arguments after `risk`: `--raw -` or `--core` or none of them, and after it what makes
/// records one group, or `-`, but not after `--raw -`, and the arguments that choose a chain.
pub(crate) fn read_risk(words: &[String]) -> Option<Request>
    ensures found { IfSome result (λ request. (name_of request ≡ name.Risk)
        × Reads Grouped (map string_bytes words.now) (request_values request)) }
    ensures none { IfNone result (HasNoValues Grouped (map string_bytes words.now)) }
{
    if let Some(rest) = after_raw(words) {
        return match read_after_grouping(rest) {
            Some((by, chain)) => Some(Request::Risk {
                by,
                from: TablesFrom::Listing { chain },
            }),
            None => None,
        };
    }
    if let Some(kind) = read_sets_kind(words) {
        return Some(Request::RiskLines { kind });
    }
    match read_grouping_kind(words) {
        Some((by, kind)) => Some(Request::Risk {
            by,
            from: TablesFrom::File { kind },
        }),
        None => None,
    }
}
