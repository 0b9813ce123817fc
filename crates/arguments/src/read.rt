//! `read_request` reads the arguments after the name of each command.

ghost use Rattle.std.specs.Prelude.{◌≡◌, ◌↔◌, [], ◌∷◌, codes, length, map, string_bytes, Some, IfSome, IfNone, IsTrue};
ghost use Rattle.arguments.specs.Table.{AddressOrLines, Asks, Fields, HasNoValues, IsProperRequest, Listing, PeerOrLines, Reads, ForBans, TheBanFields, TheFields, form_of, name_of, request_values};
ghost use Rattle.arguments.specs.declared.name.CommandName.TheVariants as name;
ghost use Rattle.arguments.specs.declared.request.Request.{Request};

use crate::Request;
use crate::address::read_address;
use crate::bans::{cut_ban_rule, read_period, read_subnet};
use crate::commands::{plain_word, read_command};
use crate::file_kind::{
    read_file_kind, read_keyed_kind, read_listing_kind, read_opening_kind, read_records,
};
use crate::name::{CommandName, NAMES};
use crate::opener_options::read_opener;
use crate::options::{first_word, only_word, read_after_word};
use crate::tables_from::{read_picture, read_risk, read_tables};
use ban_list::{BanRule, texts_have_one_meaning};
use gen_load::MAX_LINES;
use grammar::{Between, Fields, LongBetween, OnePeer, find_keyword, read_fields};
use std::alloc::Global;

/// A time in seconds since 1970.
type Time = Between<0, { u32::MAX }>;

/// The number of a generated log, and how many lines it has.
type Load = (
    LongBetween<0, { u64::MAX }>,
    (Between<1, { MAX_LINES }>, ()),
);

/// Returns the request that the arguments ask for, or `None` if they are not those of a command.
pub fn read_request(alloc: Global, words: &[String]) -> Option<Request>
    ensures found { IfSome result (Asks (map string_bytes words.now)) }
    ensures only { (request : Request) → Asks (map string_bytes words.now) request →
        result ≡ Some request }
    ensures proper { IfSome result IsProperRequest }
{
    texts_have_one_meaning();
    request_of(alloc, words)
}

/// Reads the name of the command, and then its arguments.
fn request_of(alloc: Global, words: &[String]) -> Option<Request>
    ensures found { IfSome result (Asks (map string_bytes words.now)) }
    ensures only { (request : Request) → Asks (map string_bytes words.now) request →
        result ≡ Some request }
{
    let (word, rest) = first_word(words)?;
    let plain = plain_word(word);
    let name = find_keyword(&NAMES, plain)?;
    read_after(alloc, name, rest)
}

/// Reads the arguments after the name of a command.
#[tactic(auto, using(crate::proofs::Asking::if_none))]
fn read_after(alloc: Global, name: CommandName, rest: &[String]) -> Option<Request>
    ensures found { IfSome result (λ request. (name_of request ≡ name)
        × Reads (form_of name) (map string_bytes rest.now) (request_values request)) }
    ensures none { IfNone result (HasNoValues (form_of name) (map string_bytes rest.now)) }
{
    match name {
        CommandName::Replay => {
            let (key, kind) = read_opening_kind(rest)?;
            Some(Request::Replay { key, kind })
        }
        CommandName::Opener => read_opener(rest),
        CommandName::Compile => only_name(rest, Request::Compile),
        CommandName::Check => only_name(rest, Request::Check),
        CommandName::Decompile => only_name(rest, Request::Decompile),
        CommandName::Diff => Some(Request::Diff {
            peers: read_records(rest)?,
        }),
        CommandName::Limit => only_name(rest, Request::Limit),
        CommandName::Lookup => read_lookup(alloc, rest),
        CommandName::Address => read_addresses(rest),
        CommandName::Show => read_show(rest),
        CommandName::Picture => read_picture(rest),
        CommandName::Raw => Some(Request::Raw {
            kind: read_file_kind(rest)?,
        }),
        CommandName::Info => Some(Request::Info {
            from: read_tables(rest)?,
        }),
        CommandName::Groups => Some(Request::Groups {
            from: read_tables(rest)?,
        }),
        CommandName::Risk => read_risk(rest),
        CommandName::FromRaw => read_keyed_kind(rest),
        CommandName::Ban => read_period(rest),
        CommandName::Unban => read_subnet(rest),
        CommandName::Banned => {
            let (rule, (peer, (now, ()))) = read_for_bans::<(OnePeer, (Time, ()))>(alloc, 2, rest)?;
            Some(Request::Banned { rule, peer, now })
        }
        CommandName::Bans => {
            let (rule, (now, ())) = read_for_bans::<(Time, ())>(alloc, 1, rest)?;
            Some(Request::Bans { rule, now })
        }
        CommandName::Gen => {
            let (start, (lines, ())) = read_values::<Load>(alloc, rest)?;
            Some(Request::Gen { start, lines })
        }
        CommandName::Trial => {
            let (start, (lines, ())) = read_values::<Load>(alloc, rest)?;
            Some(Request::Trial { start, lines })
        }
        CommandName::Help => read_command(rest),
        CommandName::Version => only_name(rest, Request::Version),
    }
}

/// Reads the argument after `lookup`, a peer or `-`.
#[tactic(auto, unfolding(crate::specs::Table::HasNoValues))]
fn read_lookup(alloc: Global, rest: &[String]) -> Option<Request>
    ensures found { IfSome result (λ request. (name_of request ≡ name.Lookup)
        × Reads PeerOrLines (map string_bytes rest.now) (request_values request)) }
    ensures none { IfNone result (HasNoValues PeerOrLines (map string_bytes rest.now)) }
{
    if is_dash(rest) {
        return Some(Request::LookupLines);
    }
    match read_values::<(OnePeer, ())>(alloc, rest) {
        Some((peer, ())) => Some(Request::Lookup { peer }),
        None => None,
    }
}

/// Reads the arguments after `show`, which ask for anchors, or else for what peers.dat has.
fn read_show(rest: &[String]) -> Option<Request>
    ensures found { IfSome result (λ request. (name_of request ≡ name.Show)
        × Reads Listing (map string_bytes rest.now) (request_values request)) }
    ensures none { IfNone result (HasNoValues Listing (map string_bytes rest.now)) }
{
    if let Some(chain) = read_after_word(rest, b"--anchors") {
        return Some(Request::Anchors { chain });
    }
    match read_listing_kind(rest) {
        Some((keyed, kind)) => Some(Request::Show { keyed, kind }),
        None => None,
    }
}

/// Reads the argument after `address`, `-` or else the text of an address.
fn read_addresses(rest: &[String]) -> Option<Request>
    ensures found { IfSome result (λ request. (name_of request ≡ name.Address)
        × Reads AddressOrLines (map string_bytes rest.now) (request_values request)) }
    ensures none { IfNone result (HasNoValues AddressOrLines (map string_bytes rest.now)) }
{
    if is_dash(rest) {
        return Some(Request::AddressLines);
    }
    match read_address(rest) {
        Some(addr) => Some(Request::Address { addr }),
        None => None,
    }
}

/// Returns `true` if the only argument is `-`.
fn is_dash(rest: &[String]) -> bool
    ensures { IsTrue result ↔ (map string_bytes rest.now ≡ codes "-" ∷ []) }
{
    match only_word(rest) {
        Some(word) => word == b"-".as_slice(),
        None => false,
    }
}

/// Reads arguments that are fields, or returns `None` if they are too few or too many or one is not
/// in form.
fn read_values<'a, R: Fields<&'a [String]>>(alloc: Global, rest: &'a [String]) -> Option<R::Out>
    requires { ¬ R.can_run_out }
    ensures found { IfSome result (λ x.
        Reads (Fields R.kinds) (map string_bytes rest.now) (TheFields (R.values x))) }
    ensures none { IfNone result (HasNoValues (Fields R.kinds) (map string_bytes rest.now)) }
{
    match read_fields::<&'a [String], R>(alloc, rest) {
        Ok(values) => Some(values),
        Err(_) => None,
    }
}

/// Reads arguments for a list of bans: `--core`, if the list is Bitcoin Core's, and `count` fields.
fn read_for_bans<'a, R: Fields<&'a [String]>>(
    alloc: Global,
    count: usize,
    words: &'a [String],
) -> Option<(BanRule, R::Out)>
    requires memory { ¬ R.can_run_out }
    requires count { length R.kinds ≡ count }
    ensures found { IfSome result (λ o. Reads (ForBans R.kinds) (map string_bytes words.now)
        (TheBanFields o.0 (R.values o.1))) }
    ensures none { IfNone result (HasNoValues (ForBans R.kinds) (map string_bytes words.now)) }
{
    let (rule, rest) = cut_ban_rule(words, count);
    match read_values::<R>(alloc, rest) {
        Some(values) => Some((rule, values)),
        None => None,
    }
}

/// Returns the request if there are no arguments after the name.
#[tactic(auto, unfolding(crate::specs::Table::HasNoValues))]
fn only_name(rest: &[String], request: Request) -> Option<Request>
    ensures found { IfSome result (λ asked. (asked ≡ request)
        × Reads (Fields []) (map string_bytes rest.now) (TheFields [])) }
    ensures none { IfNone result (HasNoValues (Fields []) (map string_bytes rest.now)) }
{
    if rest.is_empty() { Some(request) } else { None }
}
