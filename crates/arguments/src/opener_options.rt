//! `read_opener`: `--exempt`, `--services` and `--skip-bad-ports` of `opener`.

ghost use Rattle.std.specs.Prelude.{◌≡◌, ◌≢◌, ℕ, List, [], ◌∷◌, false, codes, map, string_bytes, IfSome, IfNone};
ghost use Rattle.grammar.specs.Fields.{Nets, TheNets, TheNumber, u64_field};
ghost use Rattle.arguments.specs.Inside.{Begins, HasNoValue};
ghost use Rattle.arguments.specs.Options.{HasOption, HasPortRule};
ghost use Rattle.arguments.specs.Table.{HasNoValues, Outgoing, Reads, name_of, request_values};
ghost use Rattle.arguments.specs.declared.name.CommandName.TheVariants as name;

use crate::Request;
use crate::file_kind::read_opening_kind;
use crate::options::{after_flag, cut_option};
use grammar::{read_decimal, read_nets};
use net_addr::NetSet;
use peer_open::OpenRules;

/// Cuts `--exempt` and the networks after it off the arguments that begin with it, and returns the
/// networks and the rest: no networks and all arguments without it, and `None` if they are wrong.
#[tactic(auto, using(crate::proofs::OpenerOptions::rest_after))]
fn cut_exempt(words: &[String]) -> Option<(NetSet, &[String])>
    ensures found { IfSome result (λ o. HasOption (codes "--exempt") Nets (TheNets []) (TheNets o.0)
        (map string_bytes o.1.now) (map string_bytes words.now)) }
    ensures rest { IfSome result (λ o. (text : List ℕ) (rest : List (List ℕ)) →
        Begins (codes "--exempt") text rest (map string_bytes words.now) →
        rest ≡ map string_bytes o.1.now) }
    ensures none { IfNone result (HasNoValue (codes "--exempt") Nets (map string_bytes words.now)) }
{
    let Some((text, rest)) = cut_option(words, b"--exempt") else {
        return Some((NetSet::none(), words));
    };
    match read_nets(text) {
        Ok(nets) => Some((nets, rest)),
        Err(_) => None,
    }
}

/// Cuts `--services` and the number after it off the arguments that begin with it, and returns the
/// number and the rest: 0 and all arguments without it, and `None` if it is wrong.
#[tactic(auto, using(crate::proofs::OpenerOptions::rest_after))]
fn cut_services(words: &[String]) -> Option<(u64, &[String])>
    ensures found { IfSome result (λ o. HasOption (codes "--services") u64_field (TheNumber 0)
        (TheNumber o.0) (map string_bytes o.1.now) (map string_bytes words.now)) }
    ensures rest { IfSome result (λ o. (text : List ℕ) (rest : List (List ℕ)) →
        Begins (codes "--services") text rest (map string_bytes words.now) →
        rest ≡ map string_bytes o.1.now) }
    ensures none { IfNone result
        (HasNoValue (codes "--services") u64_field (map string_bytes words.now)) }
{
    let Some((text, rest)) = cut_option(words, b"--services") else {
        return Some((0, words));
    };
    match read_decimal(text, u64::MAX) {
        Some(services) => Some((services, rest)),
        None => None,
    }
}

/// Cuts `--skip-bad-ports` off the arguments that begin with it, and returns whether they do and
/// the rest.
fn cut_port_rule(words: &[String]) -> (bool, &[String])
    ensures found { HasPortRule result.0 (map string_bytes result.1.now)
        (map string_bytes words.now) }
    ensures none { result.0 ≡ false → (rest : List (List ℕ)) →
        map string_bytes words.now ≢ codes "--skip-bad-ports" ∷ rest }
{
    match after_flag(words, b"--skip-bad-ports") {
        Some(rest) => (true, rest),
        None => (false, words),
    }
}

/// Reads the arguments after `opener`: those that choose rules of Bitcoin Core, and after them
/// those that say how tables are opened.
#[tactic(auto, using(crate::proofs::OpenerOptions::no_exempt))]
pub(crate) fn read_opener(words: &[String]) -> Option<Request>
    ensures found { IfSome result (λ request. (name_of request ≡ name.Opener)
        × Reads Outgoing (map string_bytes words.now) (request_values request)) }
    ensures none { IfNone result (HasNoValues Outgoing (map string_bytes words.now)) }
{
    let Some((exempt, after_exempt)) = cut_exempt(words) else {
        return None;
    };
    let Some((services, after_services)) = cut_services(after_exempt) else {
        return None;
    };
    let (skips_bad_ports, rest) = cut_port_rule(after_services);
    match read_opening_kind(rest) {
        Some((key, kind)) => {
            let rules = OpenRules {
                exempt,
                services,
                skips_bad_ports,
            };
            Some(Request::Opener { rules, key, kind })
        }
        None => None,
    }
}
