//! The arguments of `ban` and `unban`: `--core`, a subnet and two times.

ghost use Rattle.std.specs.Prelude.{◌≡◌, ◌≢◌, ◌<◌, ◌≤◌, ℕ, List, [], ◌∷◌, decimal, length, map, string_bytes, None, Some, IfSome, IfNone};
ghost use Rattle.ban_list.specs.BanFile.{max_time};
ghost use Rattle.ban_list.specs.SubnetText.{IsSubnetTextBy};
ghost use Rattle.ban_list.specs.declared.ban.BanRule.{BanRule};
ghost use Rattle.ban_list.specs.declared.subnet.Subnet.{Subnet};
ghost use Rattle.arguments.specs.Options.{HasBanRule};
ghost use Rattle.arguments.specs.Table.{HasNoValues, OfSubnet, Period, Reads, name_of, request_values};
ghost use Rattle.arguments.specs.declared.name.CommandName.TheVariants as name;

use crate::Request;
use crate::options::{after_flag, only_word};
use ban_list::{BanRule, Subnet, parse_subnet_by};
use net_addr::parse_number;

/// Cuts `--core` off the arguments that begin with it and have `count` others, and returns the rule
/// that it chooses and the rest.
pub(crate) fn cut_ban_rule(words: &[String], count: usize) -> (BanRule, &[String])
    ensures found { HasBanRule result.0
        (map string_bytes result.1.now) (map string_bytes words.now) }
    ensures only { (rule : BanRule) (rest : List (List ℕ)) →
        HasBanRule rule rest (map string_bytes words.now) → length rest ≡ count →
        (rule ≡ result.0) × (rest ≡ map string_bytes result.1.now) }
{
    match after_flag(words, b"--core") {
        Some(rest) => {
            if rest.len() == count {
                (BanRule::Names, rest)
            } else {
                (BanRule::Labels, words)
            }
        }
        None => (BanRule::Labels, words),
    }
}

/// Reads the arguments after `unban`: `--core`, if the list is Bitcoin Core's, and a subnet.
pub(crate) fn read_subnet(words: &[String]) -> Option<Request>
    ensures found { IfSome result (λ request. (name_of request ≡ name.Unban)
        × Reads OfSubnet (map string_bytes words.now) (request_values request)) }
    ensures none { IfNone result (HasNoValues OfSubnet (map string_bytes words.now)) }
{
    let (rule, rest) = cut_ban_rule(words, 1);
    let Some(word) = only_word(rest) else {
        return None;
    };
    match parse_subnet_by(rule, word) {
        Some(subnet) => Some(Request::Unban { rule, subnet }),
        None => None,
    }
}

/// Reads the arguments after `ban`: `--core`, if the list is Bitcoin Core's, a subnet and two
/// times, the earlier one first.
pub(crate) fn read_period(words: &[String]) -> Option<Request>
    ensures found { IfSome result (λ request. (name_of request ≡ name.Ban)
        × Reads Period (map string_bytes words.now) (request_values request)) }
    ensures none { IfNone result (HasNoValues Period (map string_bytes words.now)) }
{
    let (rule, rest) = cut_ban_rule(words, 3);
    let Some((subnet, now, until)) = three_words(rest) else {
        return None;
    };
    match period_of(rule, subnet, now, until) {
        Some((subnet, now, until)) => Some(Request::Ban {
            rule,
            subnet,
            now,
            until,
        }),
        None => None,
    }
}

/// Reads a subnet, by the rule of the list, and two times, the earlier one first.
fn period_of(rule: BanRule, subnet: &[u8], now: &[u8], until: &[u8]) -> Option<(Subnet, u32, u32)>
    ensures found { IfSome result (λ ban. IsSubnetTextBy rule subnet.now ban.0
        × (now.now ≡ decimal ban.1) × (until.now ≡ decimal ban.2) × (ban.1 < ban.2)
        × (ban.2 ≤ max_time)) }
    ensures only { (s : Subnet) (n u : ℕ) → IsSubnetTextBy rule subnet.now s →
        now.now ≡ decimal n → until.now ≡ decimal u → n < u → u ≤ max_time → result ≢ None }
{
    let Some(subnet) = parse_subnet_by(rule, subnet) else {
        return None;
    };
    let now = read_time(now)?;
    let until = read_time(until)?;
    if now < until {
        Some((subnet, now, until))
    } else {
        None
    }
}

/// Reads a time in seconds since 1970.
fn read_time(text: &[u8]) -> Option<u32>
    ensures found { IfSome result (λ time. (time ≤ max_time) × (text.now ≡ decimal time)) }
    ensures only { (time : ℕ) → time ≤ max_time → text.now ≡ decimal time → result ≡ Some time }
{
    Some(parse_number(text, u32::MAX.into())? as u32)
}

/// Returns the arguments if there are three.
fn three_words(words: &[String]) -> Option<(&[u8], &[u8], &[u8])>
    ensures some { IfSome result (λ parts.
        map string_bytes words.now ≡ parts.0.now ∷ parts.1.now ∷ parts.2.now ∷ []) }
    ensures none { IfNone result ((a b c : List ℕ) →
        map string_bytes words.now ≡ a ∷ b ∷ c ∷ [] → ⊥) }
{
    match words {
        [first, second, third] => Some((first.as_bytes(), second.as_bytes(), third.as_bytes())),
        _ => None,
    }
}
