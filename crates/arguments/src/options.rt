//! Options and their values: `--key`, `--net`, `--no-key`, `--peers` and `--anchors`, with `=` or a
//! space.

ghost use Rattle.std.specs.Prelude.{◌≡◌, ◌≢◌, ℕ, List, [], ◌∷◌, ◌++◌, Bool, false, codes, map, string_bytes, Option, Some, IfSome, IfNone};
ghost use Rattle.std.specs.Option.{option_map};
ghost use Rattle.arguments.specs.Inside.{Begins};
ghost use Rattle.arguments.specs.Options.{HasNoKey, IsAfterWord, IsChainValue, IsKey, IsKeyOption, IsListingOptions, IsNet, IsOpeningOptions, IsOption, chain_option};
ghost use Rattle.arguments.specs.declared.chain_option.ChainOption.{ChainOption};
ghost use Rattle.peers_file.specs.declared.chain.Chain.{Chain};

use crate::chain_option::{ChainOption, read_chain};
use hex::FromHex;
use peers_file::Chain;

/// Reads the arguments that say how tables are opened: `--key` with a key, and `--net` or `--magic`
/// with a chain, each at most once.
pub(crate) fn read_opening(words: &[String]) -> Option<(Option<[u8; 32]>, Chain)>
    ensures found { IfSome result (λ o. IsOpeningOptions o.0 (map string_bytes words.now) o.1) }
    ensures only { (key : Option (List ℕ)) (chain : Chain) →
        IsOpeningOptions key (map string_bytes words.now) chain → result ≡ Some (key, chain) }
{
    if words.is_empty() {
        return Some((None, Chain::Main));
    }
    if let Some((digits, rest)) = cut_option(words, b"--key") {
        return read_key_then_net(digits, rest);
    }
    let Some((by, value, rest)) = cut_chain(words) else {
        return None;
    };
    read_net_then_key(by, value, rest)
}

/// Reads the digits of a key, and then the arguments that choose a chain.
fn read_key_then_net(digits: &[u8], words: &[String]) -> Option<(Option<[u8; 32]>, Chain)>
    ensures found { IfSome result (λ o. (key : List ℕ) × (o.0 ≡ Some key) × IsKey digits.now key
        × IsNet (map string_bytes words.now) o.1) }
    ensures only { (key : List ℕ) (chain : Chain) → IsKey digits.now key →
        IsNet (map string_bytes words.now) chain → result ≡ Some (Some key, chain) }
{
    let key = read_key(digits)?;
    let chain = read_net(words)?;
    Some((Some(key), chain))
}

/// Reads the value that chooses a chain, and then the arguments that choose a key.
fn read_net_then_key(
    by: ChainOption,
    value: &[u8],
    words: &[String],
) -> Option<(Option<[u8; 32]>, Chain)>
    ensures found { IfSome result (λ o. IsChainValue by value.now o.1
        × IsKeyOption (map string_bytes words.now) o.0) }
    ensures only { (key : Option (List ℕ)) (chain : Chain) → IsChainValue by value.now chain →
        IsKeyOption (map string_bytes words.now) key → result ≡ Some (key, chain) }
{
    let chain = read_chain(by, value)?;
    let key = read_key_option(words)?;
    Some((key, chain))
}

/// Reads the arguments that are `--key` with a key, or none for no key.
fn read_key_option(words: &[String]) -> Option<Option<[u8; 32]>>
    ensures found { IfSome result (λ key. IsKeyOption (map string_bytes words.now) key) }
    ensures only { (key : Option (List ℕ)) → IsKeyOption (map string_bytes words.now) key →
        result ≡ Some key }
{
    if words.is_empty() {
        return Some(None);
    }
    let key = read_key(option_value(words, b"--key")?)?;
    Some(Some(key))
}

/// Reads the arguments that are `--net` or `--magic` with a chain, or none for main.
pub(crate) fn read_net(words: &[String]) -> Option<Chain>
    ensures found { IfSome result (λ chain. IsNet (map string_bytes words.now) chain) }
    ensures only { (chain : Chain) → IsNet (map string_bytes words.now) chain →
        result ≡ Some chain }
{
    if words.is_empty() {
        return Some(Chain::Main);
    }
    let Some((by, value, rest)) = cut_chain(words) else {
        return None;
    };
    if !rest.is_empty() {
        return None;
    }
    read_chain(by, value)
}

/// Reads the arguments that choose a chain, and `--no-key` before or after them if the key is not
/// listed.
pub(crate) fn read_listing(words: &[String]) -> Option<(bool, Chain)>
    ensures found { IfSome result (λ o. IsListingOptions o.0 (map string_bytes words.now) o.1) }
    ensures only { (keyed : Bool) (chain : Chain) →
        IsListingOptions keyed (map string_bytes words.now) chain → result ≡ Some (keyed, chain) }
{
    match without_no_key(words) {
        Some(rest) => listing_of(false, rest),
        None => listing_of(true, words),
    }
}

/// Reads the arguments that choose a chain, for a listing with the key or without it.
fn listing_of(keyed: bool, words: &[String]) -> Option<(bool, Chain)>
    ensures found { IfSome result (λ o. (o.0 ≡ keyed) × IsNet (map string_bytes words.now) o.1) }
    ensures only { (chain : Chain) → IsNet (map string_bytes words.now) chain →
        result ≡ Some (keyed, chain) }
{
    match read_net(words) {
        Some(chain) => Some((keyed, chain)),
        None => None,
    }
}

/// Returns the arguments beside `--no-key`, if it is the first or the last of them.
fn without_no_key(words: &[String]) -> Option<&[String]>
    ensures found { IfSome result (λ rest.
        HasNoKey (map string_bytes rest.now) (map string_bytes words.now)) }
    ensures none { IfNone result ((rest : List (List ℕ)) →
        ¬ HasNoKey rest (map string_bytes words.now)) }
{
    if let Some(rest) = after_flag(words, b"--no-key") {
        return Some(rest);
    }
    match before_no_key(words) {
        Some(rest) => Some(rest),
        None => None,
    }
}

/// Returns the arguments after the option `flag`, which has no value, if it is the first.
pub(crate) fn after_flag<'a>(words: &'a [String], flag: &[u8]) -> Option<&'a [String]>
    ensures found { IfSome result (λ rest.
        map string_bytes words.now ≡ flag.now ∷ map string_bytes rest.now) }
    ensures none { IfNone result ((rest : List (List ℕ)) →
        map string_bytes words.now ≢ flag.now ∷ rest) }
{
    let Some((first, rest)) = first_word(words) else {
        return None;
    };
    if first == flag {
        return Some(rest);
    }
    None
}

/// Returns the arguments before `--no-key`, if it is the last.
#[tactic(auto, using(crate::proofs::Choosing::not_last, crate::proofs::Choosing::none_last))]
fn before_no_key(words: &[String]) -> Option<&[String]>
    ensures found { IfSome result (λ rest.
        map string_bytes words.now ≡ map string_bytes rest.now ++ codes "--no-key" ∷ []) }
    ensures none { IfNone result ((rest : List (List ℕ)) →
        map string_bytes words.now ≢ rest ++ codes "--no-key" ∷ []) }
{
    let Some((last, rest)) = last_word(words) else {
        return None;
    };
    if last == b"--no-key".as_slice() {
        return Some(rest);
    }
    None
}

/// Reads `word` and after it the arguments that choose a chain.
pub(crate) fn read_after_word(words: &[String], word: &[u8]) -> Option<Chain>
    ensures found { IfSome result (IsAfterWord word.now (map string_bytes words.now)) }
    ensures only { (chain : Chain) → IsAfterWord word.now (map string_bytes words.now) chain →
        result ≡ Some chain }
{
    let (first, rest) = first_word(words)?;
    if first == word {
        return read_net(rest);
    }
    None
}

/// Cuts the option that chooses a chain off the arguments that begin with it, and returns it, its
/// value and the rest.
pub(crate) fn cut_chain<'a>(words: &'a [String]) -> Option<(ChainOption, &'a [u8], &'a [String])>
    ensures found { IfSome result (λ parts. Begins (chain_option parts.0) parts.1.now
        (map string_bytes parts.2.now) (map string_bytes words.now)) }
    ensures none { IfNone result ((by : ChainOption) (value : List ℕ) (rest : List (List ℕ)) →
        ¬ Begins (chain_option by) value rest (map string_bytes words.now)) }
{
    if let Some((value, rest)) = cut_option(words, b"--net") {
        return Some((ChainOption::Net, value, rest));
    }
    match cut_option(words, b"--magic") {
        Some((value, rest)) => Some((ChainOption::Magic, value, rest)),
        None => None,
    }
}

/// Cuts the option `name` off the arguments that begin with it, and returns its value and the rest.
pub(crate) fn cut_option<'a>(words: &'a [String], name: &[u8]) -> Option<(&'a [u8], &'a [String])>
    ensures found { IfSome result (λ parts. Begins name.now parts.0.now
        (map string_bytes parts.1.now) (map string_bytes words.now)) }
    ensures none { IfNone result ((value : List ℕ) (rest : List (List ℕ)) →
        ¬ Begins name.now value rest (map string_bytes words.now)) }
{
    let (first, rest) = first_word(words)?;
    if first == name {
        return first_word(rest);
    }
    let value = value_after_equals(first, name)?;
    Some((value, rest))
}

/// Returns the value of the option `name`, in two arguments or in one with `=` between them.
fn option_value<'a>(words: &'a [String], name: &[u8]) -> Option<&'a [u8]>
    ensures found { IfSome result (λ value.
        IsOption name.now value.now (map string_bytes words.now)) }
    ensures only { (value : List ℕ) → IsOption name.now value (map string_bytes words.now) →
        option_map (λ found. found.now) result ≡ Some value }
{
    let (first, rest) = first_word(words)?;
    if rest.is_empty() {
        return value_after_equals(first, name);
    }
    let value = only_word(rest)?;
    if first == name { Some(value) } else { None }
}

/// Returns the value in an argument that is the name, `=` and the value.
fn value_after_equals<'a>(word: &'a [u8], name: &[u8]) -> Option<&'a [u8]>
    ensures found { IfSome result (λ value. word.now ≡ name.now ++ codes "=" ++ value.now) }
    ensures only { (value : List ℕ) → word.now ≡ name.now ++ codes "=" ++ value →
        option_map (λ found. found.now) result ≡ Some value }
{
    after_prefix(after_prefix(word, name)?, b"=")
}

/// Returns what follows `prefix` in a text that begins with it.
fn after_prefix<'a>(text: &'a [u8], prefix: &[u8]) -> Option<&'a [u8]>
    ensures found { IfSome result (λ rest. text.now ≡ prefix.now ++ rest.now) }
    ensures none { IfNone result ((rest : List ℕ) → text.now ≡ prefix.now ++ rest → ⊥) }
{
    text.strip_prefix(prefix)
}

/// Reads a key of 32 bytes from 64 hexadecimal digits, in either case.
fn read_key(digits: &[u8]) -> Option<[u8; 32]>
    ensures found { IfSome result (λ key. IsKey digits.now key) }
    ensures only { (key : List ℕ) → IsKey digits.now key → result ≡ Some key }
{
    <[u8; 32] as FromHex>::from_hex(digits).ok()
}

/// Returns the argument if there is only one.
pub(crate) fn only_word(words: &[String]) -> Option<&[u8]>
    ensures some { IfSome result (λ word. map string_bytes words.now ≡ word.now ∷ []) }
    ensures none { IfNone result ((word : List ℕ) → map string_bytes words.now ≡ word ∷ [] → ⊥) }
{
    match words {
        [word] => Some(word.as_bytes()),
        _ => None,
    }
}

/// Returns the first argument and those after it.
pub(crate) fn first_word(words: &[String]) -> Option<(&[u8], &[String])>
    ensures some { IfSome result (λ parts.
        map string_bytes words.now ≡ parts.0.now ∷ map string_bytes parts.1.now) }
    ensures none { IfNone result (map string_bytes words.now ≡ []) }
{
    let (first, rest) = words.split_first()?;
    Some((first.as_bytes(), rest))
}

/// Returns the last argument and those before it.
#[tactic(auto, using(std::proofs::lemmas::List::map_push))]
fn last_word(words: &[String]) -> Option<(&[u8], &[String])>
    ensures some { IfSome result (λ parts.
        map string_bytes words.now ≡ map string_bytes parts.1.now ++ parts.0.now ∷ []) }
    ensures none { IfNone result (map string_bytes words.now ≡ []) }
{
    let (last, rest) = words.split_last()?;
    Some((last.as_bytes(), rest))
}
