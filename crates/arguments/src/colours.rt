//! `Colours`, what comes after `picture`: `--by`, or `--mark` with sets, and a chain.

ghost use Rattle.std.specs.Prelude.{◌≡◌, ℕ, List, codes, map, string_bytes, Some, IfSome, IfNone};
ghost use Rattle.arguments.specs.Inside.{Begins};
ghost use Rattle.arguments.specs.Options.{HasChain, IsAfterColouring, IsMarked};
ghost use Rattle.arguments.specs.declared.colours.Colours.{Colours};
ghost use Rattle.arguments.specs.declared.marks.Marks.{Marks};
ghost use Rattle.peers_file.specs.declared.chain.Chain.{Chain};

use crate::Colouring;
use crate::chain_option::read_chain;
use crate::colouring::COLOURINGS;
use crate::marks::{Marks, read_marks};
use crate::options::{after_flag, cut_chain, cut_option, read_net};
use grammar::find_keyword;
use peers_file::Chain;

/// What the colours of a picture show.
#[derive(Clone, Copy)]
pub enum Colours {
    /// The source groups that have the most slots.
    Plain,
    /// What the word after `--by` says.
    By(Colouring),
    /// Which of the sets after `--mark` a peer is in.
    Marks(Marks),
}

/// Reads the arguments after `picture`: those that say what its colours show, and those that choose
/// a chain.
pub(crate) fn read_colours(words: &[String]) -> Option<(Colours, Chain)>
    ensures found { IfSome result (λ o. IsAfterColouring o.0 (map string_bytes words.now) o.1) }
    ensures only { (colours : Colours) (chain : Chain) →
        IsAfterColouring colours (map string_bytes words.now) chain →
        result ≡ Some (colours, chain) }
{
    let Some((word, rest)) = cut_option(words, b"--by") else {
        return read_without_by(words);
    };
    let Some(by) = find_keyword(&COLOURINGS, word) else {
        return None;
    };
    match read_net(rest) {
        Some(chain) => Some((Colours::By(by), chain)),
        None => None,
    }
}

/// Reads the arguments after `picture` that do not begin with `--by`.
fn read_without_by(words: &[String]) -> Option<(Colours, Chain)>
    ensures found { IfSome result (λ o. IsAfterColouring o.0 (map string_bytes words.now) o.1) }
    ensures only { ((value : List ℕ) (rest : List (List ℕ)) →
        ¬ Begins (codes "--by") value rest (map string_bytes words.now)) →
        (colours : Colours) (chain : Chain) →
        IsAfterColouring colours (map string_bytes words.now) chain →
        result ≡ Some (colours, chain) }
{
    if let Some((marks, chain)) = read_marked(words) {
        return Some((Colours::Marks(marks), chain));
    }
    match read_net(words) {
        Some(chain) => Some((Colours::Plain, chain)),
        None => None,
    }
}

/// Reads the arguments that choose a chain, if there are some, and after them `--mark` with texts
/// of sets.
fn read_marked(words: &[String]) -> Option<(Marks, Chain)>
    ensures found { IfSome result (λ o. IsMarked o.0 (map string_bytes words.now) o.1) }
    ensures only { (marks : Marks) (chain : Chain) →
        IsMarked marks (map string_bytes words.now) chain → result ≡ Some (marks, chain) }
{
    if let Some(texts) = after_flag(words, b"--mark") {
        return match read_marks(texts) {
            Some(marks) => Some((marks, Chain::Main)),
            None => None,
        };
    }
    let Some((chain, rest)) = read_chain_first(words) else {
        return None;
    };
    let Some(texts) = after_flag(rest, b"--mark") else {
        return None;
    };
    match read_marks(texts) {
        Some(marks) => Some((marks, chain)),
        None => None,
    }
}

/// Reads the option that chooses a chain, which the arguments begin with, and returns the rest.
fn read_chain_first(words: &[String]) -> Option<(Chain, &[String])>
    ensures found { IfSome result (λ o.
        HasChain o.0 (map string_bytes o.1.now) (map string_bytes words.now)) }
    ensures none { IfNone result ((chain : Chain) (rest : List (List ℕ)) →
        ¬ HasChain chain rest (map string_bytes words.now)) }
{
    let Some((by, value, rest)) = cut_chain(words) else {
        return None;
    };
    match read_chain(by, value) {
        Some(chain) => Some((chain, rest)),
        None => None,
    }
}
