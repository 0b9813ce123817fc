//! Reads random words: `-`, numbers with commas, or `@S:N`. Its limits are `MAX_SEEDED` and
//! `MAX_WORDS_TEXT`.

ghost use Rattle.std.specs.Prelude.{◌≡◌, ◌≤◌, ◌<◌, ◌^◌, ◌⊎◌, ◌∷◌, ℕ, List, codes, length, IfOk, IsTrue, Ok, Err};
ghost use Rattle.grammar.specs.Fields.{AreWords, AreNumbers, AreSeeded};
ghost use Rattle.random_words.specs.Seeded.{seeded_words};
ghost use Rattle.grammar.specs.declared.random.TheConstants.{MAX_WORDS_TEXT};

use crate::pieces::{after_byte, cut_piece};
use crate::{LineFault, WordSource, Words};
use net_addr::parse_number;
use random_words::Draws;
use std::alloc::{AllocError, Global};

/// The maximum number of random words that a seed gives.
pub const MAX_SEEDED: u64 = 1_000_000;

/// The maximum length in bytes of a text of random words.
pub const MAX_WORDS_TEXT: usize = 16_777_216;

/// Reads random words: `-` for none, numbers with commas between them, or `@S:N` for the first N
/// words of the generator with the seed S.
pub fn read_words(alloc: Global, text: &[u8]) -> Result<Words, LineFault>
    requires { length text.now ≤ MAX_WORDS_TEXT }
    ensures found { IfOk result (λ words. AreWords text.now words) }
    ensures only { (words : List ℕ) → AreWords text.now words →
        (result ≡ Ok words) ⊎ (result ≡ Err LineFault.Memory) }
    ensures fault { (f : LineFault) → result ≡ Err f →
        (f ≡ LineFault.Words) ⊎ (f ≡ LineFault.Memory) }
{
    match read_source(alloc, text) {
        Ok(source) => match source.into_words(alloc) {
            Ok(words) => Ok(words),
            Err(_) => Err(LineFault::Memory),
        },
        Err(fault) => Err(fault),
    }
}

/// Reads the same random words to be drawn one after another. A text `@S:N` takes no memory.
pub fn read_source(alloc: Global, text: &[u8]) -> Result<WordSource, LineFault>
    requires { length text.now ≤ MAX_WORDS_TEXT }
    ensures found { IfOk result (λ words. AreWords text.now words) }
    ensures only { (words : List ℕ) → AreWords text.now words →
        (result ≡ Ok words) ⊎ (result ≡ Err LineFault.Memory) }
    ensures seeded { (words : List ℕ) → AreSeeded text.now words → result ≡ Ok words }
    ensures fault { (f : LineFault) → result ≡ Err f →
        (f ≡ LineFault.Words) ⊎ (f ≡ LineFault.Memory) }
{
    if is_dash(text) {
        return Ok(WordSource::of(Words::of(Vec::new(alloc))));
    }
    match after_byte(text, b'@') {
        Some(text) => read_seeded(text),
        None => read_numbers(alloc, text),
    }
}

/// Returns `true` if the text is `-`.
fn is_dash(text: &[u8]) -> bool
    ensures yes { IsTrue result → text.now ≡ codes "-" }
    ensures no { text.now ≡ codes "-" → IsTrue result }
{
    text == b"-".as_slice()
}

/// Reads numbers below 2^64 with commas between them.
fn read_numbers(alloc: Global, text: &[u8]) -> Result<WordSource, LineFault>
    requires { length text.now ≤ MAX_WORDS_TEXT }
    ensures found { IfOk result (λ words. AreNumbers text.now words) }
    ensures only { (words : List ℕ) → AreNumbers text.now words →
        (result ≡ Ok words) ⊎ (result ≡ Err LineFault.Memory) }
    ensures fault { (f : LineFault) → result ≡ Err f →
        (f ≡ LineFault.Words) ⊎ (f ≡ LineFault.Memory) }
{
    let mut words = Vec::new(alloc);
    let mut rest = Some(text);
    while let Some(numbers) = rest {
        let (number, after) = cut_piece(numbers, b',');
        let Some(word) = parse_number(number, u64::MAX) else {
            return Err(LineFault::Words);
        };
        if words.push(word).is_err() {
            return Err(LineFault::Memory);
        }
        rest = after;
    }
    Ok(WordSource::of(Words::of(words)))
}

/// Reads the text after `@`: a seed, a colon, and the number of random words.
fn read_seeded(text: &[u8]) -> Result<WordSource, LineFault>
    ensures found { IfOk result (λ words. AreSeeded (64 ∷ text.now) words) }
    ensures only { (words : List ℕ) → AreSeeded (64 ∷ text.now) words → result ≡ Ok words }
    ensures fault { (f : LineFault) → result ≡ Err f → f ≡ LineFault.Words }
{
    let (seed, rest) = cut_piece(text, b':');
    let Some(count) = rest else {
        return Err(LineFault::Words);
    };
    let Some(seed) = parse_number(seed, u64::MAX) else {
        return Err(LineFault::Words);
    };
    let Some(count) = parse_number(count, MAX_SEEDED) else {
        return Err(LineFault::Words);
    };
    Ok(WordSource::seeded(seed, count))
}

/// Returns the first words of the generator with this seed, as a field `@S:N` of a line gives them.
pub fn seeded_words(alloc: Global, seed: u64, count: u64) -> Result<Words, AllocError>
    requires { count ≤ MAX_SEEDED }
    ensures { IfOk result (λ words. words ≡ seeded_words seed count) }
{
    let mut words = Vec::with_capacity(alloc, count as usize)?;
    for word in Draws::seeded(seed, count) {
        words.push(word)?;
    }
    Ok(Words::of(words))
}
