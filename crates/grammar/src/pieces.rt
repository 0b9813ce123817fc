//! Cuts a text at a separator: `cut_piece` and `after_byte`.

ghost use Rattle.std.specs.Prelude.{◌≡◌, ◌≢◌, ℕ, List, ◌<◌, ◌≤◌, ◌==◌, ◌++◌, ◌∷◌, length, All, IfSome, IfNone};
ghost use Rattle.std.specs.List.{slice_split};
ghost use Rattle.grammar.specs.Words.{pieces_after};

use memchr::memchr;

/// Returns the text before the first separator, and the text after it; the whole text if there is
/// no separator.
pub(crate) fn cut_piece(text: &[u8], separator: u8) -> (&[u8], Option<&[u8]>)
    ensures cut { slice_split (λ b. b == separator) text.now
        ≡ result.0.now ∷ pieces_after separator result.1 }
    ensures short { length result.0.now ≤ length text.now }
    ensures rest_short { IfSome result.1 (λ rest. length rest.now < length text.now) }
{
    match split_at(text, separator) {
        Some((piece, rest)) => (piece, Some(rest)),
        None => (text, None),
    }
}

/// Returns the text before the first separator and the text after it, or `None` if there is none.
fn split_at(text: &[u8], separator: u8) -> Option<(&[u8], &[u8])>
    ensures cut { IfSome result (λ parts. text.now ≡ parts.0.now ++ separator ∷ parts.1.now) }
    ensures first { IfSome result (λ parts. All (λ b. b ≢ separator) parts.0.now) }
    ensures none { IfNone result (All (λ b. b ≢ separator) text.now) }
{
    match memchr(separator, text) {
        Some(i) => Some((&text[..i], &text[i + 1..])),
        None => None,
    }
}

/// Returns the text after its first byte, if that is `byte`.
pub(crate) fn after_byte(text: &[u8], byte: u8) -> Option<&[u8]>
    ensures found { IfSome result (λ rest. text.now ≡ byte ∷ rest.now) }
    ensures none { IfNone result ((rest : List ℕ) → text.now ≢ byte ∷ rest) }
    ensures short { IfSome result (λ rest. length rest.now < length text.now) }
{
    let (first, rest) = text.split_first()?;
    if *first == byte { Some(rest) } else { None }
}
