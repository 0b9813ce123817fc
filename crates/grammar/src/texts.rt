//! The trait `Texts`: the fields of a line between spaces, or the arguments of a program; and
//! `cut_field`.

ghost use Rattle.std.specs.Prelude.{◌≡◌, ℕ, List, [], ◌∷◌, map, string_bytes, IfSome, IfNone, ◌<◌, ◌≤◌, length};
ghost use Rattle.grammar.specs.Words.{fields_of, texts_after};

use crate::pieces::cut_piece;

/// Texts in order: the fields of a line, or arguments.
pub trait Texts: Copy {
    ghost texts: { Self → List (List ℕ) };

    /// Returns the first text and those after it, or `None` if there is none.
    fn cut(&self) -> Option<(&[u8], Self)>
        ensures some { IfSome result (λ parts. texts self.now ≡ parts.0.now ∷ texts parts.1) }
        ensures none { IfNone result (texts self.now ≡ []) };
}

/// The fields after a space, or none.
impl<'a> Texts for Option<&'a [u8]> {
    ghost texts = { texts_after };

    fn cut(&self) -> Option<(&[u8], Self)> {
        match *self {
            Some(text) => Some(cut_field(text)),
            None => None,
        }
    }
}

impl<'a> Texts for &'a [String] {
    ghost texts = { λ words. map string_bytes words.now };

    fn cut(&self) -> Option<(&[u8], Self)> {
        let (first, rest) = self.split_first()?;
        Some((first.as_bytes(), rest))
    }
}

/// Returns the first field of the text, and the text after the space that ends it, if there is one.
pub fn cut_field(text: &[u8]) -> (&[u8], Option<&[u8]>)
    ensures cut { fields_of text.now ≡ result.0.now ∷ texts_after result.1 }
    ensures short { length result.0.now ≤ length text.now }
    ensures rest_short { IfSome result.1 (λ rest. length rest.now < length text.now) }
{
    cut_piece(text, b' ')
}
