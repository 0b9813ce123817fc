//! Laws: a field has one value; and the limits of random words.

ghost use Rattle.std.specs.Prelude.{◌≡◌, ℕ, List};
ghost use Rattle.grammar.specs.Fields.{Kind, Value, Means, IsDefinite, IsFieldFault};
ghost use Rattle.grammar.specs.declared.fault.LineFault.{LineFault};
ghost use Rattle.grammar.specs.declared.random.TheConstants.{MAX_SEEDED, MAX_WORDS_TEXT};

use crate::{MAX_SEEDED, MAX_WORDS_TEXT};

/// A field has at most one value, and a text that is not of its kind has at most one fault.
pub fn fields_have_one_value()
    ensures value { (kind : Kind) (text : List ℕ) (v w : Value) → IsDefinite kind →
        Means kind text v → Means kind text w → v ≡ w }
    ensures fault { (kind : Kind) (text : List ℕ) (f g : LineFault) → IsFieldFault kind text f →
        IsFieldFault kind text g → f ≡ g }
{}

/// The limits of random words: the length of their text in bytes, and how many a seed gives.
pub fn word_limits()
    ensures text { MAX_WORDS_TEXT ≡ 16777216 }
    ensures seeded { MAX_SEEDED ≡ 1000000 }
{}
