//! The reader over any grammar: `read_line`, `read_said` and `read_texts`.

ghost use Rattle.std.specs.Prelude.{◌≡◌, ◌≢◌, ◌<◌, ◌↔◌, ◌⊎◌, ℕ, List, get_or, IfOk, IfSome, Some, None, Ok, Err};
ghost use Rattle.host_io.specs.Lines.{IsPassedOver};
ghost use Rattle.grammar.specs.Words.{fields_of};
ghost use Rattle.grammar.specs.declared.fault.LineFault.{LineFault};
ghost use Rattle.grammar.specs.Reading.{Says};

use crate::{Grammar, LineFault, Texts, cut_field};
use host_io::is_passed_over;
use std::alloc::Global;

/// Reads what a first text and those after it say.
pub fn read_texts<T: Texts, G: Grammar<T>>(
    alloc: Global,
    word: &[u8],
    rest: T,
) -> Result<G::Said, LineFault>
    ensures found { IfOk result (λ said. G.says word.now (T.texts rest) said) }
    ensures only { (said : G.Said) → G.says word.now (T.texts rest) said →
        (result ≡ Ok said) ⊎ (result ≡ Err LineFault.Memory) }
    ensures fault { (f : LineFault) → result ≡ Err f → f ≢ LineFault.Memory →
        G.at_fault word.now (T.texts rest) f }
    ensures only_fault { (f : LineFault) → G.at_fault word.now (T.texts rest) f →
        (result ≡ Err f) ⊎ (result ≡ Err LineFault.Memory) }
    ensures memory { result ≡ Err LineFault.Memory → G.can_run_out }
{
    match G::read_after(alloc, word, rest) {
        Ok(said) => Ok(said),
        Err(fault) => Err(fault),
    }
}

/// Reads what a line says, which has no line feed. It is never inlined, so that a line that is
/// passed over does not pay for its room on the stack.
#[inline(never)]
pub fn read_said<'a, G: Grammar<Option<&'a [u8]>>>(
    alloc: Global,
    line: &'a [u8],
) -> Result<G::Said, LineFault>
    ensures found { IfOk result (λ said. Says G.says (fields_of line.now) said) }
    ensures only { (said : G.Said) → Says G.says (fields_of line.now) said →
        (result ≡ Ok said) ⊎ (result ≡ Err LineFault.Memory) }
    ensures fault { (f : LineFault) → result ≡ Err f → f ≢ LineFault.Memory →
        Says G.at_fault (fields_of line.now) f }
    ensures only_fault { (f : LineFault) → Says G.at_fault (fields_of line.now) f →
        (result ≡ Err f) ⊎ (result ≡ Err LineFault.Memory) }
    ensures memory { result ≡ Err LineFault.Memory → G.can_run_out }
{
    let (word, rest) = cut_field(line);
    read_texts::<Option<&'a [u8]>, G>(alloc, word, rest)
}

/// Reads what a line says, which has no line feed, or returns `None` for a line that is passed
/// over.
pub fn read_line<'a, G: Grammar<Option<&'a [u8]>>>(
    alloc: Global,
    line: &'a [u8],
) -> Result<Option<G::Said>, LineFault>
    requires letters { (word : List ℕ) (texts : List (List ℕ)) (a : G.Said) → G.says word texts a →
        96 < get_or word 0 0 }
    ensures passed { result ≡ Ok None ↔ IsPassedOver line.now }
    ensures found { IfOk result (λ read.
        IfSome read (λ said. Says G.says (fields_of line.now) said)) }
    ensures only { (said : G.Said) → Says G.says (fields_of line.now) said →
        (result ≡ Ok (Some said)) ⊎ (result ≡ Err LineFault.Memory) }
    ensures fault { (f : LineFault) → result ≡ Err f → f ≢ LineFault.Memory →
        ¬ IsPassedOver line.now × Says G.at_fault (fields_of line.now) f }
    ensures only_fault { (f : LineFault) → ¬ IsPassedOver line.now →
        Says G.at_fault (fields_of line.now) f →
        (result ≡ Err f) ⊎ (result ≡ Err LineFault.Memory) }
    ensures memory { result ≡ Err LineFault.Memory → G.can_run_out }
{
    if is_passed_over(line) {
        return Ok(None);
    }
    match read_said::<G>(alloc, line) {
        Ok(said) => Ok(Some(said)),
        Err(fault) => Err(fault),
    }
}
