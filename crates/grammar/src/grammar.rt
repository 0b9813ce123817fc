//! The trait `Grammar`: what a keyword and the texts after it say.

ghost use Rattle.std.specs.Prelude.{◌≡◌, ◌≢◌, ℕ, List, IfOk, Err};
ghost use Rattle.grammar.specs.declared.fault.LineFault.{LineFault};

use crate::{LineFault, Texts};
use std::alloc::Global;

/// What the lines of a log say, or the arguments of a program.
pub trait Grammar<T: Texts> {
    /// What a line says.
    type Said: Drop;

    /// A first word and those after it say this.
    ghost says: { List ℕ → List (List ℕ) → Self.Said → Type 0 };

    /// What is wrong in a first word and those after it.
    ghost at_fault: { List ℕ → List (List ℕ) → LineFault → Type 0 };

    /// Reading can run out of memory.
    ghost can_run_out: { Type 0 };

    /// Reads what is said by this word and those after it.
    fn read_after(alloc: Global, word: &[u8], rest: T) -> Result<Self::Said, LineFault>
        ensures found { IfOk result (λ said. says word.now (T.texts rest) said) }
        ensures fault { (f : LineFault) → result ≡ Err f → f ≢ LineFault.Memory →
            at_fault word.now (T.texts rest) f }
        ensures memory { result ≡ Err LineFault.Memory → can_run_out };

    ghost one_said: { (word : List ℕ) (texts : List (List ℕ)) (a b : Self.Said) →
        says word texts a → says word texts b → a ≡ b };

    ghost one_fault: { (word : List ℕ) (texts : List (List ℕ)) (f g : LineFault) →
        at_fault word texts f → at_fault word texts g → f ≡ g };

    ghost right: { (word : List ℕ) (texts : List (List ℕ)) (a : Self.Said) (f : LineFault) →
        says word texts a → at_fault word texts f → ⊥ };
}
