//! The traits `Field` and `Fields`: nested pairs of kinds, with `fit` and `read_fields`.

ghost use Rattle.std.specs.Prelude.{◌≡◌, ◌≢◌, ◌⊎◌, ◌↔◌, List, [], ◌∷◌, length, IfOk, IsTrue, Err};
ghost use Rattle.grammar.specs.Fields.{Kind, Value, Means, AllMean, AreAtFault, IsFieldFault, IsFirstFault};
ghost use Rattle.grammar.specs.declared.fault.LineFault.{LineFault};

use crate::{LineFault, Texts};
use std::alloc::Global;

/// A field of one kind.
pub trait Field {
    /// The value of a field.
    type Out: Drop;

    ghost kind: { Kind };

    ghost value: { Self.Out → Value };

    /// Reading can run out of memory.
    ghost can_run_out: { Type 0 };

    /// Reads a field of the kind.
    fn read(alloc: Global, text: &[u8]) -> Result<Self::Out, LineFault>
        ensures found { IfOk result (λ x. Means kind text.now (value x)) }
        ensures fault { (f : LineFault) → result ≡ Err f → f ≢ LineFault.Memory →
            IsFieldFault kind text.now f }
        ensures memory { result ≡ Err LineFault.Memory → can_run_out };
}

/// The fields after a keyword: nested pairs, as `(A, (B, ()))` for two fields.
pub trait Fields<T: Texts> {
    /// The values of the fields.
    type Out: Drop;

    ghost kinds: { List Kind };

    ghost values: { Self.Out → List Value };

    /// Reading can run out of memory.
    ghost can_run_out: { Type 0 };

    /// Returns `true` if there are as many texts as fields.
    fn fit(rest: T) -> bool
        ensures { IsTrue result ↔ (length (T.texts rest) ≡ length kinds) };

    /// Reads the texts. An error is the first field's with one if there are as many texts as
    /// fields.
    fn read(alloc: Global, rest: T) -> Result<Self::Out, LineFault>
        ensures found { IfOk result (λ x. AllMean kinds (T.texts rest) (values x)) }
        ensures fault { (f : LineFault) → result ≡ Err f → f ≢ LineFault.Memory →
            length (T.texts rest) ≡ length kinds → IsFirstFault kinds (T.texts rest) f }
        ensures memory { result ≡ Err LineFault.Memory → can_run_out };
}

impl<T: Texts> Fields<T> for () {
    type Out = ();

    ghost kinds = { [] };

    ghost values = { λ x. [] };

    ghost can_run_out = { ⊥ };

    fn fit(rest: T) -> bool {
        rest.cut().is_none()
    }

    fn read(alloc: Global, rest: T) -> Result<(), LineFault> {
        match rest.cut() {
            None => Ok(()),
            Some(_) => Err(LineFault::Fields),
        }
    }
}

impl<T: Texts, A: Field, R: Fields<T>> Fields<T> for (A, R) {
    type Out = (A::Out, R::Out);

    ghost kinds = { A.kind ∷ R.kinds };

    ghost values = { λ x. A.value x.0 ∷ R.values x.1 };

    ghost can_run_out = { A.can_run_out ⊎ R.can_run_out };

    fn fit(rest: T) -> bool {
        match rest.cut() {
            None => false,
            Some((_, rest)) => R::fit(rest),
        }
    }

    fn read(alloc: Global, rest: T) -> Result<(A::Out, R::Out), LineFault> {
        let Some((first, rest)) = rest.cut() else {
            return Err(LineFault::Fields);
        };
        let a = A::read(alloc, first)?;
        let r = R::read(alloc, rest)?;
        Ok((a, r))
    }
}

/// Reads the fields after a keyword, which may be too few or too many. They are counted only after
/// an error, so that a line without one is cut once.
pub fn read_fields<T: Texts, R: Fields<T>>(alloc: Global, rest: T) -> Result<R::Out, LineFault>
    ensures found { IfOk result (λ x. AllMean R.kinds (T.texts rest) (R.values x)) }
    ensures fault { (f : LineFault) → result ≡ Err f → f ≢ LineFault.Memory →
        AreAtFault R.kinds (T.texts rest) f }
    ensures memory { result ≡ Err LineFault.Memory → R.can_run_out }
{
    match R::read(alloc, rest) {
        Ok(values) => Ok(values),
        Err(fault) => {
            if R::fit(rest) {
                Err(fault)
            } else {
                Err(LineFault::Fields)
            }
        }
    }
}
