//! `Choice` and `OneOf`: a field that is one of two keywords.

ghost use Rattle.std.specs.Prelude.{◌≡◌, ◌≢◌, ℕ, List};
ghost use Rattle.grammar.specs.Fields.{Either, TheChoice};

use crate::field::read_either;
use crate::{Field, LineFault};
use std::alloc::Global;
use std::marker::PhantomData;

/// Two keywords that differ, of which a field has one.
pub trait Choice {
    ghost first: { List ℕ };

    ghost second: { List ℕ };

    /// Returns the first.
    fn first() -> &'static [u8]
        ensures { result.now ≡ first };

    /// Returns the second.
    fn second() -> &'static [u8]
        ensures { result.now ≡ second };

    ghost apart: { first ≢ second };
}

/// One of two keywords.
pub struct OneOf<C> {
    of: PhantomData<C>,
}

impl<C: Choice> Field for OneOf<C> {
    type Out = bool;

    ghost kind = { Either C.first C.second };

    ghost value = { λ b. TheChoice b };

    ghost can_run_out = { ⊥ };

    fn read(alloc: Global, text: &[u8]) -> Result<bool, LineFault> {
        read_either(text, C::first(), C::second())
    }
}
