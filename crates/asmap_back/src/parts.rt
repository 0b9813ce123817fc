//! `PartsLeft`: the stack of parts that are still to be read.

ghost use Rattle.std.specs.Prelude.{◌≡◌, ◌<◌, [], ◌∷◌, length, MatchOption};
ghost use Rattle.asmap_back.specs.Inside.{whole_part};
ghost use Rattle.asmap_back.specs.declared.parts.TheConstants.{DEPTH};

use crate::part::{Part, whole};
use std::marker::Model;

/// The maximum number of parts that can be left: after each part, at most as many are left as its
/// path has bits.
pub(crate) const DEPTH: usize = 129;

/// The parts that are still to be read, the next one first.
#[derive(Drop)]
pub(crate) struct PartsLeft {
    items: [Part; DEPTH],
    len: usize,
}

impl Model for PartsLeft {
    ghost use Rattle.std.specs.Prelude.{List, reverse, take, ◌≤◌};
    ghost use Rattle.asmap_back.specs.declared.part.Part.{Part};
    ghost use Rattle.asmap_back.specs.declared.parts.TheConstants.{DEPTH};

    ghost Value = { List Part };

    ghost view = { λ s. reverse (take s.len s.items) };

    ghost invariant = { λ s. s.len ≤ DEPTH };
}

impl PartsLeft {
    /// Makes the list of the whole tree's part.
    pub fn new() -> PartsLeft
        ensures { result ≡ whole_part ∷ [] }
    {
        PartsLeft {
            items: [whole(); DEPTH],
            len: 1,
        }
    }

    /// Puts a part before the others.
    pub fn push(&mut self, part: Part)
        requires { length self.old < DEPTH }
        ensures { self.new ≡ part ∷ self.old }
    {
        self.items[self.len] = part;
        self.len += 1;
    }

    /// Removes the first part and returns it, or `None` if there is none.
    pub fn pop(&mut self) -> Option<Part>
        ensures { MatchOption result ((self.old ≡ []) × (self.new ≡ []))
            (λ part. self.old ≡ part ∷ self.new) }
    {
        if self.len == 0 {
            return None;
        }
        self.len -= 1;
        Some(self.items[self.len])
    }
}
