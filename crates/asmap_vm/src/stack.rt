//! `RightParts`: the right parts of jumps that are still to be read, at most 128.

ghost use Rattle.std.specs.Prelude.{◌≡◌, ◌<◌, [], ◌∷◌, length, MatchOption};
ghost use Rattle.asmap_vm.specs.declared.stack.TheConstants.{DEPTH};

use std::marker::Model;

/// The maximum number of jumps that can be open at once: each takes one of 128 address bits.
pub(crate) const DEPTH: usize = 128;

/// The right part of a jump, which is still to be read.
#[derive(Clone, Copy)]
pub(crate) struct RightPart {
    /// The offset at which it begins, and at which the left part has to end.
    pub begins: usize,
    /// The number of address bits that are left for it.
    pub left: u8,
}

/// The right parts that are still to be read, the next one first.
#[derive(Drop)]
pub(crate) struct RightParts {
    items: [RightPart; DEPTH],
    len: usize,
}

impl Model for RightParts {
    ghost use Rattle.std.specs.Prelude.{List, reverse, take, ◌≤◌};
    ghost use Rattle.asmap_vm.specs.declared.stack.RightPart.{RightPart};
    ghost use Rattle.asmap_vm.specs.declared.stack.TheConstants.{DEPTH};

    ghost Value = { List RightPart };

    ghost view = { λ s. reverse (take s.len s.items) };

    ghost invariant = { λ s. s.len ≤ DEPTH };
}

impl RightParts {
    /// Makes an empty list.
    pub fn new() -> RightParts
        ensures { result ≡ [] }
    {
        RightParts {
            items: [RightPart { begins: 0, left: 0 }; DEPTH],
            len: 0,
        }
    }

    /// Puts a right part before the others.
    pub fn push(&mut self, part: RightPart)
        requires { length self.old < DEPTH }
        ensures { self.new ≡ part ∷ self.old }
    {
        self.items[self.len] = part;
        self.len += 1;
    }

    /// Removes the first right part and returns it, or `None` if there is none.
    pub fn pop(&mut self) -> Option<RightPart>
        ensures { MatchOption result ((self.old ≡ []) × (self.new ≡ []))
            (λ part. self.old ≡ part ∷ self.new) }
    {
        if self.len == 0 {
            return None;
        }
        self.len -= 1;
        Some(self.items[self.len])
    }
}
