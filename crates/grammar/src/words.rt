//! `Words`: random words in memory.

ghost use Rattle.std.specs.Prelude.{◌≡◌, ◌<◌, ◌^◌, length, vec_len};

use std::marker::Model;

/// The random 64-bit words of a line, fewer than 2^32.
#[derive(Drop)]
pub struct Words {
    items: Vec<u64>,
}

impl Model for Words {
    ghost use Rattle.std.specs.Prelude.{ℕ, ◌<◌, ◌^◌, List, length};

    ghost Value = { List ℕ };

    ghost view = { λ w. w.items.items };

    ghost invariant = { λ w. length w.items.items < 2 ^ 32 };
}

impl Words {
    /// Makes the list of these words. Takes no memory.
    pub fn of(items: Vec<u64>) -> Words
        requires { vec_len items < 2 ^ 32 }
        ensures { result ≡ items.items }
    {
        Words { items }
    }

    /// Returns the words as a slice.
    pub fn items(&self) -> &[u64]
        ensures items { result.now ≡ self.now }
        ensures few { length self.now < 2 ^ 32 }
    {
        &self.items
    }
}
