//! `Keyed`: SipHash-1-3 with two keys from the caller.

ghost use Rattle.std.specs.Prelude.{◌≡◌};
ghost use Rattle.c_handles.specs.Seeded.{seeded};

use std::hash::{BuildHasher, DefaultHasher, Hasher};

/// A hasher with two keys: SipHash-1-3, which is given the keys before the input. Random keys keep
/// others from finding peers that collide in an index. std's `RandomState` takes its keys from the
/// process, which a library for C does not have.
#[derive(Clone, Copy)]
pub struct Keyed {
    start: DefaultHasher,
}

impl Keyed {
    /// Makes the hasher of two keys.
    pub fn of(keys: &[u64; 2]) -> Keyed
        ensures { result.start ≡ seeded keys.now }
    {
        let mut start = DefaultHasher::new();
        for key in keys {
            start.write_u64(*key);
        }
        Keyed { start }
    }
}

impl BuildHasher for Keyed {
    type Hasher = DefaultHasher;

    ghost build_hasher = { λ keyed. keyed.start };

    fn build_hasher(&self) -> DefaultHasher {
        self.start
    }
}
