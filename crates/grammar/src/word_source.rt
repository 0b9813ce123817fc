//! `WordSource`: random words as a line gives them, a list or a seed.

use crate::random::seeded_words;
use crate::{MAX_SEEDED, Words};
use random_words::Draws;
use std::alloc::{AllocError, Global};
use std::marker::Model;

/// The random words of a line as it gives them: a list, or a seed and the number of words. Those of
/// a seed take no memory. Contracts see the words.
#[derive(Drop)]
pub struct WordSource {
    given: Given,
}

/// How a line gives random words.
#[derive(Drop)]
enum Given {
    Listed(Words),
    Seeded { seed: u64, count: u64 },
}

impl Model for WordSource {
    ghost use Rattle.std.specs.Prelude.{ℕ, List};
    ghost use Rattle.grammar.specs.Inside.{words_given, IsWithin};

    ghost Value = { List ℕ };

    ghost view = { λ s. words_given s.given };

    ghost invariant = { λ s. IsWithin s.given };
}

impl WordSource {
    ghost use Rattle.std.specs.Prelude.{◌≡◌, ◌≤◌, IfOk};
    ghost use Rattle.random_words.specs.Seeded.{seeded_words};
    ghost use Rattle.grammar.specs.declared.random.TheConstants.{MAX_SEEDED};

    /// Makes the source of these words.
    pub fn of(words: Words) -> WordSource
        ensures { result ≡ words }
    {
        WordSource {
            given: Given::Listed(words),
        }
    }

    /// Makes the source of the first `count` words of the generator with this seed.
    pub fn seeded(seed: u64, count: u64) -> WordSource
        requires { count ≤ MAX_SEEDED }
        ensures { result ≡ seeded_words seed count }
    {
        WordSource {
            given: Given::Seeded { seed, count },
        }
    }

    /// Draws the words one after another, each time from the first on. Takes no memory.
    pub fn draws(&self) -> Draws<'_>
        ensures { result ≡ self.now }
    {
        match &self.given {
            Given::Listed(words) => Draws::of(words.items()),
            Given::Seeded { seed, count } => Draws::seeded(*seed, *count),
        }
    }

    /// Returns the words in memory.
    pub fn into_words(self, alloc: Global) -> Result<Words, AllocError>
        ensures { IfOk result (λ words. words ≡ self) }
    {
        match self.given {
            Given::Listed(words) => Ok(words),
            Given::Seeded { seed, count } => seeded_words(alloc, seed, count),
        }
    }
}
