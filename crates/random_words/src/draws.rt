//! `Draws`, an iterator over random words: those of a slice, or a number of words from a generator
//! (`@S:N`, xoshiro256).

ghost use Rattle.std.specs.Prelude.{◌≡◌, length};
ghost use Rattle.std.specs.Iterator.{YieldsFirst};
ghost use Rattle.random_words.specs.Seeded.{seeded_words};
ghost use Rattle.random_words.specs.Inside.{words_left};

use rand_core::SeedableRng;
use rand_core::utils::NextWord;
use rand_xoshiro::Xoshiro256PlusPlus;
use std::marker::Model;

/// Random words that are drawn one after another: those of a slice, or as many as are wanted of a
/// generator, which makes each when it is drawn. Contracts see the words that are left.
#[derive(Drop)]
pub struct Draws<'a> {
    left: Left<'a>,
}

/// Where the words that are left come from.
#[derive(Drop)]
enum Left<'a> {
    Slice(&'a [u64]),
    Generator {
        generator: Xoshiro256PlusPlus,
        count: u64,
    },
}

impl<'a> Model for Draws<'a> {
    ghost use Rattle.std.specs.Prelude.{ℕ, List};
    ghost use Rattle.random_words.specs.Inside.{words_left};

    ghost Value = { List ℕ };

    ghost view = { λ d. words_left d.left };
}

impl<'a> Draws<'a> {
    /// Draws the words of a slice.
    pub fn of(words: &'a [u64]) -> Draws<'a>
        ensures { result ≡ words.now }
    {
        Draws {
            left: Left::Slice(words),
        }
    }

    /// Draws the first `count` words of the generator with this seed. Takes no memory.
    #[tactic(auto, using(crate::proofs::Counts::seeded_count), unfolding(crate::specs::Seeded::seeded_words))]
    pub fn seeded(seed: u64, count: u64) -> Draws<'a>
        ensures words { result ≡ seeded_words seed count }
        ensures count { length result ≡ count }
    {
        Draws {
            left: Left::Generator {
                generator: Xoshiro256PlusPlus::seed_from_u64(seed),
                count,
            },
        }
    }
}

impl<'a> Iterator for Draws<'a> {
    ghost use Rattle.std.specs.Iterator.{YieldsFirst, item_count};

    type Item = u64;

    ghost next_gives = { YieldsFirst (λ words. words) };

    ghost remaining = { item_count (λ words. words) };

    fn next(&mut self) -> Option<u64> {
        next_of(&mut self.left)
    }
}

/// Draws the next word.
fn next_of(left: &mut Left<'_>) -> Option<u64>
    ensures { YieldsFirst words_left left.old result left.new }
{
    match left {
        Left::Slice(words) => {
            let (first, rest) = words.split_first()?;
            *words = rest;
            Some(*first)
        }
        Left::Generator { generator, count } => {
            if *count == 0 {
                return None;
            }
            *count -= 1;
            Some(generator.next_word())
        }
    }
}
