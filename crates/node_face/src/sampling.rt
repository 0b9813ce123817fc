//! `sample` with a generator that makes its random words.

ghost use Rattle.std.specs.Prelude.{◌≡◌, IfOk, OnErr, length};
ghost use Rattle.node_face.specs.Sampling.{IsSample, IsUnfiltered, next_words};

use net_addr::NetSet;
use peer_rec::Recs;
use picking::{Peers, SampleFault};
use rand_core::Rng;
use std::alloc::Global;
use std::hash::BuildHasher;
use tables::{Memory, Tables};

/// Draws random words.
#[tactic(auto, using(crate::proofs::Words::words_more))]
pub(crate) fn words_of<R: Rng>(alloc: Global, count: u32, rng: &mut R) -> Result<Vec<u64>, Memory>
    ensures count { IfOk result (λ words. length words.items ≡ count) }
    ensures words { IfOk result (λ words. words.items ≡ next_words count (R.stream rng.old)) }
{
    let mut words = Vec::with_capacity(alloc, count as usize)?;
    for _ in 0..count {
        words.push(rng.next_u64())?;
    }
    Ok(words)
}

/// Samples peers to announce, of these classes, at a time in seconds since 1970: at most `max`, and
/// at most `percent` percent of the records. A limit of 0 is none, and so are 100 percent and more
/// (`picking::sample`). Draws a word for each record.
pub fn sample<H: BuildHasher, R: Rng>(
    alloc: Global,
    tables: &mut Tables<'_, H>,
    max: u32,
    percent: u32,
    classes: NetSet,
    rng: &mut R,
    now: u32,
) -> Result<Peers, Memory>
    ensures sample { IfOk result (λ peers.
        IsSample (R.stream rng.old) tables.old max percent classes now peers tables.new) }
    ensures err { OnErr result (tables.new ≡ tables.old) }
{
    let counts = tables.counts();
    let words = words_of(alloc, counts.new_count + counts.tried_count, rng)?;
    let percent = percent.min(100);
    match node_calls::sample(alloc, tables, max, percent, classes, words.as_slice(), now) {
        Ok(peers) => Ok(peers),
        Err(SampleFault::Memory) => Err(Memory),
        Err(SampleFault::ShortWords { .. }) => unreachable!(),
    }
}

/// Samples records, terrible ones among them, of these classes: at most `max`, and at most
/// `percent` percent of all records. A limit of 0 is none, and so are 100 percent and more
/// (`node_calls::sample_unfiltered`). Draws a word for each record.
pub fn sample_unfiltered<H: BuildHasher, R: Rng>(
    alloc: Global,
    tables: &Tables<'_, H>,
    max: u32,
    percent: u32,
    classes: NetSet,
    rng: &mut R,
) -> Result<Recs, Memory>
    ensures { IfOk result (λ recs.
        IsUnfiltered (R.stream rng.old) tables.now max percent classes recs) }
{
    let counts = tables.counts();
    let words = words_of(alloc, counts.new_count + counts.tried_count, rng)?;
    let percent = percent.min(100);
    match node_calls::sample_unfiltered(alloc, tables, max, percent, classes, words.as_slice()) {
        Ok(recs) => Ok(recs),
        Err(SampleFault::Memory) => Err(Memory),
        Err(SampleFault::ShortWords { .. }) => unreachable!(),
    }
}
