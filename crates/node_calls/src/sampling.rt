//! `sample_unfiltered`: a sample of all records, terrible ones included, after a shuffle by random
//! words.

ghost use Rattle.std.specs.Prelude.{◌≡◌, ℕ, ◌≤◌, ◌<◌, ◌^◌, length, filter, take, Err, IfOk, OnOk};
ghost use Rattle.picking.specs.declared.sampling.SampleFault.{SampleFault};
ghost use Rattle.table_machine.specs.Picks.{sample_limit};
ghost use Rattle.node_calls.specs.Chosen.{shuffled};
ghost use Rattle.node_calls.specs.Unfiltered.{is_in, sample_unfiltered};

use crate::adding_chosen::shuffle;
use crate::records::recs;
use net_addr::NetSet;
use peer_rec::{Rec, Recs};
use picking::SampleFault;
use std::alloc::Global;
use std::hash::BuildHasher;
use tables::{Memory, Tables};

/// Samples records by random words, terrible ones among them, of these classes: at most `max`, and
/// at most `pct` percent of all records. A limit of 0 is none (`AddrManImpl::GetAddr_` in
/// addrman.cpp of Bitcoin Core, with `filtered` false). There has to be a word for each record. The
/// order of the records stays as it is.
pub fn sample_unfiltered<H: BuildHasher>(
    alloc: Global,
    tables: &Tables<'_, H>,
    max: u32,
    pct: u32,
    classes: NetSet,
    words: &[u64],
) -> Result<Recs, SampleFault>
    requires percent { pct ≤ 100 }
    requires few_words { length words.now < 2 ^ 32 }
    ensures recs { IfOk result
        (λ recs. recs ≡ sample_unfiltered tables.now max pct classes words.now) }
    ensures enough { OnOk result (length tables.now.order ≤ length words.now) }
    ensures short { (need have : ℕ) → result ≡ Err (SampleFault.ShortWords need have) →
        (need ≡ length tables.now.order) × ((have ≡ length words.now) × (have < need)) }
    ensures memory { result ≡ Err SampleFault.Memory →
        length tables.now.order ≤ length words.now }
{
    let count = count_of(tables);
    if words.len() < count as usize {
        return Err(SampleFault::ShortWords {
            need: count,
            have: words.len() as u32,
        });
    }
    let Ok(recs) = recs(tables) else {
        return Err(SampleFault::Memory);
    };
    let limit = limit_of(count, max, pct) as usize;
    match sampled(alloc, recs.items(), limit, classes, words) {
        Ok(found) => Ok(Recs::of(found)),
        Err(_) => Err(SampleFault::Memory),
    }
}

/// Returns the number of records.
fn count_of<H: BuildHasher>(tables: &Tables<'_, H>) -> u32
    ensures order { result ≡ length tables.now.order }
    ensures records { result ≡ length tables.now.records }
{
    let counts = tables.counts();
    counts.new_count + counts.tried_count
}

/// Returns how many of so many records a sample may have (`picking::sample`).
fn limit_of(count: u32, max: u32, pct: u32) -> u32
    requires percent { pct ≤ 100 }
    ensures limit { result ≡ sample_limit count max pct }
{
    let part = if pct == 0 {
        count
    } else {
        (u64::from(pct) * u64::from(count) / 100) as u32
    };
    if max == 0 { part } else { max.min(part) }
}

/// Returns the first of the records of these classes, after a shuffle.
fn sampled(
    alloc: Global,
    recs: &[Rec],
    limit: usize,
    classes: NetSet,
    words: &[u64],
) -> Result<Vec<Rec>, Memory>
    requires enough { length recs.now ≤ length words.now }
    ensures { IfOk result (λ found. found.items
        ≡ take limit (shuffled (filter (is_in classes) recs.now) 0 words.now)) }
{
    let mut found = of_classes(alloc, recs, classes)?;
    shuffle(found.as_mut_slice(), words);
    found.truncate(limit);
    Ok(found)
}

/// Returns the records of these classes.
fn of_classes(alloc: Global, recs: &[Rec], classes: NetSet) -> Result<Vec<Rec>, Memory>
    ensures found { IfOk result (λ found. found.items ≡ filter (is_in classes) recs.now) }
    ensures few { IfOk result (λ found. length found.items ≤ length recs.now) }
{
    let mut found = Vec::with_capacity(alloc, recs.len())?;
    for rec in recs {
        if is_in(classes, rec) {
            found.push(rec.copy())?;
        }
    }
    Ok(found)
}

/// Returns `true` if the class of the record's address is in the set.
fn is_in(classes: NetSet, rec: &Rec) -> bool
    ensures { result ≡ is_in classes rec.now }
{
    classes.has(rec.peer.addr.net_class())
}
