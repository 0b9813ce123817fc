//! `select` and `select_by` (`Select_`): rounds, the chance times the factor, and one table or
//! both.

ghost use Rattle.std.specs.Prelude.{◌≡◌, ◌+◌, ◌*◌, ◌≤◌, length, option_map, ◌/◌};
ghost use Rattle.table_machine.specs.Picks.{candidate, candidates, first_accepted, first_factor, is_accepted, candidates_of, candidates_of_either, select};
ghost use Rattle.peer_rec.specs.declared.answers.Picked.TheVariants.{Exhausted};

use crate::bucket::first_candidate;
use net_addr::NetSet;
use peer_rec::{Picked, Rec, next_factor};
use random_words::Draws;
use slot_grid::{NEW_BUCKETS, SLOTS, TRIED_BUCKETS};
use std::hash::BuildHasher;
use std::sync::ledger::Ledger;
use steps::Steps;
use tables::Tables;

/// Chances and factors are in parts of this number.
const PARTS: u64 = 1 << 30;

/// Returns the candidate of a round: the first wanted record of the bucket that one random word
/// selects, from the slot on that another word selects.
fn candidate<'t, H: BuildHasher, L: Ledger>(
    tables: &'t Tables<'_, H>,
    in_new: bool,
    nets: NetSet,
    bucket: u64,
    start: u64,
    steps: &mut Steps<L>,
) -> Option<&'t Rec>
    ensures found { option_map (λ r. r.now) result ≡ candidate tables.now in_new nets bucket start }
    ensures steps { steps.new ≤ steps.old + 129 }
{
    let buckets = if in_new { NEW_BUCKETS } else { TRIED_BUCKETS };
    let slot = (start % u64::from(SLOTS)) as u8;
    first_candidate(
        tables,
        in_new,
        nets,
        (bucket % u64::from(buckets)) as u16,
        slot,
        steps,
    )
}

/// Returns `true` if a random word accepts a record, by its chance times the factor.
fn is_accepted(rec: &Rec, now: u32, factor: u64, word: u64) -> bool
    ensures { result ≡ is_accepted rec.now now factor word }
{
    let part = u128::from(word % PARTS) * u128::from(PARTS);
    part < u128::from(rec.chance(now)) * u128::from(factor)
}

/// Searches one table, at a time in seconds since 1970. Each round selects a bucket and a slot by
/// two random words. If it has a candidate, a third word accepts or refuses it.
fn search<H: BuildHasher, L: Ledger>(
    tables: &Tables<'_, H>,
    in_new: bool,
    nets: NetSet,
    words: Draws<'_>,
    now: u32,
    steps: &mut Steps<L>,
) -> Picked
    ensures picked { result
        ≡ first_accepted now first_factor (candidates tables.now in_new nets words.entry) }
    ensures steps { steps.new ≤ steps.old + 65 * length words.entry }
{
    let mut factor = PARTS;
    let mut rest = words;
    let mut next = rest.next();
    while let Some(bucket) = next {
        let (Some(start), Some(word)) = (rest.next(), rest.next()) else {
            return Picked::Exhausted;
        };
        match candidate(tables, in_new, nets, bucket, start, steps) {
            // The third word is left for the next round.
            None => next = Some(word),
            Some(rec) => {
                if is_accepted(rec, now, factor, word) {
                    return Picked::One(rec.peer, rec.last_try);
                }
                factor = next_factor(factor);
                next = rest.next();
            }
        }
    }
    Picked::Exhausted
}

/// Searches the new table if the first random word is even, and else the tried table.
fn search_either<H: BuildHasher, L: Ledger>(
    tables: &Tables<'_, H>,
    nets: NetSet,
    mut words: Draws<'_>,
    now: u32,
    steps: &mut Steps<L>,
) -> Picked
    ensures picked { result
        ≡ first_accepted now first_factor (candidates_of_either tables.now nets words.entry) }
    ensures steps { steps.new ≤ steps.old + 65 * length words.entry }
{
    match words.next() {
        None => Picked::Exhausted,
        Some(word) => search(tables, word % 2 == 0, nets, words, now, steps),
    }
}

/// Returns a peer to connect to whose network is in a set, at a time in seconds since 1970; with
/// `new_only`, one of the new table. Random words select the table, if both have wanted records,
/// and then buckets and slots, and they accept a record by its chance (`AddrManImpl::Select_` in
/// addrman.cpp of Bitcoin Core). A record whose address is not routable counts for
/// `Net::Unroutable`. `Nothing` comes if no record is wanted, and `Exhausted` if the words run out.
pub fn select<H: BuildHasher, L: Ledger>(
    tables: &Tables<'_, H>,
    new_only: bool,
    nets: NetSet,
    words: &[u64],
    now: u32,
    steps: &mut Steps<L>,
) -> Picked
    ensures picked { result ≡ select tables.now new_only nets words.now now }
    ensures few { result ≡ Exhausted
        → length (candidates_of tables.now new_only nets words.now) ≤ 44 }
    ensures steps { steps.new ≤ steps.old + 4 + 130 * (length words.now / 2 + 1) }
{
    select_by(tables, new_only, nets, Draws::of(words), now, steps)
}

/// The same with random words that are drawn one after another, as they are needed.
#[tactic(auto, using(table_machine::proofs::Refusals::few_refusals))]
pub fn select_by<H: BuildHasher, L: Ledger>(
    tables: &Tables<'_, H>,
    new_only: bool,
    nets: NetSet,
    words: Draws<'_>,
    now: u32,
    steps: &mut Steps<L>,
) -> Picked
    ensures picked { result ≡ select tables.now new_only nets words.entry now }
    ensures few { result ≡ Exhausted
        → length (candidates_of tables.now new_only nets words.entry) ≤ 44 }
    ensures steps { steps.new ≤ steps.old + 4 + 130 * (length words.entry / 2 + 1) }
{
    let (new, tried) = tables.wanted(nets);
    if new_only || tried == 0 {
        if new == 0 {
            return Picked::Nothing;
        }
        return search(tables, true, nets, words, now, steps);
    }
    if new == 0 {
        return search(tables, false, nets, words, now, steps);
    }
    search_either(tables, nets, words, now, steps)
}
