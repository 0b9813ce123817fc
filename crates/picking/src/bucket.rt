//! `first_candidate`: the first record of a set of networks in a bucket, searched from a slot on
//! and around.

ghost use Rattle.std.specs.Prelude.{◌≡◌, ℕ, ◌<◌, ◌≤◌, IfSome, IfNone, ◌+◌, ◌*◌, ◌-◌, Some, IsSome, option_map};
ghost use Rattle.std.specs.Int.{bit_at};
ghost use Rattle.table_machine.specs.Picks.{bucket_count, first_candidate, is_wanted, occupant_at};
ghost use Rattle.picking.specs.Inside.{candidate_in, IsMask};
ghost use Rattle.slot_grid.specs.declared.sizes.TheConstants.{SLOTS};

use net_addr::NetSet;
use peer_rec::Rec;
use slot_grid::SLOTS;
use std::hash::BuildHasher;
use std::sync::ledger::Ledger;
use steps::Steps;
use tables::{Tables, is_wanted};

/// Returns the first set bit of a mask in `from..to`, or `None` if no bit there is set.
fn next_set(mask: u64, from: u8, to: u8) -> Option<u8>
    requires { to ≤ 64 }
    ensures within { IfSome result (λ at. (from ≤ at) × (at < to)) }
    ensures set { IfSome result (λ at. bit_at mask at ≡ 1) }
    ensures first { IfSome result (λ at. (i : ℕ) → from ≤ i → i < at → bit_at mask i ≡ 0) }
    ensures none { IfNone result ((i : ℕ) → from ≤ i → i < to → bit_at mask i ≡ 0) }
{
    if from >= to {
        return None;
    }
    let at = from + (mask >> from).trailing_zeros() as u8;
    if at < to { Some(at) } else { None }
}

/// Returns which slots of a bucket are occupied, of the new table or of the tried table.
fn mask_of<H: BuildHasher, L: Ledger>(
    tables: &Tables<'_, H>,
    in_new: bool,
    bucket: u16,
    steps: &mut Steps<L>,
) -> u64
    requires { bucket < bucket_count in_new }
    ensures mask { IsMask (occupant_at tables.now in_new bucket) result }
    ensures steps { steps.new ≤ steps.old + 1 }
{
    if in_new {
        tables.new_mask(bucket, steps)
    } else {
        tables.tried_mask(bucket, steps)
    }
}

/// Returns the record in an occupied slot of a bucket, of the new table or of the tried table.
fn occupant<'t, H: BuildHasher, L: Ledger>(
    tables: &'t Tables<'_, H>,
    in_new: bool,
    bucket: u16,
    slot: u8,
    steps: &mut Steps<L>,
) -> &'t Rec
    requires bucket { bucket < bucket_count in_new }
    requires slot { slot < SLOTS }
    requires occupied { IsSome (occupant_at tables.now in_new bucket slot) }
    ensures record { occupant_at tables.now in_new bucket slot ≡ Some result.now }
    ensures steps { steps.new ≤ steps.old + 2 }
{
    let rec = if in_new {
        tables.new_rec_at(bucket, slot, steps)
    } else {
        tables.tried_rec_at(bucket, slot, steps)
    };
    rec.unwrap()
}

/// Returns `true` if a record is wanted. The set of all networks wants each, so there the record's
/// address is not read.
#[tactic(auto, using(crate::proofs::Candidates::all_want))]
fn is_candidate(nets: NetSet, rec: &Rec) -> bool
    ensures { result ≡ is_wanted nets rec.now }
{
    nets == NetSet::all() || is_wanted(nets, rec)
}

/// Returns the first wanted record of a bucket in the slots `from..to`. Bit s of the mask says
/// whether slot s of the bucket is occupied; no other slots are read.
fn candidate_in<'t, H: BuildHasher, L: Ledger>(
    tables: &'t Tables<'_, H>,
    in_new: bool,
    nets: NetSet,
    bucket: u16,
    mask: u64,
    from: u8,
    to: u8,
    steps: &mut Steps<L>,
) -> Option<&'t Rec>
    requires bucket { bucket < bucket_count in_new }
    requires mask { IsMask (occupant_at tables.now in_new bucket) mask }
    requires order { from ≤ to }
    requires slots { to ≤ SLOTS }
    ensures found { option_map (λ r. r.now) result
        ≡ candidate_in tables.now in_new nets bucket from (to - from) }
    ensures steps { steps.new ≤ steps.old + 2 * (to - from) }
{
    let mut at = from;
    while let Some(slot) = next_set(mask, at, to) {
        let rec = occupant(tables, in_new, bucket, slot, steps);
        if is_candidate(nets, rec) {
            return Some(rec);
        }
        at = slot + 1;
    }
    None
}

/// Returns the first wanted record of a bucket, from the slot `start` on and going round.
pub(crate) fn first_candidate<'t, H: BuildHasher, L: Ledger>(
    tables: &'t Tables<'_, H>,
    in_new: bool,
    nets: NetSet,
    bucket: u16,
    start: u8,
    steps: &mut Steps<L>,
) -> Option<&'t Rec>
    requires bucket { bucket < bucket_count in_new }
    requires slot { start < SLOTS }
    ensures found { option_map (λ r. r.now) result
        ≡ first_candidate tables.now in_new nets bucket start }
    ensures steps { steps.new ≤ steps.old + 129 }
{
    let mask = mask_of(tables, in_new, bucket, steps);
    match candidate_in(tables, in_new, nets, bucket, mask, start, SLOTS, steps) {
        Some(rec) => Some(rec),
        None => candidate_in(tables, in_new, nets, bucket, mask, 0, start, steps),
    }
}
