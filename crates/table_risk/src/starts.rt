//! The number of starts from which a round comes to a record, in each table.

ghost use Rattle.std.specs.Prelude.{◌≡◌, ◌≤◌, ◌<◌, ◌*◌, true, false, All, length, sum_by};
ghost use Rattle.net_addr.specs.NetSet.{all};
ghost use Rattle.peer_rec.specs.Rec.{buckets_of};
ghost use Rattle.peer_rec.specs.declared.buckets.TheConstants.{MAX_LISTS};
ghost use Rattle.placing.specs.Places.{new_slot, tried_bucket, tried_slot};
ghost use Rattle.slot_grid.specs.declared.sizes.TheConstants.{NEW_BUCKETS, SLOTS};
ghost use Rattle.table_laws.specs.Chances.{leading_slots};
ghost use Rattle.table_laws.specs.Odds.{leading_starts};

use crate::gaps::gap;
use net_addr::Peer;
use peer_rec::{Place, Rec};
use std::hash::BuildHasher;
use std::sync::ledger::Ledger;
use steps::Steps;
use tables::Tables;

/// Returns from how many starts a round of the new table, or of the tried table, comes to the
/// record.
pub(crate) fn starts_of<H: BuildHasher, L: Ledger>(
    tables: &Tables<'_, H>,
    in_new: bool,
    rec: &Rec,
    steps: &mut Steps<L>,
) -> u32
    requires buckets { All (λ b. b < NEW_BUCKETS) (buckets_of rec.now) }
    ensures { result ≡ leading_starts tables.now in_new all rec.now }
{
    if in_new {
        new_starts(tables, rec, steps)
    } else {
        tried_starts(tables, rec, steps)
    }
}

/// Returns from how many starts a round of the new table comes to the record.
fn new_starts<H: BuildHasher, L: Ledger>(
    tables: &Tables<'_, H>,
    rec: &Rec,
    steps: &mut Steps<L>,
) -> u32
    requires buckets { All (λ b. b < NEW_BUCKETS) (buckets_of rec.now) }
    ensures { result ≡ leading_starts tables.now true all rec.now }
{
    match &rec.place {
        Place::New(buckets) => bucket_starts(tables, &rec.peer, buckets.items(), steps),
        Place::Tried => 0,
    }
}

/// Returns from how many starts a round of the new table comes to the peer in one of its buckets.
fn bucket_starts<H: BuildHasher, L: Ledger>(
    tables: &Tables<'_, H>,
    peer: &Peer,
    buckets: &[u16],
    steps: &mut Steps<L>,
) -> u32
    requires below { All (λ b. b < NEW_BUCKETS) buckets.now }
    requires few { length buckets.now ≤ MAX_LISTS }
    ensures { result ≡ sum_by (λ b. leading_slots tables.now true all b
        (new_slot tables.now.places peer.now b)) buckets.now }
{
    let mut sum = 0;
    for bucket in buckets {
        sum += u32::from(new_gap(tables, peer, *bucket, steps));
    }
    sum
}

/// Returns how many slots of a bucket of the new table lead to the one of the peer.
fn new_gap<H: BuildHasher, L: Ledger>(
    tables: &Tables<'_, H>,
    peer: &Peer,
    bucket: u16,
    steps: &mut Steps<L>,
) -> u8
    requires { bucket < NEW_BUCKETS }
    ensures is { result ≡ leading_slots tables.now true all bucket
        (new_slot tables.now.places peer.now bucket) }
    ensures few { result ≤ 2 * SLOTS }
{
    let slot = tables.placer().new_slot(peer, bucket);
    gap(tables.new_mask(bucket, steps), slot)
}

/// Returns how many slots of the tried table lead to the one of the peer.
fn tried_gap<H: BuildHasher, L: Ledger>(
    tables: &Tables<'_, H>,
    peer: &Peer,
    steps: &mut Steps<L>,
) -> u8
    ensures { let bucket = tried_bucket tables.now.places peer.now in
        result ≡ leading_slots tables.now false all bucket
        (tried_slot tables.now.places peer.now bucket) }
{
    let bucket = tables.placer().tried_bucket(peer);
    let slot = tables.placer().tried_slot(peer, bucket);
    gap(tables.tried_mask(bucket, steps), slot)
}

/// Returns from how many starts a round of the tried table comes to the record.
fn tried_starts<H: BuildHasher, L: Ledger>(
    tables: &Tables<'_, H>,
    rec: &Rec,
    steps: &mut Steps<L>,
) -> u32
    ensures { result ≡ leading_starts tables.now false all rec.now }
{
    if rec.place.is_tried() {
        return u32::from(tried_gap(tables, &rec.peer, steps));
    }
    0
}
