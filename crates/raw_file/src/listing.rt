//! `read_listing`: from the text to a `Snapshot`.

ghost use Rattle.std.specs.Prelude.{◌≡◌, ◌≢◌, ◌≤◌, ◌*◌, length, IfOk, IfErr, OnOk, None, Some};
ghost use Rattle.raw_file.specs.Faults.{HasListingFault, IsListing};
ghost use Rattle.raw_file.specs.Inside.{AreRowsOf};
ghost use Rattle.raw_file.specs.Listing.{first_fault, snapshot_of};
ghost use Rattle.raw_file.specs.declared.fault.ListingFault.TheVariants as faults;
ghost use Rattle.slot_grid.specs.declared.sizes.TheConstants.{NEW_BUCKETS, SLOTS};

use crate::ListingFault;
use crate::peers::{check_tried, pairs_of, read_new, tried_of};
use indexmap::IndexSet;
use peer_rec::{FileRecs, Pairs, Snapshot};
use raw_read::{Raw, RawFault, read_raw};
use slot_grid::NEW_BUCKETS;
use std::alloc::Global;

/// Makes the snapshot of both tables.
fn snapshot_of(
    alloc: Global,
    raw: &Raw,
    key: [u8; 32],
    sum: [u8; 32],
) -> Result<Snapshot, ListingFault>
    requires { AreRowsOf raw.now }
    ensures none { OnOk result (first_fault raw.now ≡ None) }
    ensures snapshot { IfOk result (λ snap. snap ≡ snapshot_of key sum raw.now) }
    ensures few_listed { IfOk result (λ snap. length snap.listed ≤ NEW_BUCKETS * SLOTS) }
    ensures cause { IfErr result (λ fault.
        fault ≢ faults.Memory → first_fault raw.now ≡ Some fault) }
{
    let rows = raw.new.items();
    let tried_rows = raw.tried.items();
    let mut peers = IndexSet::new(alloc);
    let recs = match read_new(alloc, rows, &mut peers) {
        Ok(recs) => recs,
        Err(fault) => return Err(fault),
    };
    let pairs = pairs_of(alloc, rows, &peers)?;
    match check_tried(tried_rows, &mut peers) {
        Ok(()) => {}
        Err(fault) => return Err(fault),
    }
    let tried = tried_of(alloc, tried_rows)?;
    let new_recs = FileRecs::of(recs);
    let tried_recs = FileRecs::of(tried);
    let listed = Pairs::of(pairs);
    Ok(Snapshot::make(
        key,
        new_recs,
        tried_recs,
        u32::from(NEW_BUCKETS),
        listed,
        sum,
    ))
}

/// Reads what `getrawaddrman` printed as what a file of peers has, with this key and this checksum
/// of the asmap. The records of the new table come in the order of their first slots, and each
/// bucket lists its records in the order of their positions. An error is the first fault: of the
/// text, or else of the first slot whose peer is there again.
pub fn read_listing(
    alloc: Global,
    bytes: &[u8],
    key: [u8; 32],
    sum: [u8; 32],
) -> Result<Snapshot, ListingFault>
    ensures found { IfOk result (IsListing key sum bytes.now) }
    ensures cause { IfErr result (λ fault.
        fault ≢ faults.Memory → HasListingFault bytes.now fault) }
    ensures buckets { IfOk result (λ snap. snap.bucket_count ≡ NEW_BUCKETS) }
    ensures few_listed { IfOk result (λ snap. length snap.listed ≤ NEW_BUCKETS * SLOTS) }
{
    let raw = match read_raw(alloc, bytes) {
        Ok(raw) => raw,
        Err(RawFault::Memory) => return Err(ListingFault::Memory),
        Err(fault) => return Err(ListingFault::Text(fault)),
    };
    snapshot_of(alloc, &raw, key, sum)
}
