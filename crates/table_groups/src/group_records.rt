//! `RecordNumbers` and `tally_records`: the number of records of each group, in one pass over the
//! records.

ghost use Rattle.std.specs.Prelude.{◌≡◌, ◌<◌, ◌≤◌, ◌-◌, ◌^◌, IfOk, OnOk, length};
ghost use Rattle.table_groups.specs.Groups.{counted_address, counted_group};
ghost use Rattle.table_groups.specs.Inside.{first_or, AreFewRecords, no_records, records_by, with_record};
ghost use Rattle.slot_grid.specs.declared.sizes.TheConstants.{ALL_SLOTS};
ghost use Rattle.table_groups.specs.Tally.{by_bytes, noted};

use crate::tally::{Tally, put_value, value_of};
use crate::{Lent, Memory};
use indexmap::IndexMap;
use net_addr::NetAddr;
use peer_rec::Rec;
use placing::Placer;
use std::alloc::{AllocError, Global};
use std::hash::BuildHasher;

/// The address of a group's first record, and how many records of each table it has.
#[derive(Clone, Copy)]
pub(crate) struct RecordNumbers {
    pub(crate) first: Option<NetAddr>,
    pub(crate) new: u32,
    pub(crate) tried: u32,
}

impl RecordNumbers {
    ghost use Rattle.std.specs.Prelude.{◌≡◌, ◌<◌, ◌-◌, ◌^◌};
    ghost use Rattle.table_groups.specs.Inside.{no_records, with_record};

    /// Returns the numbers of a group without records.
    pub(crate) fn none() -> RecordNumbers
        ensures { result ≡ no_records }
    {
        RecordNumbers {
            first: None,
            new: 0,
            tried: 0,
        }
    }

    /// Returns the numbers with one record more.
    pub(crate) fn with_record(self, rec: &Rec) -> RecordNumbers
        requires new { self.new < 2 ^ 32 - 1 }
        requires tried { self.tried < 2 ^ 32 - 1 }
        ensures { result ≡ with_record self rec.now }
    {
        let is_tried = rec.place.is_tried();
        RecordNumbers {
            first: first_or(self.first, counted_address(rec)),
            new: if is_tried { self.new } else { self.new + 1 },
            tried: if is_tried { self.tried + 1 } else { self.tried },
        }
    }
}

/// Returns the first address, which is this one if there was none.
fn first_or(first: Option<NetAddr>, addr: &NetAddr) -> Option<NetAddr>
    ensures { result ≡ first_or first addr.now }
{
    match first {
        Some(_) => first,
        None => Some(*addr),
    }
}

/// Returns the address of a record whose group counts: the source in the new table, and the peer in
/// the tried one.
pub(crate) fn counted_address(rec: &Rec) -> &NetAddr
    ensures { result.now ≡ counted_address rec.now }
{
    if rec.place.is_tried() {
        &rec.peer.addr
    } else {
        &rec.source
    }
}

/// Counts a record for its group.
fn note_record<H: BuildHasher>(
    tally: &mut Tally<'_, RecordNumbers, H>,
    placer: &Placer<'_>,
    rec: &Rec,
) -> Result<(), AllocError>
    requires few { AreFewRecords (2 ^ 32 - 2) (by_bytes tally.old.entries) }
    ensures { OnOk result (by_bytes tally.new.entries ≡ noted no_records with_record
        (by_bytes tally.old.entries) (counted_group placer.now rec.now, rec.now)) }
{
    let group = placer.group(counted_address(rec));
    let numbers = value_of(tally, &group, RecordNumbers::none()).with_record(rec);
    put_value(tally, group, numbers)
}

/// Counts records for their groups.
pub(crate) fn tally_records<'a, H: BuildHasher>(
    alloc: Global,
    hasher: &'a H,
    placer: &Placer<'_>,
    recs: &[Rec],
) -> Result<Tally<'a, RecordNumbers, H>, Memory>
    requires few { length recs.now ≤ ALL_SLOTS }
    ensures { IfOk result (λ tally. by_bytes tally.entries ≡ records_by placer.now recs.now) }
{
    let mut tally = IndexMap::with_hasher(alloc, Lent::of(hasher));
    for rec in recs {
        note_record(&mut tally, placer, rec)?;
    }
    Ok(tally)
}
