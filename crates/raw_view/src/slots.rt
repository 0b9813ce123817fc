//! An array of slots from the rows, with the place of each record.

ghost use Rattle.std.specs.Prelude.{◌≡◌, ◌<◌, ◌*◌, replicate, IfOk, None, option_map};
ghost use Rattle.raw_read.specs.Rows.{buckets_of, slot_number};
ghost use Rattle.raw_view.specs.Inside.{AreIn};
ghost use Rattle.raw_view.specs.Listed.{place_of, rec_of, slot_in, slots_of};
ghost use Rattle.slot_grid.specs.declared.sizes.TheConstants.{SLOTS};

use net_addr::Memory;
use peer_rec::{Buckets, Place, Rec};
use raw_read::{RawRow, RawTable};
use slot_grid::{NEW_SLOTS, SLOTS, TRIED_SLOTS};
use std::alloc::Global;

/// Returns where the record of a row is.
fn place_of(table: RawTable, row: &RawRow) -> Place
    ensures { result ≡ place_of table row.now }
{
    match table {
        RawTable::New => Place::New(Buckets::one(row.bucket)),
        RawTable::Tried => Place::Tried,
    }
}

/// Returns the record of a row.
pub(crate) fn rec_of(table: RawTable, row: &RawRow) -> Rec
    ensures { result ≡ rec_of table row.now }
{
    Rec {
        number: 0,
        peer: row.rec.peer,
        source: row.rec.source,
        time: row.rec.time,
        services: row.rec.services,
        last_success: 0,
        last_try: 0,
        last_count: 0,
        attempts: 0,
        place: place_of(table, row),
    }
}

/// Returns the number of a slot, among those of its table.
fn slot_number(bucket: u16, position: u8) -> usize
    ensures { result ≡ slot_number bucket position }
{
    usize::from(bucket) * usize::from(SLOTS) + usize::from(position)
}

/// Returns how many slots a table has.
fn slot_count(table: RawTable) -> usize
    ensures { result ≡ buckets_of table * SLOTS }
{
    match table {
        RawTable::New => NEW_SLOTS,
        RawTable::Tried => TRIED_SLOTS,
    }
}

/// Returns this many empty slots.
fn no_slots(alloc: Global, count: usize) -> Result<Vec<Option<Rec>>, Memory>
    ensures { IfOk result (λ slots. slots.items ≡ replicate count None) }
{
    let mut slots = Vec::with_capacity(alloc, count)?;
    for _ in 0..count {
        slots.push(None)?;
    }
    Ok(slots)
}

/// Returns the slots of a table with these rows.
pub(crate) fn slots_of(
    alloc: Global,
    table: RawTable,
    rows: &[RawRow],
) -> Result<Vec<Option<Rec>>, Memory>
    requires { AreIn table rows.now }
    ensures { IfOk result (λ slots. slots.items ≡ slots_of table rows.now) }
{
    let mut slots = no_slots(alloc, slot_count(table))?;
    let mut rest = rows;
    while let [row, after @ ..] = rest {
        slots[slot_number(row.bucket, row.position)] = Some(rec_of(table, row));
        rest = after;
    }
    Ok(slots)
}

/// Returns the record in a slot of these, if there is one.
pub(crate) fn slot_in(slots: &[Option<Rec>], bucket: u16, position: u8) -> Option<&Rec>
    ensures { option_map (λ r. r.now) result ≡ slot_in slots.now bucket position }
{
    match slots.get(slot_number(bucket, position)) {
        Some(Some(rec)) => Some(rec),
        _ => None,
    }
}
