//! `Occupant`: the records in the slots of a view, each with the number of starts that lead to it.

ghost use Rattle.std.specs.Prelude.{◌≡◌, ◌≤◌, ◌<◌, ◌*◌, ◌++◌, IfOk, OnOk, is_some};
ghost use Rattle.slot_grid.specs.declared.sizes.TheConstants.{SLOTS};
ghost use Rattle.table_groups.specs.Slots.{some_in};
ghost use Rattle.table_groups.specs.View.{occupant_at};
ghost use Rattle.table_laws.specs.Rounds.{idle_below};
ghost use Rattle.table_machine.specs.Picks.{bucket_count};
ghost use Rattle.table_risk.specs.Occupants.{bucket_occupants, occupants_of, slot_occupant, starts_at};

use crate::Memory;
use peer_rec::Rec;
use slot_grid::SLOTS;
use std::alloc::Global;
use std::sync::ledger::Ledger;
use steps::Steps;
use table_groups::{TableView, bucket_count};

/// A record in a slot, and how many starts lead to the slot.
#[derive(Drop)]
pub(crate) struct Occupant {
    pub(crate) rec: Rec,
    pub(crate) starts: u32,
}

/// Returns `true` if a slot has a record.
fn is_occupied<T: TableView, L: Ledger>(
    tables: &T,
    in_new: bool,
    bucket: u16,
    slot: u8,
    steps: &mut Steps<L>,
) -> bool
    requires bucket { bucket < bucket_count in_new }
    requires slot { slot < SLOTS }
    ensures { result ≡ is_some (occupant_at (T.view tables.now) in_new bucket slot) }
{
    match tables.occupant(in_new, bucket, slot, steps) {
        Some(_) => true,
        None => false,
    }
}

/// Returns how many slots right below this one, going down, have no record.
fn idle_below<T: TableView, L: Ledger>(
    tables: &T,
    in_new: bool,
    bucket: u16,
    slot: u8,
    steps: &mut Steps<L>,
) -> u8
    requires bucket { bucket < bucket_count in_new }
    requires slot { slot ≤ SLOTS }
    ensures is { result
        ≡ idle_below (λ s. is_some (occupant_at (T.view tables.now) in_new bucket s)) slot }
    ensures few { result ≤ slot }
{
    let mut at = slot;
    let mut count = 0;
    while 0 < at {
        at -= 1;
        if is_occupied(tables, in_new, bucket, at, steps) {
            return count;
        }
        count += 1;
    }
    count
}

/// Returns how many starts lead to a slot that has a record: it and those before it, going round,
/// up to the next one that has a record.
fn starts_at<T: TableView, L: Ledger>(
    tables: &T,
    in_new: bool,
    bucket: u16,
    slot: u8,
    steps: &mut Steps<L>,
) -> u8
    requires bucket { bucket < bucket_count in_new }
    requires slot { slot < SLOTS }
    ensures is { result ≡ starts_at (T.view tables.now) in_new bucket slot }
    ensures few { result ≤ 2 * SLOTS }
{
    let below = idle_below(tables, in_new, bucket, slot, steps);
    if below == slot {
        1 + below + idle_below(tables, in_new, bucket, SLOTS, steps)
    } else {
        1 + below
    }
}

/// Appends the record in a slot, if it has one.
fn put_occupant<T: TableView, L: Ledger>(
    tables: &T,
    in_new: bool,
    bucket: u16,
    slot: u8,
    out: &mut Vec<Occupant>,
    steps: &mut Steps<L>,
) -> Result<(), Memory>
    requires bucket { bucket < bucket_count in_new }
    requires slot { slot < SLOTS }
    ensures { OnOk result (out.new.items
        ≡ out.old.items ++ slot_occupant (T.view tables.now) in_new bucket slot) }
{
    if let Some(rec) = tables.occupant(in_new, bucket, slot, steps) {
        out.push(Occupant {
            rec: rec.copy(),
            starts: u32::from(starts_at(tables, in_new, bucket, slot, steps)),
        })?;
    }
    Ok(())
}

/// Appends the records in the slots of a bucket.
#[tactic(auto, unfolding(crate::specs::Occupants::bucket_occupants))]
fn put_bucket<T: TableView, L: Ledger>(
    tables: &T,
    in_new: bool,
    bucket: u16,
    out: &mut Vec<Occupant>,
    steps: &mut Steps<L>,
) -> Result<(), Memory>
    requires { bucket < bucket_count in_new }
    ensures { OnOk result (out.new.items
        ≡ out.old.items ++ bucket_occupants (T.view tables.now) in_new bucket) }
{
    for slot in 0..SLOTS {
        put_occupant(tables, in_new, bucket, slot, out, steps)?;
    }
    Ok(())
}

/// Returns the records in the slots of a table, by rising bucket and slot.
#[tactic(auto, unfolding(crate::specs::Occupants::occupants_of))]
pub(crate) fn occupants_of<T: TableView, L: Ledger>(
    alloc: Global,
    tables: &T,
    in_new: bool,
    steps: &mut Steps<L>,
) -> Result<Vec<Occupant>, Memory>
    ensures { IfOk result (λ found. found.items ≡ occupants_of (T.view tables.now) in_new) }
{
    let mut found = Vec::new(alloc);
    for bucket in 0..bucket_count(in_new) {
        put_bucket(tables, in_new, bucket, &mut found, steps)?;
    }
    Ok(found)
}

/// Returns `true` if a slot of a bucket has a record.
pub(crate) fn is_used<T: TableView, L: Ledger>(
    tables: &T,
    in_new: bool,
    bucket: u16,
    steps: &mut Steps<L>,
) -> bool
    requires { bucket < bucket_count in_new }
    ensures { result ≡ some_in is_some (occupant_at (T.view tables.now) in_new bucket) }
{
    for slot in 0..SLOTS {
        if is_occupied(tables, in_new, bucket, slot, steps) {
            return true;
        }
    }
    false
}
