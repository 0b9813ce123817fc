//! `SlotNumbers` and `tally_slots`: the number of slots and buckets of each group, in one pass over
//! the slots.

ghost use Rattle.std.specs.Prelude.{◌≡◌, ◌<◌, ◌≤◌, ◌+◌, ◌-◌, ◌^◌, IfOk, OnOk, true, fold, if◌then◌else◌, is_some, option_map};
ghost use Rattle.slot_grid.specs.declared.sizes.TheConstants.{NEW_BUCKETS, NEW_SLOTS, SLOTS};
ghost use Rattle.table_groups.specs.Inside.{slots_by};
ghost use Rattle.table_groups.specs.Sources.{bucket_groups, source_groups};
ghost use Rattle.table_groups.specs.Tally.{by_bytes, noted};
ghost use Rattle.table_groups.specs.Visits.{AreFewSlots, in_bucket, no_slots, slots_before, visits_of, with_slot};
ghost use Rattle.table_groups.specs.Slots.{new_slots, slots_in};
ghost use Rattle.table_machine.specs.Picks.{bucket_count};

use crate::tally::{Tally, put_value, value_of};
use crate::{Lent, Memory, TableView};
use indexmap::IndexMap;
use peer_rec::Rec;
use placing::Placer;
use slot_grid::{NEW_BUCKETS, SLOTS, TRIED_BUCKETS};
use std::alloc::{AllocError, Global};
use std::hash::BuildHasher;
use std::sync::ledger::Ledger;
use steps::Steps;

/// How many slots and buckets of the new table a group has, how many slots of the tried one, and
/// the last bucket of the new table that was counted.
#[derive(Clone, Copy)]
pub(crate) struct SlotNumbers {
    pub(crate) slots: u32,
    pub(crate) buckets: u32,
    pub(crate) tried: u32,
    last: Option<u16>,
}

impl SlotNumbers {
    ghost use Rattle.std.specs.Prelude.{◌≡◌, ◌<◌, ◌-◌, ◌^◌};
    ghost use Rattle.table_groups.specs.Visits.{is_last, no_slots, with_new, with_slot, with_tried};

    /// Returns the numbers of a group without slots.
    pub(crate) fn none() -> SlotNumbers
        ensures { result ≡ no_slots }
    {
        SlotNumbers {
            slots: 0,
            buckets: 0,
            tried: 0,
            last: None,
        }
    }

    /// Returns the numbers with one slot more, in this bucket of the new table or of the tried one.
    pub(crate) fn with_slot(self, in_new: bool, bucket: u16) -> SlotNumbers
        requires slots { self.slots < 2 ^ 32 - 1 }
        requires buckets { self.buckets < 2 ^ 32 - 1 }
        requires tried { self.tried < 2 ^ 32 - 1 }
        ensures { result ≡ with_slot in_new self bucket }
    {
        if in_new {
            self.with_new(bucket)
        } else {
            self.with_tried()
        }
    }

    /// Returns the numbers with one slot more, in this bucket of the new table.
    fn with_new(self, bucket: u16) -> SlotNumbers
        requires slots { self.slots < 2 ^ 32 - 1 }
        requires buckets { self.buckets < 2 ^ 32 - 1 }
        ensures { result ≡ with_new self bucket }
    {
        let same = self.is_last(bucket);
        SlotNumbers {
            slots: self.slots + 1,
            buckets: if same { self.buckets } else { self.buckets + 1 },
            tried: self.tried,
            last: Some(bucket),
        }
    }

    /// Returns the numbers with one slot more of the tried table.
    fn with_tried(self) -> SlotNumbers
        requires { self.tried < 2 ^ 32 - 1 }
        ensures { result ≡ with_tried self }
    {
        SlotNumbers {
            slots: self.slots,
            buckets: self.buckets,
            tried: self.tried + 1,
            last: self.last,
        }
    }

    /// Returns `true` if the bucket is the last one that was counted.
    fn is_last(self, bucket: u16) -> bool
        ensures { result ≡ is_last self.last bucket }
    {
        match self.last {
            Some(last) => last == bucket,
            None => false,
        }
    }
}

/// Returns how many buckets a table has.
pub fn bucket_count(in_new: bool) -> u16
    ensures { result ≡ bucket_count in_new }
{
    if in_new { NEW_BUCKETS } else { TRIED_BUCKETS }
}

/// Counts a slot of a bucket for the group of the source in its record, if it has one.
fn note_slot<H: BuildHasher>(
    tally: &mut Tally<'_, SlotNumbers, H>,
    placer: &Placer<'_>,
    in_new: bool,
    bucket: u16,
    rec: Option<&Rec>,
) -> Result<(), AllocError>
    requires few { AreFewSlots (2 ^ 32 - 2) (by_bytes tally.old.entries) }
    ensures { OnOk result (by_bytes tally.new.entries
        ≡ fold (noted no_slots (with_slot in_new)) (by_bytes tally.old.entries)
        (in_bucket (λ b. source_groups placer.now (option_map (λ r. r.now) rec.entry)) bucket)) }
{
    if let Some(rec) = rec {
        let group = placer.group(&rec.source);
        let numbers = value_of(tally, &group, SlotNumbers::none()).with_slot(in_new, bucket);
        put_value(tally, group, numbers)?;
    }
    Ok(())
}

/// Counts the slots of a bucket for their groups.
fn note_bucket<T: TableView, G: BuildHasher, L: Ledger>(
    tally: &mut Tally<'_, SlotNumbers, G>,
    tables: &T,
    in_new: bool,
    bucket: u16,
    steps: &mut Steps<L>,
) -> Result<(), AllocError>
    requires bucket { bucket < bucket_count in_new }
    requires few { AreFewSlots (slots_before in_new bucket) (by_bytes tally.old.entries) }
    ensures visits { OnOk result (by_bytes tally.new.entries
        ≡ fold (noted no_slots (with_slot in_new)) (by_bytes tally.old.entries)
        (in_bucket (bucket_groups (T.view tables.now) in_new) bucket)) }
    ensures few { OnOk result (AreFewSlots (slots_before in_new (bucket + 1))
        (by_bytes tally.new.entries)) }
{
    for slot in 0..SLOTS {
        let rec = tables.occupant(in_new, bucket, slot, steps);
        note_slot(tally, tables.places(), in_new, bucket, rec)?;
    }
    Ok(())
}

/// Counts the slots of a table for their groups, by rising bucket. The new table comes first.
pub(crate) fn note_table<T: TableView, G: BuildHasher, L: Ledger>(
    tally: &mut Tally<'_, SlotNumbers, G>,
    tables: &T,
    in_new: bool,
    steps: &mut Steps<L>,
) -> Result<(), AllocError>
    requires few { AreFewSlots (slots_before in_new 0) (by_bytes tally.old.entries) }
    ensures visits { OnOk result (by_bytes tally.new.entries
        ≡ fold (noted no_slots (with_slot in_new)) (by_bytes tally.old.entries)
        (visits_of (bucket_groups (T.view tables.now) in_new) 0 (bucket_count in_new))) }
    ensures few { OnOk result (AreFewSlots (slots_before in_new (bucket_count in_new))
        (by_bytes tally.new.entries)) }
{
    for bucket in 0..bucket_count(in_new) {
        note_bucket(tally, tables, in_new, bucket, steps)?;
    }
    Ok(())
}

/// Counts the slots of the new table for their groups, by rising bucket.
pub(crate) fn tally_slots<'a, T: TableView, G: BuildHasher, L: Ledger>(
    alloc: Global,
    hasher: &'a G,
    tables: &T,
    steps: &mut Steps<L>,
) -> Result<Tally<'a, SlotNumbers, G>, Memory>
    ensures visits { IfOk result (λ tally. by_bytes tally.entries ≡ slots_by (T.view tables.now)) }
    ensures few { IfOk result (λ tally. AreFewSlots NEW_SLOTS (by_bytes tally.entries)) }
{
    let mut tally = IndexMap::with_hasher(alloc, Lent::of(hasher));
    note_table(&mut tally, tables, true, steps)?;
    Ok(tally)
}

/// Returns 1 for a record, and 0 for none.
fn one_if(rec: Option<&Rec>) -> u32
    ensures is { result ≡ (if is_some (option_map (λ r. r.now) rec.entry) then 1 else 0) }
    ensures few { result ≤ 1 }
{
    match rec {
        Some(_) => 1,
        None => 0,
    }
}

/// Returns how many slots of a bucket of the new table are occupied.
fn slots_in<T: TableView, L: Ledger>(tables: &T, bucket: u16, steps: &mut Steps<L>) -> u32
    requires { bucket < NEW_BUCKETS }
    ensures count { result ≡ slots_in is_some ((T.view tables.now).new bucket) }
    ensures few { result ≤ SLOTS }
{
    let mut count = 0;
    for slot in 0..SLOTS {
        count += one_if(tables.occupant(true, bucket, slot, steps));
    }
    count
}

/// Returns how many slots of the new table are occupied.
#[tactic(auto, unfolding(crate::specs::Slots::new_slots))]
pub fn new_slots<T: TableView, L: Ledger>(tables: &T, steps: &mut Steps<L>) -> u32
    ensures count { result ≡ new_slots is_some (T.view tables.now) }
    ensures few { result ≤ NEW_SLOTS }
{
    let mut count = 0;
    for bucket in 0..NEW_BUCKETS {
        count += slots_in(tables, bucket, steps);
    }
    count
}
