//! What a save gathers: the records by rising number, and the pairs of the buckets.

ghost use Rattle.std.specs.Prelude.{◌≡◌, ◌<◌, ◌≤◌, ◌++◌, ◌^◌, [], All, IfOk, OnOk, Some, false, length, map, set, slice_get, true, vec_len};
ghost use Rattle.peer_rec.specs.Rec.{is_tried};
ghost use Rattle.table_machine.specs.Snapshot.{file_rec};
ghost use Rattle.tables.specs.Saving.{new_part, tried_part};
ghost use Rattle.slot_grid.specs.declared.sizes.TheConstants.{NEW_BUCKETS, SLOTS};

use crate::{Memory, Store};
use peer_rec::{FileRec, Rec};
use slot_grid::{NEW_BUCKETS, SLOTS};
use std::alloc::Global;
use std::hash::BuildHasher;
use std::sync::ledger::Ledger;
use steps::Steps;

/// Returns what a file has of a record.
fn file_rec(rec: &Rec) -> FileRec
    ensures { result ≡ file_rec rec.now }
{
    FileRec {
        peer: rec.peer,
        source: rec.source,
        time: rec.time,
        services: rec.services,
        last_success: rec.last_success,
        attempts: rec.attempts,
    }
}

/// Returns the larger of two ids.
fn larger(first: usize, second: usize) -> usize
    ensures first { first ≤ result }
    ensures second { second ≤ result }
{
    if first < second { second } else { first }
}

/// Returns a length that each of the ids is below. `Memory` is returned if there is none, which is
/// more than any memory has room for.
fn past_ids(ids: &[usize]) -> Result<usize, Memory>
    ensures { IfOk result (λ past. All (λ id. id < past) ids.now) }
{
    let mut last = 0;
    for id in ids {
        last = larger(last, *id);
    }
    if last == usize::MAX {
        return Err(Memory);
    }
    Ok(last + 1)
}

/// Returns the index of the record with this id.
fn index_at(indexes: &[u32], id: usize) -> u32
    requires { id < length indexes.now }
    ensures { slice_get indexes.now id ≡ Some result }
{
    indexes[id]
}

/// What a save writes of the records, which are gathered by rising number.
#[derive(Drop)]
pub(crate) struct Gathered {
    pub(crate) new_recs: Vec<FileRec>,
    pub(crate) tried_recs: Vec<FileRec>,
    /// By id, the index of each record of the new table among these.
    pub(crate) indexes: Vec<u32>,
}

impl Gathered {
    /// Makes room for `count` records of the new table, and for ids below `past`.
    fn none(alloc: Global, count: usize, past: usize) -> Result<Gathered, Memory>
        ensures new { IfOk result (λ g. g.new_recs.items ≡ []) }
        ensures tried { IfOk result (λ g. g.tried_recs.items ≡ []) }
        ensures indexes { IfOk result (λ g. vec_len g.indexes ≡ past) }
    {
        let indexes = vec![in alloc; 0u32; past]?;
        let new_recs = Vec::with_capacity(alloc, count)?;
        Ok(Gathered {
            new_recs,
            tried_recs: Vec::new(alloc),
            indexes,
        })
    }

    /// Adds a record with this id.
    fn add(&mut self, id: usize, rec: &Rec) -> Result<(), Memory>
        requires id { id < vec_len self.old.indexes }
        requires few { vec_len self.old.new_recs < 2 ^ 32 }
        ensures new { OnOk result (self.new.new_recs.items
            ≡ self.old.new_recs.items ++ new_part rec.now) }
        ensures tried { OnOk result (self.new.tried_recs.items
            ≡ self.old.tried_recs.items ++ tried_part rec.now) }
        ensures indexes { is_tried rec.now ≡ false → self.new.indexes.items
            ≡ set self.old.indexes.items id (length self.old.new_recs.items) }
        ensures same { is_tried rec.now ≡ true → self.new.indexes ≡ self.old.indexes }
        ensures size { vec_len self.new.indexes ≡ vec_len self.old.indexes }
    {
        if rec.place.is_tried() {
            self.tried_recs.push(file_rec(rec))?;
        } else {
            self.indexes[id] = self.new_recs.len() as u32;
            self.new_recs.push(file_rec(rec))?;
        }
        Ok(())
    }
}

impl<'a, H: BuildHasher> Store<'a, H> {
    ghost use Rattle.std.specs.Prelude.{◌≡◌, ◌+◌, ◌*◌, ◌<◌, ◌≤◌, ◌++◌, ◌^◌, [], All, IfOk, OnOk, length, map, vec_len};
    ghost use Rattle.table_machine.specs.Sound.{IsSound};
    ghost use Rattle.table_machine.specs.Snapshot.{file_rec, listed_in, listed_of, new_records, pair_at, tried_records};
    ghost use Rattle.tables.specs.Inside.{IsStore, state_of};
    ghost use Rattle.tables.specs.Saving.{AreIndexes, LeadTo};

    /// Adds the records that the ids lead to.
    fn gather<L: Ledger>(
        &self,
        ids: &[usize],
        gathered: &mut Gathered,
        steps: &mut Steps<L>,
    ) -> Result<(), Memory>
        requires stored { IsStore self.now }
        requires sound { IsSound (state_of self.now) }
        requires lead { LeadTo self.now.index (state_of self.now).records ids.now }
        requires below { All (λ id. id < vec_len gathered.old.indexes) ids.now }
        requires new { gathered.old.new_recs.items ≡ [] }
        requires tried { gathered.old.tried_recs.items ≡ [] }
        ensures new { OnOk result (gathered.new.new_recs.items
            ≡ map file_rec (new_records (state_of self.now))) }
        ensures tried { OnOk result (gathered.new.tried_recs.items
            ≡ map file_rec (tried_records (state_of self.now))) }
        ensures indexes { OnOk result
            (AreIndexes self.now.index (state_of self.now) gathered.new.indexes.items) }
        ensures steps { steps.new ≤ steps.old + length ids.now }
    {
        for id in ids {
            gathered.add(*id, self.index.get(*id, steps))?;
        }
        Ok(())
    }

    /// Returns what a save writes of the records.
    pub(crate) fn gathered<L: Ledger>(&self, steps: &mut Steps<L>) -> Result<Gathered, Memory>
        requires stored { IsStore self.now }
        requires sound { IsSound (state_of self.now) }
        ensures new { IfOk result (λ g.
            g.new_recs.items ≡ map file_rec (new_records (state_of self.now))) }
        ensures tried { IfOk result (λ g.
            g.tried_recs.items ≡ map file_rec (tried_records (state_of self.now))) }
        ensures indexes { IfOk result (λ g.
            AreIndexes self.now.index (state_of self.now) g.indexes.items) }
        ensures steps { steps.new ≤ steps.old + 3 * length self.now.index }
    {
        let ids = self.by_number(steps)?;
        let past = past_ids(ids.as_slice())?;
        let mut gathered = Gathered::none(self.alloc, ids.len(), past)?;
        self.gather(ids.as_slice(), &mut gathered, steps)?;
        Ok(gathered)
    }

    /// Appends a bucket and the index of the record in one of its slots, by the indexes of the
    /// records of the new table. Appends nothing if the slot is empty.
    fn add_slot<L: Ledger>(
        &self,
        bucket: u16,
        slot: u8,
        indexes: &[u32],
        listed: &mut Vec<(u32, u32)>,
        steps: &mut Steps<L>,
    ) -> Result<(), Memory>
        requires stored { IsStore self.now }
        requires bucket { bucket < NEW_BUCKETS }
        requires slot { slot < SLOTS }
        requires indexes { AreIndexes self.now.index (state_of self.now) indexes.now }
        ensures added { OnOk result (listed.new.items
            ≡ listed.old.items ++ pair_at (state_of self.now) bucket slot) }
        ensures steps { steps.new ≤ steps.old + 1 }
    {
        match self.grid.new_at(bucket, slot, steps) {
            Some(id) => {
                let index = index_at(indexes, id);
                listed.push((u32::from(bucket), index))?;
                Ok(())
            }
            None => Ok(()),
        }
    }

    /// Appends what a bucket of the new table lists, by rising slot.
    fn add_bucket<L: Ledger>(
        &self,
        bucket: u16,
        indexes: &[u32],
        listed: &mut Vec<(u32, u32)>,
        steps: &mut Steps<L>,
    ) -> Result<(), Memory>
        requires stored { IsStore self.now }
        requires bucket { bucket < NEW_BUCKETS }
        requires indexes { AreIndexes self.now.index (state_of self.now) indexes.now }
        ensures added { OnOk result (listed.new.items
            ≡ listed.old.items ++ listed_in (state_of self.now) bucket) }
        ensures steps { steps.new ≤ steps.old + SLOTS }
    {
        'slots: for slot in 0..SLOTS {
            self.add_slot(bucket, slot, indexes, listed, steps)?;
        }
        Ok(())
    }

    /// Returns what each bucket of the new table lists, by rising slot: the bucket, and the index
    /// of the record among those of the new table.
    pub(crate) fn listed<L: Ledger>(
        &self,
        indexes: &[u32],
        steps: &mut Steps<L>,
    ) -> Result<Vec<(u32, u32)>, Memory>
        requires stored { IsStore self.now }
        requires indexes { AreIndexes self.now.index (state_of self.now) indexes.now }
        ensures found { IfOk result (λ v. v.items ≡ listed_of (state_of self.now)) }
        ensures steps { steps.new ≤ steps.old + NEW_BUCKETS * SLOTS }
    {
        let mut listed = Vec::with_capacity(self.alloc, indexes.len())?;
        'buckets: for bucket in 0..NEW_BUCKETS {
            self.add_bucket(bucket, indexes, &mut listed, steps)?;
        }
        Ok(listed)
    }
}
