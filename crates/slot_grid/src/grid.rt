//! `Grid` reads and writes slots (`new_at`, `set_tried`, ..) and keeps a mask of occupied slots for
//! each bucket.

ghost use Rattle.std.specs.Prelude.{◌≡◌, ◌≢◌, ℕ, ◌<◌, ◌≤◌, ◌+◌, ◌*◌, ◌==◌, None, Some, IfOk, All, vec_len, vec_capacity, length, set, map, get_or, slice_index_or};
ghost use Rattle.std.specs.Int.{bit_at};
ghost use Rattle.slot_grid.specs.Inside.{slots_of, AreBlocks, AreStored, IsGrown, IsKept};
ghost use Rattle.slot_grid.specs.Masks.{bit_of};
ghost use Rattle.slot_grid.specs.Slots.{renumbered};
ghost use Rattle.slot_grid.specs.declared.sizes.TheConstants.{NEW_BUCKETS, TRIED_BUCKETS, SLOTS, BUCKETS, ALL_SLOTS};

use crate::{ALL_SLOTS, BUCKETS, NEW_BUCKETS, SLOTS};
use memory::Memory;
use std::alloc::{AllocError, Global};
use std::marker::Model;
use std::sync::ledger::Ledger;
use steps::Steps;

/// The slots of the new and of the tried table: which record, by its id, is in each. An id is
/// any number. Only `make` takes memory.
#[derive(Drop)]
pub struct Grid {
    /// The ids of each bucket that had a record so far, in the order of their first records, so
    /// that a page of memory is touched only when it is needed. The id of an empty slot is ignored.
    ids: Vec<[usize; SLOTS as usize]>,
    /// For each bucket of both tables, its index in `ids`, if it has one.
    blocks: Vec<Option<u16>>,
    /// For each bucket of both tables, which of its slots are occupied: one bit a slot.
    masks: Vec<u64>,
}

impl Model for Grid {
    ghost use Rattle.std.specs.Prelude.{◌≤◌, vec_capacity};
    ghost use Rattle.slot_grid.specs.Slots.{Slots};
    ghost use Rattle.slot_grid.specs.Inside.{slots_of, AreStored};
    ghost use Rattle.slot_grid.specs.declared.sizes.TheConstants.{BUCKETS};

    ghost Value = { Slots };

    ghost view = { λ g. slots_of g.ids.items g.blocks.items g.masks.items };

    ghost invariant = { λ g. AreStored g.ids.items g.blocks.items g.masks.items
        × (BUCKETS ≤ vec_capacity g.ids) };
}

impl Grid {
    ghost use Rattle.std.specs.Prelude.{◌≡◌, ℕ, ◌<◌, ◌+◌, IfOk};
    ghost use Rattle.slot_grid.specs.Masks.{IsMask};
    ghost use Rattle.slot_grid.specs.Slots.{new_id, tried_id, renumbered, AreEmpty, SameNew, SameTried, SameOtherNew, SameOtherTried};

    /// Makes a grid whose slots are all empty.
    pub fn make(alloc: Global) -> Result<Grid, Memory>
        ensures { IfOk result AreEmpty }
    {
        let ids = Vec::with_capacity(alloc, BUCKETS)?;
        let blocks = no_blocks(alloc, BUCKETS)?;
        let masks = empty_masks(alloc, BUCKETS)?;
        Ok(Grid { ids, blocks, masks })
    }

    /// Returns the record in a slot of the new table, or `None` if it is empty.
    pub fn new_at<L: Ledger>(&self, bucket: u16, slot: u8, steps: &mut Steps<L>) -> Option<usize>
        requires bucket { bucket < NEW_BUCKETS }
        requires slot { slot < SLOTS }
        ensures id { result ≡ new_id self.now bucket slot }
        ensures steps { steps.new ≡ steps.old + 1 }
    {
        steps.tick();
        at(
            &self.ids,
            &self.blocks,
            &self.masks,
            usize::from(bucket),
            slot,
        )
    }

    /// Puts a record into a slot of the new table, or with `None` empties it.
    pub fn set_new<L: Ledger>(
        &mut self,
        bucket: u16,
        slot: u8,
        id: Option<usize>,
        steps: &mut Steps<L>,
    )
        requires bucket { bucket < NEW_BUCKETS }
        requires slot { slot < SLOTS }
        ensures written { new_id self.new bucket slot ≡ id }
        ensures others { SameOtherNew self.old self.new bucket slot }
        ensures tried { SameTried self.old self.new }
        ensures steps { steps.new ≡ steps.old + 1 }
    {
        steps.tick();
        put(
            &mut self.ids,
            &mut self.blocks,
            &mut self.masks,
            usize::from(bucket),
            slot,
            id,
        );
    }

    /// Returns the record in a slot of the tried table, or `None` if it is empty.
    pub fn tried_at<L: Ledger>(&self, bucket: u16, slot: u8, steps: &mut Steps<L>) -> Option<usize>
        requires bucket { bucket < TRIED_BUCKETS }
        requires slot { slot < SLOTS }
        ensures id { result ≡ tried_id self.now bucket slot }
        ensures steps { steps.new ≡ steps.old + 1 }
    {
        steps.tick();
        at(
            &self.ids,
            &self.blocks,
            &self.masks,
            usize::from(NEW_BUCKETS + bucket),
            slot,
        )
    }

    /// Puts a record into a slot of the tried table, or with `None` empties it.
    pub fn set_tried<L: Ledger>(
        &mut self,
        bucket: u16,
        slot: u8,
        id: Option<usize>,
        steps: &mut Steps<L>,
    )
        requires bucket { bucket < TRIED_BUCKETS }
        requires slot { slot < SLOTS }
        ensures written { tried_id self.new bucket slot ≡ id }
        ensures others { SameOtherTried self.old self.new bucket slot }
        ensures new { SameNew self.old self.new }
        ensures steps { steps.new ≡ steps.old + 1 }
    {
        steps.tick();
        put(
            &mut self.ids,
            &mut self.blocks,
            &mut self.masks,
            usize::from(NEW_BUCKETS + bucket),
            slot,
            id,
        );
    }

    /// Replaces each id by the one that `ids` has at its position. An id past the end of `ids`
    /// stays. Counts a step for each slot of either table.
    pub fn renumber<L: Ledger>(&mut self, ids: &[usize], steps: &mut Steps<L>)
        ensures new { (bucket slot : ℕ) → new_id self.new bucket slot
            ≡ renumbered ids.now (new_id self.old bucket slot) }
        ensures tried { (bucket slot : ℕ) → tried_id self.new bucket slot
            ≡ renumbered ids.now (tried_id self.old bucket slot) }
        ensures steps { steps.new ≡ steps.old + ALL_SLOTS }
    {
        renumber(&mut self.ids, &mut self.blocks, &mut self.masks, ids, steps);
    }

    /// Returns which slots of a bucket of the new table are occupied: bit `s` is set exactly when
    /// slot `s` is.
    pub fn new_mask<L: Ledger>(&self, bucket: u16, steps: &mut Steps<L>) -> u64
        requires { bucket < NEW_BUCKETS }
        ensures mask { IsMask (new_id self.now bucket) result }
        ensures steps { steps.new ≡ steps.old + 1 }
    {
        steps.tick();
        self.masks[usize::from(bucket)]
    }

    /// Returns which slots of a bucket of the tried table are occupied: bit `s` is set exactly when
    /// slot `s` is.
    pub fn tried_mask<L: Ledger>(&self, bucket: u16, steps: &mut Steps<L>) -> u64
        requires { bucket < TRIED_BUCKETS }
        ensures mask { IsMask (tried_id self.now bucket) result }
        ensures steps { steps.new ≡ steps.old + 1 }
    {
        steps.tick();
        self.masks[usize::from(NEW_BUCKETS + bucket)]
    }
}

/// Makes `count` buckets that have no block.
fn no_blocks(alloc: Global, count: usize) -> Result<Vec<Option<u16>>, AllocError>
    ensures length { IfOk result (λ v. vec_len v ≡ count) }
    ensures empty { IfOk result (λ v. All (λ block. block ≡ None) v.items) }
{
    vec![in alloc; None; count]
}

/// Makes `count` masks of empty buckets.
fn empty_masks(alloc: Global, count: usize) -> Result<Vec<u64>, AllocError>
    ensures length { IfOk result (λ v. vec_len v ≡ count) }
    ensures empty { IfOk result (λ v. All (λ mask. mask ≡ 0) v.items) }
{
    vec![in alloc; 0u64; count]
}

/// Returns the id in a slot, or `None` if it is empty.
fn at(
    ids: &[[usize; SLOTS as usize]],
    blocks: &[Option<u16>],
    masks: &[u64],
    bucket: usize,
    slot: u8,
) -> Option<usize>
    requires blocks { AreBlocks ids.now blocks.now }
    requires masks { length masks.now ≡ BUCKETS }
    requires bucket { bucket < BUCKETS }
    requires slot { slot < SLOTS }
    ensures { result
        ≡ slice_index_or (slots_of ids.now blocks.now masks.now) (SLOTS * bucket + slot) None }
{
    let block = blocks[bucket]?;
    if has_bit(masks[bucket], slot) {
        Some(ids[usize::from(block)][usize::from(slot)])
    } else {
        None
    }
}

/// Puts a record into a slot, or with `None` empties it, and sets its bit or clears it.
fn put(
    ids: &mut Vec<[usize; SLOTS as usize]>,
    blocks: &mut Vec<Option<u16>>,
    masks: &mut Vec<u64>,
    bucket: usize,
    slot: u8,
    id: Option<usize>,
)
    requires stored { AreStored ids.old.items blocks.old.items masks.old.items }
    requires room { BUCKETS ≤ vec_capacity ids.old }
    requires bucket { bucket < BUCKETS }
    requires slot { slot < SLOTS }
    ensures slots { slots_of ids.new.items blocks.new.items masks.new.items
        ≡ set (slots_of ids.old.items blocks.old.items masks.old.items) (SLOTS * bucket + slot) id }
    ensures stored { AreStored ids.new.items blocks.new.items masks.new.items }
    ensures room { vec_capacity ids.new ≡ vec_capacity ids.old }
{
    let mask = with_bit(masks[bucket], slot, id.is_some());
    keep(ids, blocks, bucket, slot, id);
    masks[bucket] = mask;
}

/// Writes the id of a slot, if it is to have one, into the block of its bucket.
fn keep(
    ids: &mut Vec<[usize; SLOTS as usize]>,
    blocks: &mut Vec<Option<u16>>,
    bucket: usize,
    slot: u8,
    id: Option<usize>,
)
    requires blocks { AreBlocks ids.old.items blocks.old.items }
    requires room { BUCKETS ≤ vec_capacity ids.old }
    requires bucket { bucket < BUCKETS }
    requires slot { slot < SLOTS }
    ensures blocks { AreBlocks ids.new.items blocks.new.items }
    ensures room { vec_capacity ids.new ≡ vec_capacity ids.old }
    ensures kept { IsKept bucket slot id
        ids.old.items blocks.old.items ids.new.items blocks.new.items }
{
    if let Some(id) = id {
        let block = block_of(ids, blocks, bucket);
        ids[block][usize::from(slot)] = id;
    }
}

/// Returns the block of a bucket. A bucket that has none gets the next one.
fn block_of(
    ids: &mut Vec<[usize; SLOTS as usize]>,
    blocks: &mut Vec<Option<u16>>,
    bucket: usize,
) -> usize
    requires blocks { AreBlocks ids.old.items blocks.old.items }
    requires room { BUCKETS ≤ vec_capacity ids.old }
    requires bucket { bucket < BUCKETS }
    ensures block { get_or blocks.new.items bucket None ≡ Some result }
    ensures blocks { AreBlocks ids.new.items blocks.new.items }
    ensures room { vec_capacity ids.new ≡ vec_capacity ids.old }
    ensures grown { IsGrown bucket
        ids.old.items blocks.old.items ids.new.items blocks.new.items }
{
    match blocks[bucket] {
        Some(block) => usize::from(block),
        None => {
            let block = ids.len();
            ids.push_reserved([0; SLOTS as usize]);
            blocks[bucket] = Some(block as u16);
            block
        }
    }
}

/// Replaces each id in the slots. Counts a step for each slot.
fn renumber<L: Ledger>(
    ids: &mut Vec<[usize; SLOTS as usize]>,
    blocks: &mut Vec<Option<u16>>,
    masks: &mut Vec<u64>,
    new_ids: &[usize],
    steps: &mut Steps<L>,
)
    requires stored { AreStored ids.old.items blocks.old.items masks.old.items }
    requires room { BUCKETS ≤ vec_capacity ids.old }
    ensures renumbered { slots_of ids.new.items blocks.new.items masks.new.items
        ≡ map (renumbered new_ids.now) (slots_of ids.old.items blocks.old.items masks.old.items) }
    ensures stored { AreStored ids.new.items blocks.new.items masks.new.items }
    ensures room { vec_capacity ids.new ≡ vec_capacity ids.old }
    ensures steps { steps.new ≡ steps.old + ALL_SLOTS }
{
    for index in 0..ALL_SLOTS {
        steps.tick();
        let bucket = index / SLOTS as usize;
        let slot = (index % SLOTS as usize) as u8;
        let id = renumbered(at(ids, blocks, masks, bucket, slot), new_ids);
        put(ids, blocks, masks, bucket, slot, id);
    }
}

/// Returns the id that replaces another.
fn renumbered(slot: Option<usize>, ids: &[usize]) -> Option<usize>
    ensures { result ≡ renumbered ids.now slot }
{
    match slot {
        Some(id) => {
            if id < ids.len() {
                Some(ids[id])
            } else {
                Some(id)
            }
        }
        None => None,
    }
}

/// Returns whether a bit of a mask is set.
fn has_bit(mask: u64, slot: u8) -> bool
    requires { slot < SLOTS }
    ensures { result ≡ (bit_at mask slot == 1) }
{
    mask >> slot & 1 == 1
}

/// Returns the mask with a bit set or cleared.
fn with_bit(mask: u64, slot: u8, is_set: bool) -> u64
    requires { slot < SLOTS }
    ensures bit { bit_at result slot ≡ bit_of is_set }
    ensures others { (i : ℕ) → i < SLOTS → i ≢ slot → bit_at result i ≡ bit_at mask i }
{
    if is_set {
        mask | 1 << slot
    } else {
        mask & !(1 << slot)
    }
}
