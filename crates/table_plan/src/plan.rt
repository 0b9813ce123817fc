//! `Plan` places all records of a file, and says which are left.

ghost use Rattle.std.specs.Prelude.{◌≡◌, ◌<◌, ◌==◌, ◌||◌, length, not, true};
ghost use Rattle.net_addr.specs.Ranges.{is_valid};
ghost use Rattle.peer_rec.specs.Rec.{buckets_of};
ghost use Rattle.peer_rec.specs.declared.buckets.TheConstants.{MAX_LISTS};
ghost use Rattle.table_machine.specs.Restoring.{uses_buckets};
ghost use Rattle.slot_grid.specs.declared.sizes.TheConstants.{NEW_BUCKETS};

use crate::{Draft, Memory, NumberOrder};
use peer_rec::{Buckets, FileRec, MAX_LISTS, Place, Snapshot};
use placing::Placer;
use slot_grid::{Grid, NEW_BUCKETS};
use std::alloc::Global;
use std::sync::ledger::Ledger;
use steps::Steps;

/// Tables that are being restored, from which no record is deleted yet. The number of a record is
/// its position, and each slot has the number of the record in it. What the file has of a record is
/// read in the snapshot, and not copied.
#[derive(Drop)]
pub struct Plan<'a, 's> {
    pub placer: Placer<'a>,
    pub recs: Vec<Draft<'s>>,
    /// How many of the records, the first ones, are of the new table.
    pub news: usize,
    pub grid: Grid,
}

impl<'a, 's> Plan<'a, 's> {
    ghost use Rattle.std.specs.Prelude.{All, ◌≡◌, ◌≢◌, ℕ, ◌+◌, ◌*◌, ◌<◌, ◌≤◌, true, false, [], length, slice_get, Some, IfOk, OnOk, IsSomeAnd, Contains};
    ghost use Rattle.peer_rec.specs.Rec.{buckets_of};
    ghost use Rattle.peer_rec.specs.declared.buckets.TheConstants.{MAX_LISTS};
    ghost use Rattle.peer_rec.specs.declared.rec.Rec.{Rec};
    ghost use Rattle.table_machine.specs.State.{State, by_number, empty_state};
    ghost use Rattle.table_machine.specs.Restoring.{drop_record, give_if_empty, place_all, place_pair, with_all_new, with_all_tried, with_new, with_tried};
    ghost use Rattle.table_plan.specs.Planned.{HasSpace, IsPlanned, dropping_by, give_listed, placed, settled, state_by};

    /// Makes a plan with no records, and room for some.
    fn empty(alloc: Global, placer: Placer<'a>, room: usize) -> Result<Plan<'a, 's>, Memory>
        ensures plan { IfOk result IsPlanned }
        ensures state { IfOk result (λ p. state_by p ≡ empty_state placer.entry) }
        ensures placer { IfOk result (λ p. p.placer ≡ placer.entry) }
        ensures news { IfOk result (λ p. p.news ≡ 0) }
        ensures recs { IfOk result (λ p. p.recs.items ≡ []) }
    {
        let grid = Grid::make(alloc)?;
        let recs = Vec::with_capacity(alloc, room)?;
        Ok(Plan {
            placer,
            recs,
            news: 0,
            grid,
        })
    }

    /// Makes the plan of all records of a file. Those in no bucket are still among them.
    pub fn of<L: Ledger>(
        alloc: Global,
        snap: &'s Snapshot,
        placer: Placer<'a>,
        steps: &mut Steps<L>,
    ) -> Result<Plan<'a, 's>, Memory>
        ensures plan { IfOk result IsPlanned }
        ensures state { IfOk result (λ p. state_by p ≡ placed snap.now placer.entry) }
        ensures placer { IfOk result (λ p. p.placer ≡ placer.entry) }
        ensures news { IfOk result (λ p. p.news ≡ length snap.now.new_recs) }
        ensures buckets { IfOk result (λ p.
            All (λ pair. pair.0 < snap.now.bucket_count) snap.now.listed) }
        ensures steps { steps.new
            ≤ steps.old + 2 * length snap.now.tried_recs + 4 * length snap.now.listed }
    {
        let are_used = uses_buckets(snap, &placer);
        let (new_recs, tried_recs) = (snap.new_recs(), snap.tried_recs());
        let mut plan = Plan::empty(alloc, placer, new_recs.len() + tried_recs.len())?;
        plan.add_all_new(new_recs)?;
        plan.add_all_tried(tried_recs, steps)?;
        plan.place_all(are_used, snap.listed(), steps);
        Ok(plan)
    }

    /// Appends a record of the new table, in no bucket yet.
    fn add_new(&mut self, rec: &'s FileRec) -> Result<(), Memory>
        requires only { self.old.news ≡ length self.old.recs.items }
        requires plan { IsPlanned self.old }
        ensures plan { OnOk result (IsPlanned self.new) }
        ensures state { OnOk result (state_by self.new ≡ with_new (state_by self.old) rec.now) }
        ensures placer { self.new.placer ≡ self.old.placer }
        ensures only { OnOk result (self.new.news ≡ length self.new.recs.items) }
        ensures count { OnOk result (self.new.news ≡ self.old.news + 1) }
    {
        let number = self.recs.len() as u64;
        self.recs
            .push(Draft::of(rec, number, Place::New(Buckets::none())))?;
        self.news += 1;
        Ok(())
    }

    /// Appends a record of the tried table, unless its address is not valid or its slot is
    /// occupied.
    fn add_tried<L: Ledger>(&mut self, rec: &'s FileRec, steps: &mut Steps<L>) -> Result<(), Memory>
        requires plan { IsPlanned self.old }
        ensures plan { OnOk result (IsPlanned self.new) }
        ensures state { OnOk result (state_by self.new ≡ with_tried (state_by self.old) rec.now) }
        ensures placer { self.new.placer ≡ self.old.placer }
        ensures news { self.new.news ≡ self.old.news }
        ensures longer { length self.old.recs.items ≤ length self.new.recs.items }
        ensures steps { steps.new ≤ steps.old + 2 }
    {
        if !rec.peer.addr.is_valid() {
            return Ok(());
        }
        let bucket = self.placer.tried_bucket(&rec.peer);
        let slot = self.placer.tried_slot(&rec.peer, bucket);
        if self.grid.tried_at(bucket, slot, steps).is_some() {
            return Ok(());
        }
        let number = self.recs.len();
        self.recs.push(Draft::of(rec, number as u64, Place::Tried))?;
        self.grid.set_tried(bucket, slot, Some(number), steps);
        Ok(())
    }

    /// Appends records of the new table, one after another.
    fn add_all_new(&mut self, recs: &'s [FileRec]) -> Result<(), Memory>
        requires only { self.old.news ≡ length self.old.recs.items }
        requires plan { IsPlanned self.old }
        ensures plan { OnOk result (IsPlanned self.new) }
        ensures state { OnOk result (state_by self.new
            ≡ with_all_new (state_by self.old) recs.now) }
        ensures placer { self.new.placer ≡ self.old.placer }
        ensures count { OnOk result (self.new.news ≡ self.old.news + length recs.now) }
    {
        let mut rest = recs;
        while let [rec, after @ ..] = rest {
            self.add_new(rec)?;
            rest = after;
        }
        Ok(())
    }

    /// Appends records of the tried table, one after another.
    fn add_all_tried<L: Ledger>(
        &mut self,
        recs: &'s [FileRec],
        steps: &mut Steps<L>,
    ) -> Result<(), Memory>
        requires plan { IsPlanned self.old }
        ensures plan { OnOk result (IsPlanned self.new) }
        ensures state { OnOk result (state_by self.new
            ≡ with_all_tried (state_by self.old) recs.now) }
        ensures placer { self.new.placer ≡ self.old.placer }
        ensures news { self.new.news ≡ self.old.news }
        ensures steps { steps.new ≤ steps.old + 2 * length recs.now }
    {
        let mut rest = recs;
        while let [rec, after @ ..] = rest {
            self.add_tried(rec, steps)?;
            rest = after;
        }
        Ok(())
    }

    /// Places the records that the file's buckets list, pair by pair.
    fn place_all<L: Ledger>(&mut self, are_used: bool, listed: &[(u32, u32)], steps: &mut Steps<L>)
        requires plan { IsPlanned self.old }
        requires buckets { are_used ≡ true → All (λ pair. pair.0 < NEW_BUCKETS) listed.now }
        requires indexes { All (λ pair. pair.1 < self.old.news) listed.now }
        ensures plan { IsPlanned self.new }
        ensures state { state_by self.new ≡ place_all are_used (state_by self.old) listed.now }
        ensures placer { self.new.placer ≡ self.old.placer }
        ensures news { self.new.news ≡ self.old.news }
        ensures steps { steps.new ≤ steps.old + 4 * length listed.now }
    {
        let mut rest = listed;
        while let [pair, after @ ..] = rest {
            self.place(are_used, pair.0, pair.1, steps);
            rest = after;
        }
    }

    /// Returns the numbers of the records that are left, in their order, after new records that no
    /// bucket lists are deleted by rising number.
    pub fn order(&self, alloc: Global) -> Result<NumberOrder, Memory>
        requires plan { IsPlanned self.now }
        ensures order { IfOk result (λ order.
            dropping_by self.now self.now.news order ≡ settled self.now) }
    {
        let mut order = NumberOrder::up_to(alloc, self.recs.len())?;
        for number in 0..self.news {
            self.drop_if_unlisted(number, &mut order);
        }
        Ok(order)
    }

    /// Deletes a number from the order if no bucket lists its record.
    fn drop_if_unlisted(&self, number: usize, order: &mut NumberOrder)
        requires plan { IsPlanned self.now }
        requires number { number < length self.now.recs.items }
        requires there { Contains order.old number }
        ensures state { dropping_by self.now (number + 1) order.new
            ≡ drop_record (dropping_by self.now number order.old)
            (by_number (dropping_by self.now number order.old) number) }
        ensures others { (other : ℕ) → other ≢ number → Contains order.old other
            → Contains order.new other }
    {
        if self.recs[number].bucket_count() == 0 {
            order.delete(number);
        }
    }

    /// Gives the record at an index a bucket if the slot there is empty, and returns whether it is.
    fn give_if_empty<L: Ledger>(&mut self, index: usize, bucket: u16, steps: &mut Steps<L>) -> bool
        requires plan { IsPlanned self.old }
        requires bucket { bucket < NEW_BUCKETS }
        requires room { IsSomeAnd (slice_get self.old.recs.items index) HasSpace }
        ensures plan { IsPlanned self.new }
        ensures given { (r : Rec) (other : State) → slice_get self.old.recs.items index ≡ Some r
            → result ≡ true
            → state_by self.new ≡ give_if_empty (state_by self.old) r bucket other }
        ensures taken { (r : Rec) (other : State) → slice_get self.old.recs.items index ≡ Some r
            → result ≡ false
            → give_if_empty (state_by self.old) r bucket other ≡ other }
        ensures state { (r : Rec) → slice_get self.old.recs.items index ≡ Some r
            → state_by self.new ≡ give_if_empty (state_by self.old) r bucket (state_by self.old) }
        ensures same { result ≡ false → self.new ≡ self.old }
        ensures placer { self.new.placer ≡ self.old.placer }
        ensures news { self.new.news ≡ self.old.news }
        ensures length { length self.new.recs.items ≡ length self.old.recs.items }
        ensures steps { steps.new ≤ steps.old + 2 }
    {
        let rec = &self.recs[index];
        let slot = self.placer.new_slot(rec.peer(), bucket);
        if self.grid.new_at(bucket, slot, steps).is_some() {
            return false;
        }
        self.recs[index].give_bucket(bucket);
        self.grid.set_new(bucket, slot, Some(index), steps);
        true
    }

    /// Gives the record at an index the bucket that lists it in the file, if the buckets of the
    /// file count (`are_used`) and the slot there is empty. Returns `true` if that is so.
    fn give_listed<L: Ledger>(
        &mut self,
        are_used: bool,
        index: usize,
        bucket: u32,
        steps: &mut Steps<L>,
    ) -> bool
        requires plan { IsPlanned self.old }
        requires bucket { are_used ≡ true → bucket < NEW_BUCKETS }
        requires room { IsSomeAnd (slice_get self.old.recs.items index) HasSpace }
        ensures plan { IsPlanned self.new }
        ensures given { (r : Rec) (other : State) → slice_get self.old.recs.items index ≡ Some r
            → result ≡ true
            → state_by self.new ≡ give_listed are_used (state_by self.old) r bucket other }
        ensures taken { (r : Rec) (other : State) → slice_get self.old.recs.items index ≡ Some r
            → result ≡ false
            → give_listed are_used (state_by self.old) r bucket other ≡ other }
        ensures same { result ≡ false → self.new ≡ self.old }
        ensures placer { self.new.placer ≡ self.old.placer }
        ensures news { self.new.news ≡ self.old.news }
        ensures length { length self.new.recs.items ≡ length self.old.recs.items }
        ensures steps { steps.new ≤ steps.old + 2 }
    {
        if !are_used {
            return false;
        }
        self.give_if_empty(index, bucket as u16, steps)
    }

    /// Places the new record at an index, which a bucket of the file lists. If the file's buckets
    /// are used and its slot in that bucket is empty, it goes there, else to the bucket that its
    /// source gives it, unless its slot there is occupied.
    fn place<L: Ledger>(&mut self, are_used: bool, bucket: u32, index: u32, steps: &mut Steps<L>)
        requires plan { IsPlanned self.old }
        requires bucket { are_used ≡ true → bucket < NEW_BUCKETS }
        requires index { index < self.old.news }
        ensures plan { IsPlanned self.new }
        ensures state { state_by self.new
            ≡ place_pair are_used (state_by self.old) (bucket, index) }
        ensures placer { self.new.placer ≡ self.old.placer }
        ensures news { self.new.news ≡ self.old.news }
        ensures length { length self.new.recs.items ≡ length self.old.recs.items }
        ensures steps { steps.new ≤ steps.old + 4 }
    {
        let index = index as usize;
        let rec = &self.recs[index];
        if !is_placeable(rec) {
            return;
        }
        let (peer, source) = (*rec.peer(), *rec.source());
        if self.give_listed(are_used, index, bucket, steps) {
            return;
        }
        let own = self.placer.new_bucket(&peer, &source);
        self.give_if_empty(index, own, steps);
    }
}

/// Returns `true` if the buckets of a file are used: there are as many as in these tables, and the
/// asmap is the same.
fn uses_buckets(snap: &Snapshot, placer: &Placer) -> bool
    ensures used { result ≡ uses_buckets snap.now placer.now }
    ensures buckets { result ≡ true → snap.now.bucket_count ≡ NEW_BUCKETS }
{
    snap.bucket_count() == u32::from(NEW_BUCKETS) && snap.sum() == placer.sum()
}

/// Returns `true` if a record's address is valid and fewer than `MAX_LISTS` buckets list it.
fn is_placeable(rec: &Draft) -> bool
    ensures value { result
        ≡ not (not (is_valid rec.now.peer.addr) || length (buckets_of rec.now) == MAX_LISTS) }
    ensures room { result ≡ true → length (buckets_of rec.now) < MAX_LISTS }
{
    rec.peer().addr.is_valid() && rec.bucket_count() < MAX_LISTS
}
