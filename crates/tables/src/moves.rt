//! `good` and the moves between the new and the tried table (`MakeTried`, `ClearNew`), also back
//! into the new table.

ghost use Rattle.slot_grid.specs.declared.sizes.TheConstants.{NEW_BUCKETS, TRIED_BUCKETS, SLOTS};

use crate::Store;
use net_addr::Peer;
use peer_rec::{Buckets, Good, Place, Rec};
use std::hash::BuildHasher;
use std::sync::ledger::Ledger;
use steps::Steps;
use table_plan::{after_success, first_bucket};

impl<'a, H: BuildHasher> Store<'a, H> {
    ghost use Rattle.std.specs.Prelude.{◌≡◌, ◌∷◌, ◌<◌, [], None, Some, IsSome, IsSomeAnd, slice_get, ◌+◌, ◌≤◌};
    ghost use Rattle.placing.specs.Places.{new_slot};
    ghost use Rattle.peer_rec.specs.Rec.{buckets_of};
    ghost use Rattle.peer_rec.specs.declared.rec.Rec.{Rec};
    ghost use Rattle.peer_rec.specs.declared.place.Place.TheVariants.{New, Tried};
    ghost use Rattle.slot_grid.specs.Slots.{new_id, tried_id};
    ghost use Rattle.peer_index.specs.Order.{SameOthers, rec_of};
    ghost use Rattle.table_machine.specs.State.{new_rec_at, tried_rec_at, outcome};
    ghost use Rattle.table_machine.specs.Sound.{IsSound};
    ghost use Rattle.table_machine.specs.Entries.{with_record};
    ghost use Rattle.table_machine.specs.Tried.{back_to_new, clear_new, displace, move_to_tried, good, good_by};
    ghost use Rattle.tables.specs.Inside.{IsStore, SameRest, SameBare, SameUnlisted, state_of};
    ghost use Rattle.tables.specs.Inside.{CanTry, IsMovable, IsOwnTried, AreWaiters};

    /// Records that a peer was reached, at a time in seconds since 1970. With `testing`, an
    /// occupant of its tried slot is to be tested before it has to leave (`AddrManImpl::Good_` in
    /// addrman.cpp of Bitcoin Core).
    pub(crate) fn good<L: Ledger>(
        &mut self,
        peer: &Peer,
        testing: bool,
        now: u32,
        steps: &mut Steps<L>,
    ) -> Good
        requires stored { IsStore self.old }
        requires sound { IsSound (state_of self.old) }
        requires waiters { AreWaiters (state_of self.old) self.old.waiters.items }
        ensures stored { IsStore self.new }
        ensures outcome { outcome result (state_of self.new)
            ≡ good (state_of self.old) now peer.now testing }
        ensures waiters { AreWaiters (state_of self.new) self.new.waiters.items }
        ensures placer { self.new.placer ≡ self.old.placer }
        ensures steps { steps.new ≤ steps.old + 37 }
    {
        self.last_good = now;
        match self.index.find(peer, steps) {
            Some(id) => self.good_known(id, testing, now, steps),
            None => Good::Unknown,
        }
    }

    /// Does the same for a peer that has a record.
    fn good_known<L: Ledger>(
        &mut self,
        id: usize,
        testing: bool,
        now: u32,
        steps: &mut Steps<L>,
    ) -> Good
        requires stored { IsStore self.old }
        requires sound { IsSound (state_of self.old) }
        requires waiters { AreWaiters (state_of self.old) self.old.waiters.items }
        requires live { IsSome (rec_of self.old.index id) }
        ensures stored { IsStore self.new }
        ensures outcome { (r : Rec) → rec_of self.old.index id ≡ Some r
            → outcome result (state_of self.new)
            ≡ good_by (Some r) (state_of self.old) now testing }
        ensures waiters { AreWaiters (state_of self.new) self.new.waiters.items }
        ensures placer { self.new.placer ≡ self.old.placer }
        ensures steps { steps.new ≤ steps.old + 36 }
    {
        let rec = after_success(self.index.get(id, steps), now);
        let peer = rec.peer;
        let is_tried = rec.place.is_tried();
        self.change(id, rec, steps);
        if is_tried {
            return Good::Already;
        }
        let bucket = self.placer.tried_bucket(&peer);
        let slot = self.placer.tried_slot(&peer, bucket);
        if testing && self.grid.tried_at(bucket, slot, steps).is_some() {
            self.wait(id, steps);
            return Good::Clash;
        }
        self.move_to_tried(id, bucket, slot, steps);
        Good::Moved
    }

    /// Moves a record of the new table to its slot of the tried table (`AddrManImpl::MakeTried`).
    fn move_to_tried<L: Ledger>(&mut self, id: usize, bucket: u16, slot: u8, steps: &mut Steps<L>)
        requires stored { IsStore self.old }
        requires movable { IsSomeAnd (rec_of self.old.index id) IsMovable }
        requires own { IsSomeAnd (rec_of self.old.index id)
            (λ r. IsOwnTried self.old.placer bucket slot r.peer) }
        requires bucket { bucket < TRIED_BUCKETS }
        requires slot { slot < SLOTS }
        ensures stored { IsStore self.new }
        ensures state { (r : Rec) → rec_of self.old.index id ≡ Some r
            → state_of self.new ≡ move_to_tried (state_of self.old) r }
        ensures rest { SameRest self.old self.new }
        ensures steps { steps.new ≤ steps.old + 33 }
    {
        self.leave_buckets(id, steps);
        self.displace(bucket, slot, steps);
        self.take_tried(id, bucket, slot, steps);
    }

    /// Takes a record out of all its buckets of the new table.
    fn leave_buckets<L: Ledger>(&mut self, id: usize, steps: &mut Steps<L>)
        requires stored { IsStore self.old }
        requires movable { IsSomeAnd (rec_of self.old.index id) IsMovable }
        ensures stored { IsStore self.new }
        ensures state { (r : Rec) → rec_of self.old.index id ≡ Some r
            → state_of self.new ≡ with_record (state_of self.old) (record r { place = New [] }) }
        ensures left { (r : Rec) → rec_of self.old.index id ≡ Some r
            → rec_of self.new.index id ≡ Some (record r { place = New [] }) }
        ensures rest { SameRest self.old self.new }
        ensures steps { steps.new ≤ steps.old + 17 }
    {
        let mut left = self.index.get(id, steps).copy();
        while let Some(bucket) = first_bucket(&left) {
            let slot = self.placer.new_slot(&left.peer, bucket);
            self.leave_slot(id, &left, bucket, slot, steps);
            left = left.without_bucket(bucket);
        }
    }

    /// Empties a slot of the tried table. Its occupant goes back to the new table.
    fn displace<L: Ledger>(&mut self, bucket: u16, slot: u8, steps: &mut Steps<L>)
        requires stored { IsStore self.old }
        requires bucket { bucket < TRIED_BUCKETS }
        requires slot { slot < SLOTS }
        ensures stored { IsStore self.new }
        ensures state { state_of self.new
            ≡ displace (state_of self.old) (tried_rec_at (state_of self.old) bucket slot) }
        ensures empty { tried_id self.new.grid bucket slot ≡ None }
        ensures bare { SameBare self.old.index self.new.index }
        ensures rest { SameRest self.old self.new }
        ensures steps { steps.new ≤ steps.old + 13 }
    {
        if let Some(occupant) = self.grid.tried_at(bucket, slot, steps) {
            self.back_to_new(occupant, bucket, slot, steps);
        }
    }

    /// Moves the occupant of a slot of the tried table back to the new table, to the bucket of its
    /// own source.
    fn back_to_new<L: Ledger>(
        &mut self,
        id: usize,
        tried_bucket: u16,
        tried_slot: u8,
        steps: &mut Steps<L>,
    )
        requires stored { IsStore self.old }
        requires tried_bucket { tried_bucket < TRIED_BUCKETS }
        requires tried_slot { tried_slot < SLOTS }
        requires at { tried_id self.old.grid tried_bucket tried_slot ≡ Some id }
        ensures stored { IsStore self.new }
        ensures state { (r : Rec) → rec_of self.old.index id ≡ Some r
            → state_of self.new ≡ back_to_new (state_of self.old) r }
        ensures empty { tried_id self.new.grid tried_bucket tried_slot ≡ None }
        ensures bare { SameBare self.old.index self.new.index }
        ensures rest { SameRest self.old self.new }
        ensures steps { steps.new ≤ steps.old + 12 }
    {
        let rec = self.index.get(id, steps);
        let (peer, source) = (rec.peer, rec.source);
        let bucket = self.placer.new_bucket(&peer, &source);
        let slot = self.placer.new_slot(&peer, bucket);
        self.clear_new(bucket, slot, steps);
        self.leave_tried(id, tried_bucket, tried_slot, bucket, slot, steps);
    }

    /// Empties a slot of the new table if it has an occupant (`AddrManImpl::ClearNew`).
    fn clear_new<L: Ledger>(&mut self, bucket: u16, slot: u8, steps: &mut Steps<L>)
        requires stored { IsStore self.old }
        requires bucket { bucket < NEW_BUCKETS }
        requires slot { slot < SLOTS }
        ensures stored { IsStore self.new }
        ensures state { state_of self.new
            ≡ clear_new (state_of self.old) bucket (new_rec_at (state_of self.old) bucket slot) }
        ensures empty { new_id self.new.grid bucket slot ≡ None }
        ensures unlisted { SameUnlisted self.old.index self.new.index }
        ensures rest { SameRest self.old self.new }
        ensures steps { steps.new ≤ steps.old + 7 }
    {
        if let Some(occupant) = self.grid.new_at(bucket, slot, steps) {
            self.clear_slot(occupant, bucket, slot, steps);
        }
    }

    /// Moves the record of a slot of the tried table to an empty slot of the new one, which is its
    /// peer's there.
    fn leave_tried<L: Ledger>(
        &mut self,
        id: usize,
        tried_bucket: u16,
        tried_slot: u8,
        bucket: u16,
        slot: u8,
        steps: &mut Steps<L>,
    )
        requires stored { IsStore self.old }
        requires tried_bucket { tried_bucket < TRIED_BUCKETS }
        requires tried_slot { tried_slot < SLOTS }
        requires at { tried_id self.old.grid tried_bucket tried_slot ≡ Some id }
        requires bucket { bucket < NEW_BUCKETS }
        requires slot { slot < SLOTS }
        requires empty { new_id self.old.grid bucket slot ≡ None }
        requires own { IsSomeAnd (rec_of self.old.index id)
            (λ r. new_slot self.old.placer r.peer bucket ≡ slot) }
        ensures stored { IsStore self.new }
        ensures state { (r : Rec) → rec_of self.old.index id ≡ Some r
            → state_of self.new
            ≡ with_record (state_of self.old) (record r { place = New (bucket ∷ []) }) }
        ensures others { SameOthers self.old.index self.new.index id }
        ensures empty { tried_id self.new.grid tried_bucket tried_slot ≡ None }
        ensures rest { SameRest self.old self.new }
        ensures steps { steps.new ≤ steps.old + 4 }
    {
        let rec = Rec {
            place: Place::New(Buckets::one(bucket)),
            ..self.index.get(id, steps).copy()
        };
        self.index.set(id, rec, steps);
        self.grid.set_tried(tried_bucket, tried_slot, None, steps);
        self.grid.set_new(bucket, slot, Some(id), steps);
    }

    /// Puts a record that is in no bucket into an empty slot of the tried table, which is its
    /// peer's.
    fn take_tried<L: Ledger>(&mut self, id: usize, bucket: u16, slot: u8, steps: &mut Steps<L>)
        requires stored { IsStore self.old }
        requires bucket { bucket < TRIED_BUCKETS }
        requires slot { slot < SLOTS }
        requires empty { tried_id self.old.grid bucket slot ≡ None }
        requires can { IsSomeAnd (rec_of self.old.index id) (CanTry self.old.placer bucket slot) }
        ensures stored { IsStore self.new }
        ensures state { (r : Rec) → rec_of self.old.index id ≡ Some r
            → state_of self.new ≡ with_record (state_of self.old) (record r { place = Tried }) }
        ensures rest { SameRest self.old self.new }
        ensures steps { steps.new ≤ steps.old + 3 }
    {
        let rec = Rec {
            place: Place::Tried,
            ..self.index.get(id, steps).copy()
        };
        self.index.set(id, rec, steps);
        self.grid.set_tried(bucket, slot, Some(id), steps);
    }
}
