//! `RawTables`, the records and slots of a listing: `occupant` and `sizes`.

ghost use Rattle.std.specs.Prelude.{◌≡◌, ◌≤◌, ◌++◌, ◌&&◌, not, count_by, if◌then◌else◌, IfOk, option_map};
ghost use Rattle.peer_rec.specs.Rec.{is_tried};
ghost use Rattle.peer_rec.specs.declared.snapshot.TheConstants.{MAX_NEW, MAX_TRIED};
ghost use Rattle.raw_view.specs.Inside.{AreRowsIn};
ghost use Rattle.raw_view.specs.Listed.{slot_in, tables_of};
ghost use Rattle.table_machine.specs.Picks.{is_wanted};

use crate::records::{count_wanted, new_recs, put_copies, tried_recs};
use crate::slots::{slot_in, slots_of};
use net_addr::{Memory, NetSet};
use peer_rec::{Rec, Recs};
use raw_read::{Raw, RawTable};
use std::alloc::Global;
use std::marker::Model;

/// The records of a listing, and the slots that they are in.
#[derive(Drop)]
pub struct RawTables {
    new_recs: Vec<Rec>,
    tried_recs: Vec<Rec>,
    new_slots: Vec<Option<Rec>>,
    tried_slots: Vec<Option<Rec>>,
}

impl Model for RawTables {
    ghost use Rattle.raw_view.specs.Inside.{AreTables};
    ghost use Rattle.raw_view.specs.Listed.{RawTables as Tables};

    ghost Value = { Tables };

    ghost view = { λ t. record {
      new_recs = t.new_recs.items;
      tried_recs = t.tried_recs.items;
      new_slots = t.new_slots.items;
      tried_slots = t.tried_slots.items;
    } };

    ghost invariant = { λ t. AreTables (record {
      new_recs = t.new_recs.items;
      tried_recs = t.tried_recs.items;
      new_slots = t.new_slots.items;
      tried_slots = t.tried_slots.items;
    }) };
}

impl RawTables {
    /// Makes the tables of a listing.
    #[tactic(auto, using(crate::proofs::Bounds::are_tables))]
    pub(crate) fn of(alloc: Global, raw: &Raw) -> Result<RawTables, Memory>
        requires { AreRowsIn raw.now }
        ensures { IfOk result (λ tables. tables ≡ tables_of raw.now) }
    {
        let new_rows = raw.new.items();
        let tried_rows = raw.tried.items();
        let new_recs = new_recs(alloc, new_rows)?;
        let tried_recs = tried_recs(alloc, tried_rows)?;
        let new_slots = slots_of(alloc, RawTable::New, new_rows)?;
        let tried_slots = slots_of(alloc, RawTable::Tried, tried_rows)?;
        Ok(RawTables {
            new_recs,
            tried_recs,
            new_slots,
            tried_slots,
        })
    }

    /// Returns the record in a slot of the new table or of the tried one.
    pub(crate) fn occupant(&self, in_new: bool, bucket: u16, slot: u8) -> Option<&Rec>
        ensures { option_map (λ r. r.now) result
            ≡ slot_in (if in_new then self.now.new_slots else self.now.tried_slots) bucket slot }
    {
        if in_new {
            slot_in(self.new_slots.as_slice(), bucket, slot)
        } else {
            slot_in(self.tried_slots.as_slice(), bucket, slot)
        }
    }

    /// Returns all records, those of the new table first.
    pub(crate) fn records(&self, alloc: Global) -> Result<Recs, Memory>
        ensures { IfOk result (λ recs. recs ≡ self.now.new_recs ++ self.now.tried_recs) }
    {
        let mut recs = Vec::new(alloc);
        put_copies(&mut recs, self.new_recs.as_slice())?;
        put_copies(&mut recs, self.tried_recs.as_slice())?;
        Ok(Recs::of(recs))
    }

    /// Returns how many records of each table are of networks of a set.
    #[tactic(auto, using(crate::proofs::Bounds::wanted_new_is, crate::proofs::Bounds::wanted_tried_is))]
    pub(crate) fn wanted_in(&self, nets: NetSet) -> (u32, u32)
        ensures new { result.0 ≡ count_by (λ r. not (is_tried r) && is_wanted nets r)
            (self.now.new_recs ++ self.now.tried_recs) }
        ensures tried { result.1 ≡ count_by (λ r. is_tried r && is_wanted nets r)
            (self.now.new_recs ++ self.now.tried_recs) }
    {
        let new = count_wanted(self.new_recs.as_slice(), nets);
        let tried = count_wanted(self.tried_recs.as_slice(), nets);
        (new, tried)
    }

    /// Returns how many records each table has.
    #[tactic(auto, using(crate::proofs::Bounds::new_size, crate::proofs::Bounds::tried_size))]
    pub(crate) fn sizes(&self) -> (u32, u32)
        ensures new { result.0
            ≡ count_by (λ r. not (is_tried r)) (self.now.new_recs ++ self.now.tried_recs) }
        ensures tried { result.1
            ≡ count_by is_tried (self.now.new_recs ++ self.now.tried_recs) }
        ensures few_new { result.0 ≤ MAX_NEW }
        ensures few_tried { result.1 ≤ MAX_TRIED }
    {
        (self.new_recs.len() as u32, self.tried_recs.len() as u32)
    }
}
