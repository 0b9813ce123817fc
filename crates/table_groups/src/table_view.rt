//! The trait `TableView`: the records and slots of tables or of a listing.

ghost use Rattle.std.specs.Prelude.{◌≡◌, ◌≤◌, ◌<◌, IfOk, count_by, not, option_map};
ghost use Rattle.peer_rec.specs.Rec.{is_tried};
ghost use Rattle.peer_rec.specs.declared.snapshot.TheConstants.{MAX_NEW, MAX_TRIED};
ghost use Rattle.slot_grid.specs.declared.sizes.TheConstants.{SLOTS};
ghost use Rattle.table_groups.specs.View.{View, occupant_at, view_of, wanted_new, wanted_tried};
ghost use Rattle.table_machine.specs.Picks.{bucket_count};

use crate::Memory;
use net_addr::NetSet;
use peer_rec::{Rec, Recs};
use placing::Placer;
use std::hash::BuildHasher;
use std::sync::ledger::Ledger;
use steps::Steps;
use tables::Tables;

/// What pictures and counts are made from: the records of both tables, and the slots that they are
/// in.
pub trait TableView {
    /// The records and their slots.
    ghost view: { Self → View };

    /// Returns what computes the groups of addresses.
    fn places(&self) -> &Placer<'_>
        ensures { result.now ≡ (view self.now).places };

    /// Returns the record in a slot of the new table or of the tried one, or `None` if the slot is
    /// empty.
    fn occupant<L: Ledger>(
        &self,
        in_new: bool,
        bucket: u16,
        slot: u8,
        steps: &mut Steps<L>,
    ) -> Option<&Rec>
        requires bucket { bucket < bucket_count in_new }
        requires slot { slot < SLOTS }
        ensures { option_map (λ r. r.now) result
            ≡ occupant_at (view self.now) in_new bucket slot };

    /// Returns all records in their order.
    fn records<L: Ledger>(&self, steps: &mut Steps<L>) -> Result<Recs, Memory>
        ensures { IfOk result (λ recs. recs ≡ (view self.now).records) };

    /// Returns how many records of the new and of the tried table are of networks of a set. A
    /// record whose address is not routable counts for `Net::Unroutable`.
    fn wanted_in(&self, nets: NetSet) -> (u32, u32)
        ensures new { result.0 ≡ wanted_new (view self.now) nets }
        ensures tried { result.1 ≡ wanted_tried (view self.now) nets };

    /// Returns how many records are in the new and in the tried table.
    fn sizes(&self) -> (u32, u32)
        ensures new { result.0 ≡ count_by (λ r. not (is_tried r)) (view self.now).records }
        ensures tried { result.1 ≡ count_by is_tried (view self.now).records }
        ensures few_new { result.0 ≤ MAX_NEW }
        ensures few_tried { result.1 ≤ MAX_TRIED };
}

impl<'a, H: BuildHasher> TableView for Tables<'a, H> {
    ghost view = { view_of };

    fn places(&self) -> &Placer<'_> {
        self.placer()
    }

    fn occupant<L: Ledger>(
        &self,
        in_new: bool,
        bucket: u16,
        slot: u8,
        steps: &mut Steps<L>,
    ) -> Option<&Rec> {
        if in_new {
            self.new_rec_at(bucket, slot, steps)
        } else {
            self.tried_rec_at(bucket, slot, steps)
        }
    }

    fn records<L: Ledger>(&self, steps: &mut Steps<L>) -> Result<Recs, Memory> {
        match self.recs(steps) {
            Ok(recs) => Ok(recs),
            Err(_) => Err(Memory),
        }
    }

    fn wanted_in(&self, nets: NetSet) -> (u32, u32) {
        self.wanted(nets)
    }

    fn sizes(&self) -> (u32, u32) {
        let counts = self.counts();
        (counts.new_count, counts.tried_count)
    }
}
