//! `Recoloured`: tables that have another address instead of each source.

ghost use Rattle.std.specs.Prelude.{◌≡◌, ◌<◌, ◌+◌, ◌*◌, IfOk, option_map, slice_get, unwrap_or, None};
ghost use Rattle.slot_grid.specs.declared.sizes.TheConstants.{NEW_SLOTS, SLOTS};
ghost use Rattle.table_picture.specs.By.{rec_in, recoloured, view_by, with_slots};

use crate::Memory;
use crate::classes::address_by;
use net_addr::NetSet;
use peer_rec::{Rec, Recs};
use picture_text::By;
use placing::Placer;
use slot_grid::{ALL_SLOTS, NEW_SLOTS, SLOTS};
use std::alloc::Global;
use std::sync::ledger::Ledger;
use steps::Steps;
use table_groups::TableView;

/// Returns the record in a slot; slots are counted by rising bucket, those of the new table first.
pub(crate) fn rec_in<'a, T: TableView, L: Ledger>(
    tables: &'a T,
    slot: usize,
    steps: &mut Steps<L>,
) -> Option<&'a Rec>
    ensures { option_map (λ r. r.now) result ≡ rec_in (T.view tables.now) slot }
{
    let slots = usize::from(SLOTS);
    if slot < NEW_SLOTS {
        return tables.occupant(true, (slot / slots) as u16, (slot % slots) as u8, steps);
    }
    if slot < ALL_SLOTS {
        let slot = slot - NEW_SLOTS;
        return tables.occupant(false, (slot / slots) as u16, (slot % slots) as u8, steps);
    }
    None
}

/// Returns the record with the address that its colour goes by in the place of its source.
fn with_address(by: By, newest: u32, rec: Option<&Rec>) -> Option<Rec>
    ensures { result ≡ option_map (recoloured by newest) (option_map (λ r. r.now) rec.entry) }
{
    match rec {
        Some(rec) => {
            let mut other = rec.copy();
            other.source = address_by(by, newest, rec);
            Some(other)
        }
        None => None,
    }
}

/// The tables with the address that the colours go by in the place of each source.
#[derive(Drop)]
pub(crate) struct Recoloured<'a, T> {
    tables: &'a T,
    /// The records in the slots, by rising bucket, those of the new table first.
    slots: Vec<Option<Rec>>,
}

impl<'a, T: TableView> Recoloured<'a, T> {
    /// Returns the tables with other addresses in the place of sources. It takes two steps a slot.
    pub(crate) fn of<L: Ledger>(
        alloc: Global,
        tables: &'a T,
        by: By,
        newest: u32,
        steps: &mut Steps<L>,
    ) -> Result<Recoloured<'a, T>, Memory>
        ensures { IfOk result (λ r. with_slots (T.view r.tables.now) r.slots.items
            ≡ view_by by newest (T.view tables.now)) }
    {
        let mut slots = Vec::new(alloc);
        for slot in 0..ALL_SLOTS {
            slots.push(with_address(by, newest, rec_in(tables, slot, steps)))?;
        }
        Ok(Recoloured { tables, slots })
    }

    /// Returns the record in a slot of this number.
    fn rec_at(&self, slot: usize) -> Option<&Rec>
        ensures { option_map (λ r. r.now) result
            ≡ unwrap_or (slice_get self.now.slots.items slot) None }
    {
        match self.slots.get(slot) {
            Some(Some(rec)) => Some(rec),
            _ => None,
        }
    }
}

impl<'a, T: TableView> TableView for Recoloured<'a, T> {
    ghost view = { λ r. with_slots (T.view r.tables.now) r.slots.items };

    fn places(&self) -> &Placer<'_> {
        self.tables.places()
    }

    fn occupant<L: Ledger>(
        &self,
        in_new: bool,
        bucket: u16,
        slot: u8,
        _steps: &mut Steps<L>,
    ) -> Option<&Rec> {
        let index = usize::from(SLOTS) * usize::from(bucket) + usize::from(slot);
        if in_new {
            self.rec_at(index)
        } else {
            self.rec_at(NEW_SLOTS + index)
        }
    }

    fn records<L: Ledger>(&self, steps: &mut Steps<L>) -> Result<Recs, Memory> {
        self.tables.records(steps)
    }

    fn wanted_in(&self, nets: NetSet) -> (u32, u32) {
        self.tables.wanted_in(nets)
    }

    fn sizes(&self) -> (u32, u32) {
        self.tables.sizes()
    }
}
