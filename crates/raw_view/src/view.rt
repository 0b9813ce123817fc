//! `RawView` and `read_view`: the listing with a placer, as a `TableView`.

ghost use Rattle.std.specs.Prelude.{◌≡◌, ◌≢◌, IfOk, IfErr, IfSome, ◌<◌, ℕ, Bool, List, option_map};
ghost use Rattle.net_addr.specs.Address.{IsAddress};
ghost use Rattle.placing.specs.Places.{Places};
ghost use Rattle.raw_read.specs.Raw.{HasRawFault, IsRaw};
ghost use Rattle.raw_read.specs.declared.raw.RawFault.TheVariants as faults;
ghost use Rattle.raw_read.specs.declared.raw.Raw.{Raw};
ghost use Rattle.raw_view.specs.Listed.{tables_of, view_by, rec_of, row_in, slot_in, slots_of, view_of};
ghost use Rattle.raw_read.specs.Rows.{AreRows, Member, slot_number};
ghost use Rattle.raw_read.specs.declared.raw.RawRow.{RawRow};
ghost use Rattle.raw_read.specs.declared.raw.RawTable.{RawTable};
ghost use Rattle.table_groups.specs.View.{occupant_at};

use crate::Memory;
use crate::raw_tables::RawTables;
use net_addr::NetSet;
use peer_rec::{Rec, Recs};
use placing::Placer;
use raw_read::{RawFault, read_raw};
use std::alloc::Global;
use std::sync::ledger::Ledger;
use steps::Steps;
use table_groups::TableView;

/// What a listing says of the tables: the records and the slots that they are in.
#[derive(Drop)]
pub struct RawView<'a> {
    alloc: Global,
    placer: Placer<'a>,
    tables: RawTables,
}

/// Reads a listing as a view, in which groups are those of the placer's asmap; its key counts for
/// nothing. An error is the first fault of the text.
#[tactic(auto, using(crate::proofs::Bounds::rows_in))]
pub fn read_view<'a>(
    alloc: Global,
    placer: Placer<'a>,
    bytes: &[u8],
) -> Result<RawView<'a>, RawFault>
    ensures found { IfOk result (λ view. (raw : Raw) × IsRaw bytes.now raw
        × (view_by view.placer view.tables ≡ view_by placer.entry (tables_of raw))) }
    ensures cause { IfErr result (λ fault. fault ≢ faults.Memory → HasRawFault bytes.now fault) }
{
    let raw = match read_raw(alloc, bytes) {
        Ok(raw) => raw,
        Err(fault) => return Err(fault),
    };
    match RawTables::of(alloc, &raw) {
        Ok(tables) => Ok(RawView {
            alloc,
            placer,
            tables,
        }),
        Err(_) => Err(RawFault::Memory),
    }
}

impl<'a> TableView for RawView<'a> {
    ghost view = { λ v. view_by v.placer v.tables };

    fn places(&self) -> &Placer<'_> {
        &self.placer
    }

    fn occupant<L: Ledger>(
        &self,
        in_new: bool,
        bucket: u16,
        slot: u8,
        _steps: &mut Steps<L>,
    ) -> Option<&Rec> {
        self.tables.occupant(in_new, bucket, slot)
    }

    fn records<L: Ledger>(&self, _steps: &mut Steps<L>) -> Result<Recs, Memory> {
        self.tables.records(self.alloc)
    }

    fn wanted_in(&self, nets: NetSet) -> (u32, u32) {
        self.tables.wanted_in(nets)
    }

    fn sizes(&self) -> (u32, u32) {
        self.tables.sizes()
    }
}

/// A slot of a table of a listing has the record of the row that names it, and none if no row does.
pub fn slots_are_named()
    ensures { (table : RawTable) (ms : List Member) (rows : List RawRow) (bucket position : ℕ) →
        AreRows table 0 ms rows → slot_in (slots_of table rows) bucket position
        ≡ option_map (rec_of table) (row_in rows (slot_number bucket position)) }
{}

/// The source and the peer of the record in a slot have addresses.
pub fn records_have_addresses()
    ensures { (places : Places) (bytes : List ℕ) (raw : Raw) → IsRaw bytes raw →
        (in_new : Bool) (bucket slot : ℕ) →
        IfSome (occupant_at (view_of places raw) in_new bucket slot)
        (λ r. IsAddress r.source × IsAddress r.peer.addr) }
{}
