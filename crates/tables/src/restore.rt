//! `Tables::restore`, the public call over `parts.rt`.

use crate::parts::restore;
use crate::{RestoreFault, Store, Tables};
use arrayvec::ArrayVec;
use peer_rec::Snapshot;
use placing::Placer;
use std::alloc::Global;
use std::hash::BuildHasher;
use std::sync::ledger::Ledger;
use steps::Steps;
use table_plan::Reach;

impl<'a, H: BuildHasher + Drop> Tables<'a, H> {
    ghost use Rattle.std.specs.Prelude.{◌≡◌, ◌+◌, ◌*◌, ◌≤◌, length, IfOk, IfErr, None};
    ghost use Rattle.table_machine.specs.Restoring.{duplicate, restored};
    ghost use Rattle.table_machine.specs.Sound.{IsSound};
    ghost use Rattle.tables.specs.Restored.{IsCause};
    ghost use Rattle.slot_grid.specs.declared.sizes.TheConstants.{ALL_SLOTS};

    /// Makes the tables that a file of peers keeps, by a placer with the key of the file. Tables
    /// with another asmap place the records anew. `Duplicate` is returned if two valid records have
    /// one peer (`AddrManImpl::Unserialize` in addrman.cpp of Bitcoin Core).
    pub fn restore<L: Ledger>(
        alloc: Global,
        snap: &Snapshot,
        placer: Placer<'a>,
        hasher: H,
        steps: &mut Steps<L>,
    ) -> Result<Tables<'a, H>, RestoreFault>
        requires key { placer.key ≡ snap.now.key }
        ensures state { IfOk result (λ t. t ≡ restored snap.now placer.entry) }
        ensures sound { IfOk result IsSound }
        ensures no_duplicate { IfOk result (λ t. duplicate snap.now ≡ None) }
        ensures cause { IfErr result (IsCause snap.now) }
        ensures steps { steps.new ≤ steps.old + length snap.now.new_recs
            + 3 * length snap.now.tried_recs + 4 * length snap.now.listed + 2 * ALL_SLOTS }
    {
        let parts = restore(alloc, snap, placer, hasher, steps)?;
        let store = Store {
            alloc,
            placer: parts.placer,
            grid: parts.grid,
            index: parts.index,
            clashes: ArrayVec::new(),
            waiters: ArrayVec::new(),
            last_good: 1,
            next_number: parts.next_number,
        };
        Ok(Tables {
            store,
            reach: Reach::none(),
        })
    }
}
