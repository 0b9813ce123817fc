//! `TableParts` fills the index and the grid from a plan, which is the work of a restore.

ghost use Rattle.std.specs.Prelude.{◌≡◌, ◌+◌, ◌*◌, ◌≤◌, length, IfOk, IfErr, OnOk, None, [], ◌<◌, ◌^◌, All};
ghost use Rattle.placing.specs.Places.{IsPlaces};
ghost use Rattle.table_machine.specs.Restoring.{duplicate, restored};
ghost use Rattle.table_machine.specs.Sound.{IsSound};
ghost use Rattle.tables.specs.Duplicates.{AreFileRecs};
ghost use Rattle.table_plan.specs.Planned.{IsPlanned, settled};
ghost use Rattle.tables.specs.Restored.{ArePartsOf, IsCause};
ghost use Rattle.slot_grid.specs.declared.sizes.TheConstants.{ALL_SLOTS};
ghost use Rattle.peer_index.specs.Order.{IsOrder};
ghost use Rattle.tables.specs.Filled.{HasApart, filled};

use crate::duplicates::duplicate;
use crate::{Memory, RestoreFault};
use peer_index::{PeerIndex, PeerSet};
use peer_rec::Snapshot;
use placing::Placer;
use slot_grid::Grid;
use std::alloc::Global;
use std::hash::BuildHasher;
use std::sync::ledger::Ledger;
use steps::Steps;
use table_plan::{Draft, Plan};

/// What tables are made of: the key and the asmap, the slots, the records in their order, and the
/// number of the next record.
#[derive(Drop)]
pub(crate) struct TableParts<'a, H: BuildHasher> {
    pub(crate) placer: Placer<'a>,
    pub(crate) grid: Grid,
    pub(crate) index: PeerIndex<H>,
    pub(crate) next_number: u64,
}

/// Restores the tables of a file (`AddrManImpl::Unserialize` in addrman.cpp of Bitcoin Core),
/// unless two of its valid records have one peer.
pub(crate) fn restore<'a, H: BuildHasher + Drop, L: Ledger>(
    alloc: Global,
    snap: &Snapshot,
    placer: Placer<'a>,
    hasher: H,
    steps: &mut Steps<L>,
) -> Result<TableParts<'a, H>, RestoreFault>
    ensures sound { IfOk result (λ parts. IsSound (restored snap.now placer.entry)) }
    ensures parts { IfOk result (λ parts. ArePartsOf (restored snap.now placer.entry)
        parts.placer parts.grid parts.index parts.next_number) }
    ensures no_duplicate { IfOk result (λ parts. duplicate snap.now ≡ None) }
    ensures cause { IfErr result (IsCause snap.now) }
    ensures steps { steps.new ≤ steps.old + length snap.now.new_recs
        + 3 * length snap.now.tried_recs + 4 * length snap.now.listed + 2 * ALL_SLOTS }
{
    let mut index = empty_index(alloc, snap, hasher, steps)?;
    let plan = final_plan(alloc, snap, placer, &mut index, steps)?;
    let next_number = plan.recs.len() as u64;
    Ok(TableParts {
        placer: plan.placer,
        grid: plan.grid,
        index,
        next_number,
    })
}

/// Makes an index with no records for those of a file, unless two of its valid records have one
/// peer. The set by which that is found becomes the index.
fn empty_index<H: BuildHasher + Drop, L: Ledger>(
    alloc: Global,
    snap: &Snapshot,
    hasher: H,
    steps: &mut Steps<L>,
) -> Result<PeerIndex<H>, RestoreFault>
    ensures empty { IfOk result (λ index. index ≡ []) }
    ensures no_duplicate { IfOk result (λ index. duplicate snap.now ≡ None) }
    ensures fit { IfOk result (λ index. AreFileRecs snap.now) }
    ensures cause { IfErr result (IsCause snap.now) }
    ensures steps { steps.new
        ≤ steps.old + length snap.now.new_recs + length snap.now.tried_recs }
{
    let count = snap.new_recs().len() + snap.tried_recs().len();
    let mut peers = PeerSet::with_room(alloc, hasher, count)?;
    let found = duplicate(snap, &mut peers, steps)?;
    if let Some(at) = found {
        return Err(RestoreFault::Duplicate { index: at });
    }
    Ok(peers.into_index(alloc))
}

/// Makes the plan of a file in which no peer is repeated, and settles it. The index, which is
/// empty, gets the plan's records.
fn final_plan<'a, 's, H: BuildHasher, L: Ledger>(
    alloc: Global,
    snap: &'s Snapshot,
    placer: Placer<'a>,
    index: &mut PeerIndex<H>,
    steps: &mut Steps<L>,
) -> Result<Plan<'a, 's>, Memory>
    requires empty { index.old ≡ [] }
    requires places { IsPlaces placer }
    requires no_duplicate { duplicate snap.now ≡ None }
    requires fit { AreFileRecs snap.now }
    ensures sound { IfOk result (λ plan. IsSound (restored snap.now placer.entry)) }
    ensures parts { IfOk result (λ plan. ArePartsOf (restored snap.now placer.entry)
        plan.placer plan.grid index.new (length plan.recs.items)) }
    ensures steps { steps.new ≤ steps.old + 2 * length snap.now.tried_recs
        + 4 * length snap.now.listed + 2 * ALL_SLOTS }
{
    let mut plan = Plan::of(alloc, snap, placer, steps)?;
    settle(alloc, &mut plan, index, steps)?;
    Ok(plan)
}

/// Deletes the records of a plan that are in no bucket, fills the index with the others, and puts
/// their ids into the slots.
fn settle<H: BuildHasher, L: Ledger>(
    alloc: Global,
    plan: &mut Plan,
    index: &mut PeerIndex<H>,
    steps: &mut Steps<L>,
) -> Result<(), Memory>
    requires plan { IsPlanned plan.old }
    requires sound { IsSound (settled plan.old) }
    requires empty { index.old ≡ [] }
    ensures parts { OnOk result (ArePartsOf (settled plan.old)
        plan.new.placer plan.new.grid index.new (length plan.new.recs.items)) }
    ensures steps { steps.new ≤ steps.old + 2 * ALL_SLOTS }
{
    let order = plan.order(alloc)?;
    let numbers = order.into_numbers();
    let ids = fill(
        alloc,
        plan.recs.as_slice(),
        numbers.as_slice(),
        index,
        steps,
    )?;
    plan.grid.renumber(ids.as_slice(), steps);
    Ok(())
}

/// Makes the records of an order of numbers, where a record's number is its position in the list,
/// and adds them to an empty index. Returns their ids by number.
fn fill<H: BuildHasher, L: Ledger>(
    alloc: Global,
    recs: &[Draft],
    order: &[usize],
    index: &mut PeerIndex<H>,
    steps: &mut Steps<L>,
) -> Result<Vec<usize>, Memory>
    requires empty { index.old ≡ [] }
    requires within { All (λ n. n < length recs.now) order.now }
    requires apart { HasApart recs.now order.now }
    requires few { length order.now < 2 ^ 31 }
    ensures filled { IfOk result (λ ids. index.new ≡ filled ids.items recs.now order.now) }
    ensures order { IfOk result (λ ids. IsOrder index.new) }
    ensures steps { steps.new ≤ steps.old + length order.now }
{
    let mut ids = vec![in alloc; 0usize; recs.len()]?;
    index.reserve(order.len())?;
    for number in order {
        let id = index.add(recs[*number].to_rec(), steps)?;
        ids[*number] = id;
    }
    Ok(ids)
}
