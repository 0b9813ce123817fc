//! The records of each table; a peer of the new table is there once.

ghost use Rattle.std.specs.Prelude.{◌≡◌, ◌≤◌, ◌++◌, length, count_by, IfOk, OnOk};
ghost use Rattle.raw_view.specs.Listed.{new_recs, peers_of, tried_recs, with_row};
ghost use Rattle.slot_grid.specs.declared.sizes.TheConstants.{ALL_SLOTS};
ghost use Rattle.table_machine.specs.Picks.{is_wanted};

use crate::slots::rec_of;
use indexmap::IndexSet;
use net_addr::{Memory, NetSet, Peer};
use peer_rec::Rec;
use raw_read::{RawRow, RawTable};
use std::alloc::Global;

/// Adds the record of a row of the new table, unless its peer has one.
fn add_row(peers: &mut IndexSet<Peer>, recs: &mut Vec<Rec>, row: &RawRow) -> Result<(), Memory>
    requires { peers.old.keys ≡ peers_of recs.old.items }
    ensures recs { OnOk result (recs.new.items ≡ with_row recs.old.items row.now) }
    ensures peers { OnOk result (peers.new.keys ≡ peers_of recs.new.items) }
{
    let (_, is_new) = peers.insert_full(row.rec.peer)?;
    if is_new {
        recs.push(rec_of(RawTable::New, row))?;
    }
    Ok(())
}

/// Returns the records of the new table.
pub(crate) fn new_recs(alloc: Global, rows: &[RawRow]) -> Result<Vec<Rec>, Memory>
    ensures { IfOk result (λ recs. recs.items ≡ new_recs rows.now) }
{
    let mut peers = IndexSet::new(alloc);
    let mut recs = Vec::new(alloc);
    let mut rest = rows;
    while let [row, after @ ..] = rest {
        add_row(&mut peers, &mut recs, row)?;
        rest = after;
    }
    Ok(recs)
}

/// Returns the records of the tried table.
pub(crate) fn tried_recs(alloc: Global, rows: &[RawRow]) -> Result<Vec<Rec>, Memory>
    ensures { IfOk result (λ recs. recs.items ≡ tried_recs rows.now) }
{
    let mut recs = Vec::with_capacity(alloc, rows.len())?;
    for row in rows {
        recs.push(rec_of(RawTable::Tried, row))?;
    }
    Ok(recs)
}

/// Appends copies of records.
pub(crate) fn put_copies(out: &mut Vec<Rec>, recs: &[Rec]) -> Result<(), Memory>
    ensures { OnOk result (out.new.items ≡ out.old.items ++ recs.now) }
{
    for rec in recs {
        out.push(rec.copy())?;
    }
    Ok(())
}

/// Returns `true` if a record is of a network of a set.
fn is_wanted(rec: &Rec, nets: NetSet) -> bool
    ensures { result ≡ is_wanted nets rec.now }
{
    nets.has(rec.network())
}

/// Returns how many records are of networks of a set.
pub(crate) fn count_wanted(recs: &[Rec], nets: NetSet) -> u32
    requires { length recs.now ≤ ALL_SLOTS }
    ensures count { result ≡ count_by (is_wanted nets) recs.now }
{
    let mut count = 0;
    for rec in recs {
        if is_wanted(rec, nets) {
            count += 1;
        }
    }
    count
}
