//! `spread_marks` and `set_marks`: the marks of groups that spread, and those of sets of addresses.

ghost use Rattle.std.specs.Prelude.{◌≡◌, ◌≤◌, List, ℕ, length, IfOk, OnOk, option_map};
ghost use Rattle.slot_grid.specs.declared.sizes.TheConstants.{ALL_SLOTS};
ghost use Rattle.table_groups.specs.Tally.{by_bytes, value_in};
ghost use Rattle.table_picture.specs.Inside.{spread_by, with_spread};
ghost use Rattle.table_picture.specs.Slots.{rec_set, rec_spread, set_mark, slot_marks, spread_in, spread_mark};

use crate::Memory;
use crate::recoloured::rec_in;
use indexmap::IndexMap;
use net_addr::NetAddr;
use peer_rec::Rec;
use picture_text::{By, is_spread, unlisted_in};
use placing::Placer;
use risk_parts::AddrSet;
use slot_grid::ALL_SLOTS;
use std::alloc::{AllocError, Global};
use std::hash::BuildHasher;
use std::sync::ledger::Ledger;
use steps::Steps;
use table_groups::{Lent, Source, TableView, Tally, copy_of, put_value, value_of};

/// Writes the mark 8 for a group that spreads.
fn note_spread<H: BuildHasher>(
    marks: &mut Tally<'_, u8, H>,
    by: By,
    source: &Source,
) -> Result<(), AllocError>
    ensures { OnOk result (by_bytes marks.new.entries
        ≡ with_spread by (by_bytes marks.old.entries) source.now) }
{
    if is_spread(by, source) {
        return put_value(marks, copy_of(&source.group), 8);
    }
    Ok(())
}

/// Returns the groups that are not listed and spread, with the mark 8.
fn spread_in<'a, H: BuildHasher>(
    alloc: Global,
    hasher: &'a H,
    by: By,
    sources: &[Source],
) -> Result<Tally<'a, u8, H>, Memory>
    ensures { IfOk result (λ tally. (g : List ℕ) → value_in 0 (by_bytes tally.entries) g
        ≡ spread_mark (spread_in by sources.now) g) }
{
    let unlisted = unlisted_in(sources);
    let mut spread = IndexMap::with_hasher(alloc, Lent::of(hasher));
    for source in unlisted {
        note_spread(&mut spread, by, source)?;
    }
    Ok(spread)
}

/// Returns the mark of a slot with this record: 8 if its group spreads.
fn rec_spread<H: BuildHasher>(
    placer: &Placer<'_>,
    spread: &Tally<'_, u8, H>,
    rec: Option<&Rec>,
) -> u8
    ensures { result ≡ spread_by placer.now (by_bytes spread.now.entries)
        (option_map (λ r. r.now) rec.entry) }
{
    match rec {
        Some(rec) => value_of(spread, &placer.group(&rec.source), 0),
        None => 0,
    }
}

/// Returns the marks of the slots by those of some groups.
#[tactic(auto, unfolding(crate::specs::Slots::slot_marks))]
fn group_marks<T: TableView, H: BuildHasher, L: Ledger>(
    alloc: Global,
    tables: &T,
    spread: &Tally<'_, u8, H>,
    steps: &mut Steps<L>,
) -> Result<Vec<u8>, Memory>
    ensures marks { IfOk result (λ marks. marks.items ≡ slot_marks
        (spread_by (T.view tables.now).places (by_bytes spread.now.entries))
        (T.view tables.now)) }
    ensures long { IfOk result (λ marks. length marks.items ≡ ALL_SLOTS) }
{
    let mut marks = Vec::new(alloc);
    for slot in 0..ALL_SLOTS {
        let rec = rec_in(tables, slot, steps);
        marks.push(rec_spread(tables.places(), spread, rec))?;
    }
    Ok(marks)
}

/// Returns the marks of the slots: 8 for those of the groups that are not listed and spread.
pub(crate) fn spread_marks<T: TableView, H: BuildHasher, L: Ledger>(
    alloc: Global,
    hasher: &H,
    by: By,
    tables: &T,
    sources: &[Source],
    steps: &mut Steps<L>,
) -> Result<Vec<u8>, Memory>
    ensures marks { IfOk result (λ marks. marks.items ≡ slot_marks
        (rec_spread (T.view tables.now).places (spread_in by sources.now)) (T.view tables.now)) }
    ensures long { IfOk result (λ marks. length marks.items ≡ ALL_SLOTS) }
{
    let spread = spread_in(alloc, hasher, by, sources)?;
    group_marks(alloc, tables, &spread, steps)
}

/// Returns the position of the first set that has an address, counted from 1, and 7 if none has.
/// The number is that of the autonomous system that announces it.
fn set_mark(sets: &[AddrSet], addr: &NetAddr, number: u32) -> u8
    requires { length sets.now ≤ 6 }
    ensures { result ≡ set_mark 1 sets.now addr.now number }
{
    let mut rest = sets;
    let mut mark = 1;
    while let [first, after @ ..] = rest {
        if first.has(addr, number) {
            return mark;
        }
        mark += 1;
        rest = after;
    }
    7
}

/// Returns the mark of a slot with this record: that of the first set that has its peer.
fn rec_set(placer: &Placer<'_>, sets: &[AddrSet], rec: Option<&Rec>) -> u8
    requires { length sets.now ≤ 6 }
    ensures { result ≡ rec_set placer.now sets.now (option_map (λ r. r.now) rec.entry) }
{
    match rec {
        Some(rec) => set_mark(sets, &rec.peer.addr, placer.asn(&rec.peer.addr)),
        None => 0,
    }
}

/// Returns the marks of the slots: for a record whose peer is in a set the position of the first
/// such set, counted from 1, for any other record 7, and 0 for a free slot.
#[tactic(auto, unfolding(crate::specs::Slots::slot_marks))]
pub(crate) fn set_marks<T: TableView, L: Ledger>(
    alloc: Global,
    tables: &T,
    sets: &[AddrSet],
    steps: &mut Steps<L>,
) -> Result<Vec<u8>, Memory>
    requires { length sets.now ≤ 6 }
    ensures marks { IfOk result (λ marks. marks.items
        ≡ slot_marks (rec_set (T.view tables.now).places sets.now) (T.view tables.now)) }
    ensures long { IfOk result (λ marks. length marks.items ≡ ALL_SLOTS) }
{
    let mut marks = Vec::new(alloc);
    for slot in 0..ALL_SLOTS {
        let rec = rec_in(tables, slot, steps);
        marks.push(rec_set(tables.places(), sets, rec))?;
    }
    Ok(marks)
}
