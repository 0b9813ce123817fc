//! `Row` and `rows_in_order`: the groups with their parts, most picks first.

ghost use Rattle.std.specs.Prelude.{◌≡◌, ◌≤◌, ◌<◌, ◌^◌, ℕ, List, IfOk, map};
ghost use Rattle.indexmap.specs.IndexMap.{keys};
ghost use Rattle.std.specs.List.Sorted.{IsPermutation, IsSortedBy};
ghost use Rattle.table_risk.specs.Inside.{FitsSide, is_none, row_in, side_by, side_share, side_value, whole_in};
ghost use Rattle.table_risk.specs.Rows.{comes_before, rank_cmp, rows_of, wanted_in};
ghost use Rattle.table_groups.specs.Tally.{by_bytes, value_in};

use crate::classes::{Class, Search, classes_of};
use crate::firsts::find_firsts;
use crate::occupants::occupants_of;
use crate::shares::share;
use crate::{By, Memory};
use net_addr::NetSet;
use peer_rec::Rec;
use risk_parts::{AHEAD, WHOLE, millionths};
use std::alloc::{AllocError, Global};
use std::cmp::Ordering;
use std::hash::BuildHasher;
use std::sync::ledger::Ledger;
use steps::Steps;
use table_groups::{Group, TableView, Tally, copy_of, value_of};

/// A group, the index of its first record, and which part falls to it, at most, of the picks from
/// both tables, of those from the new table only, and of a search of the tried table, in parts of a
/// million.
#[derive(Drop)]
pub struct Row {
    pub group: Group,
    pub first: usize,
    pub picks: u32,
    pub new: u32,
    pub tried: u32,
}

/// One table: how many starts lead to records of each chance, how many records it has, and how many
/// of its slots have one.
#[derive(Drop)]
pub(crate) struct Side<'a, H: BuildHasher> {
    classes: Vec<Class<'a, H>>,
    wanted: u32,
    slots: usize,
}

/// Returns `true` if the side's table has no record, or none in a slot.
fn is_none<H: BuildHasher>(side: &Side<'_, H>) -> bool
    ensures { result ≡ is_none (side_value side.now) }
{
    side.wanted == 0 || side.slots == 0
}

/// Returns how many of 2^64 searches of a table end at records of a group, at most. Without
/// records none do.
pub(crate) fn share_in<H: BuildHasher>(side: &Side<'_, H>, group: &Group) -> u128
    requires { FitsSide (side_value side.now) group.now.items }
    ensures is { result ≡ side_share (side_value side.now) group.now.items }
    ensures few { result ≤ 2 ^ 64 }
{
    if is_none(side) {
        return 0;
    }
    let share = share(side.classes.as_slice(), group, AHEAD);
    if share < WHOLE { share } else { WHOLE }
}

/// Returns how many picks the shares of a group are parts of. With records in both tables, half of
/// the picks come from each.
pub(crate) fn whole_in<H: BuildHasher>(new: &Side<'_, H>, tried: &Side<'_, H>) -> u128
    ensures is { result ≡ whole_in (side_value new.now) (side_value tried.now) }
    ensures some { 0 < result }
    ensures few { result ≤ 2 ^ 65 }
{
    if new.wanted == 0 || tried.wanted == 0 {
        WHOLE
    } else {
        2 * WHOLE
    }
}

/// Returns the row of a group.
fn row_in<H: BuildHasher>(
    new: &Side<'_, H>,
    tried: &Side<'_, H>,
    group: &Group,
    first: usize,
) -> Row
    requires new { FitsSide (side_value new.now) group.now.items }
    requires tried { FitsSide (side_value tried.now) group.now.items }
    ensures { result
        ≡ row_in (side_value new.now) (side_value tried.now) group.now.items first }
{
    let in_new = share_in(new, group);
    let in_tried = share_in(tried, group);
    Row {
        group: copy_of(group),
        first,
        picks: millionths(in_new + in_tried, whole_in(new, tried)),
        new: millionths(in_new, WHOLE),
        tried: millionths(in_tried, WHOLE),
    }
}

/// Returns the rows of some groups, each with the index of its first record.
fn rows_in<H: BuildHasher>(
    alloc: Global,
    new: &Side<'_, H>,
    tried: &Side<'_, H>,
    firsts: &Tally<'_, usize, H>,
    none: usize,
) -> Result<Vec<Row>, AllocError>
    requires new { (g : List ℕ) → FitsSide (side_value new.now) g }
    requires tried { (g : List ℕ) → FitsSide (side_value tried.now) g }
    ensures { IfOk result (λ rows. rows.items
        ≡ map (λ g. row_in (side_value new.now) (side_value tried.now) g.items
        (value_in none (by_bytes firsts.now.entries) g.items)) (keys firsts.now)) }
{
    let mut rows = Vec::new(alloc);
    for group in firsts.keys() {
        rows.push(row_in(new, tried, group, value_of(firsts, group, none)))?;
    }
    Ok(rows)
}

/// Returns how many records a table has.
fn wanted_in<T: TableView>(tables: &T, in_new: bool) -> u32
    ensures { result ≡ wanted_in (T.view tables.now) in_new }
{
    let (new, tried) = tables.wanted_in(NetSet::all());
    if in_new { new } else { tried }
}

/// Returns one table's side.
pub(crate) fn side_of<'a, T: TableView, G: BuildHasher, L: Ledger>(
    alloc: Global,
    hasher: &'a G,
    tables: &T,
    what: Search,
    steps: &mut Steps<L>,
) -> Result<Side<'a, G>, Memory>
    ensures { IfOk result (λ side. side_value side ≡ side_by (T.view tables.now) what) }
{
    let wanted = wanted_in(tables, what.in_new);
    let occupants = occupants_of(alloc, tables, what.in_new, steps)?;
    let classes = classes_of(alloc, hasher, tables.places(), occupants.as_slice(), what)?;
    Ok(Side {
        classes,
        wanted,
        slots: occupants.len(),
    })
}

/// Returns the rows of the groups of all records, in the order of the first ones.
fn rows_of<T: TableView, G: BuildHasher, L: Ledger>(
    alloc: Global,
    hasher: &G,
    tables: &T,
    recs: &[Rec],
    by: By,
    now: u32,
    steps: &mut Steps<L>,
) -> Result<Vec<Row>, Memory>
    requires { recs.now ≡ (T.view tables.now).records }
    ensures { IfOk result (λ rows. rows.items ≡ rows_of (T.view tables.now) by now) }
{
    let firsts = find_firsts(alloc, hasher, tables.places(), by, recs)?;
    let in_new = Search {
        in_new: true,
        by,
        now,
    };
    let in_tried = Search {
        in_new: false,
        by,
        now,
    };
    let new = side_of(alloc, hasher, tables, in_new, steps)?;
    let tried = side_of(alloc, hasher, tables, in_tried, steps)?;
    Ok(rows_in(alloc, &new, &tried, &firsts, recs.len())?)
}

/// Compares two rows: the one with more picks comes first, and of two with as many the one with the
/// lower bytes.
fn rank_cmp(a: &Row, b: &Row) -> Ordering
    ensures { result ≡ rank_cmp a.now b.now }
{
    b.picks
        .cmp(&a.picks)
        .then(a.group.as_slice().cmp(&b.group.as_slice()))
}

/// Returns the rows of the groups of all records, those with more picks first.
pub(crate) fn rows_in_order<T: TableView, G: BuildHasher, L: Ledger>(
    alloc: Global,
    hasher: &G,
    tables: &T,
    recs: &[Rec],
    by: By,
    now: u32,
    steps: &mut Steps<L>,
) -> Result<Vec<Row>, Memory>
    requires { recs.now ≡ (T.view tables.now).records }
    ensures rows { IfOk result (λ rows.
        IsPermutation (rows_of (T.view tables.now) by now) rows.items) }
    ensures order { IfOk result (λ rows. IsSortedBy comes_before rows.items) }
{
    let mut rows = rows_of(alloc, hasher, tables, recs, by, now, steps)?;
    rows.sort_unstable_by(|a, b| rank_cmp(a, b));
    Ok(rows)
}
