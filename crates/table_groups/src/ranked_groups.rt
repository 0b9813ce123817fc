//! `Group`, `Row`, `Numbers` and `rows_of`: all groups with their numbers, most slots first.

ghost use Rattle.std.specs.Prelude.{◌≡◌, ◌≤◌, IfOk, length, map};
ghost use Rattle.table_groups.specs.Order.{in_order, rank_cmp};
ghost use Rattle.indexmap.specs.IndexMap.{keys};
ghost use Rattle.slot_grid.specs.declared.sizes.TheConstants.{ALL_SLOTS};
ghost use Rattle.table_groups.specs.Groups.{rows_of};
ghost use Rattle.table_groups.specs.Inside.{counted_in, row_in};
ghost use Rattle.table_groups.specs.Tally.{by_bytes};

use crate::group_records::{RecordNumbers, tally_records};
use crate::group_slots::{SlotNumbers, tally_slots};
use crate::tally::{Tally, value_of};
use crate::{Memory, TableView};
use arrayvec::ArrayVec;
use net_addr::NetAddr;
use net_group::MAX_GROUP;
use peer_rec::Rec;
use std::alloc::Global;
use std::cmp::Ordering;
use std::hash::BuildHasher;
use std::sync::ledger::Ledger;
use steps::Steps;

/// The bytes of a network group.
pub type Group = ArrayVec<u8, MAX_GROUP>;

/// A group, and how many slots of the new table and records of the tried one it has.
#[derive(Drop)]
pub struct Counted {
    pub group: Group,
    pub slots: u64,
}

/// Returns a copy of a group.
pub fn copy_of(group: &Group) -> Group
    ensures { result ≡ group.now }
{
    let mut copy = Group::new();
    let _fits = copy.try_extend_from_slice(group.as_slice());
    copy
}

/// Compares two groups by their ranks: the one with more slots comes first, and of two with as many
/// the one with the lower bytes.
fn rank_cmp(a: &Counted, b: &Counted) -> Ordering
    ensures { result ≡ rank_cmp a.now b.now }
{
    b.slots
        .cmp(&a.slots)
        .then(a.group.as_slice().cmp(&b.group.as_slice()))
}

/// Puts groups in order: of two, the one with more slots comes first, and of two with as many the
/// one with the lower bytes.
pub(crate) fn put_in_order(groups: &mut Vec<Counted>)
    ensures { groups.new.items ≡ in_order groups.old.items }
{
    groups.sort_unstable_by(|a, b| rank_cmp(a, b));
}

/// How many slots, buckets and records of the new table a group has, and how many records of the
/// tried one.
#[derive(Clone, Copy)]
pub struct Numbers {
    pub slots: u32,
    pub buckets: u32,
    pub records: u32,
    pub tried: u32,
}

/// The address of a group's first record, and the numbers of the group.
#[derive(Clone, Copy)]
pub struct Row {
    pub first: Option<NetAddr>,
    pub numbers: Numbers,
}

/// Returns a group with the numbers of its slots and records.
fn counted_in<H: BuildHasher>(
    records: &Tally<'_, RecordNumbers, H>,
    slots: &Tally<'_, SlotNumbers, H>,
    group: &Group,
) -> Counted
    ensures { result ≡ counted_in (by_bytes records.now.entries) (by_bytes slots.now.entries)
        group.now.items }
{
    let of_records = value_of(records, group, RecordNumbers::none());
    let of_slots = value_of(slots, group, SlotNumbers::none());
    Counted {
        group: copy_of(group),
        slots: u64::from(of_slots.slots) + u64::from(of_records.tried),
    }
}

/// Returns the row of a group.
fn row_in<H: BuildHasher>(
    records: &Tally<'_, RecordNumbers, H>,
    slots: &Tally<'_, SlotNumbers, H>,
    group: &Group,
) -> Row
    ensures { result ≡ row_in (by_bytes records.now.entries) (by_bytes slots.now.entries)
        group.now.items }
{
    let of_records = value_of(records, group, RecordNumbers::none());
    let of_slots = value_of(slots, group, SlotNumbers::none());
    Row {
        first: of_records.first,
        numbers: Numbers {
            slots: of_slots.slots,
            buckets: of_slots.buckets,
            records: of_records.new,
            tried: of_records.tried,
        },
    }
}

/// Returns the groups of the records.
fn list_groups<H: BuildHasher>(
    alloc: Global,
    records: &Tally<'_, RecordNumbers, H>,
    slots: &Tally<'_, SlotNumbers, H>,
) -> Result<Vec<Counted>, Memory>
    ensures { IfOk result (λ groups. groups.items
        ≡ map (λ group. counted_in (by_bytes records.now.entries)
        (by_bytes slots.now.entries) group.items) (keys records.now)) }
{
    let mut groups = Vec::new(alloc);
    for group in records.keys() {
        groups.push(counted_in(records, slots, group))?;
    }
    Ok(groups)
}

/// Returns the rows of some groups.
fn list_rows<H: BuildHasher>(
    alloc: Global,
    records: &Tally<'_, RecordNumbers, H>,
    slots: &Tally<'_, SlotNumbers, H>,
    groups: &[Counted],
) -> Result<Vec<Row>, Memory>
    ensures { IfOk result (λ rows. rows.items
        ≡ map (λ c. row_in (by_bytes records.now.entries) (by_bytes slots.now.entries)
        c.group.items) groups.now) }
{
    let mut rows = Vec::new(alloc);
    for counted in groups {
        rows.push(row_in(records, slots, &counted.group))?;
    }
    Ok(rows)
}

/// Returns the groups that the records count for, in order: the one with the most slots of the new
/// table and records of the tried one first, and of two with as many the one with the lower bytes.
/// It takes two steps a slot of the new table.
pub fn rows_of<T: TableView, G: BuildHasher, L: Ledger>(
    alloc: Global,
    hasher: &G,
    tables: &T,
    recs: &[Rec],
    steps: &mut Steps<L>,
) -> Result<Vec<Row>, Memory>
    requires all { recs.now ≡ (T.view tables.now).records }
    requires few { length recs.now ≤ ALL_SLOTS }
    ensures { IfOk result (λ rows. rows.items ≡ rows_of (T.view tables.now)) }
{
    let records = tally_records(alloc, hasher, tables.places(), recs)?;
    let slots = tally_slots(alloc, hasher, tables, steps)?;
    let mut groups = list_groups(alloc, &records, &slots)?;
    put_in_order(&mut groups);
    list_rows(alloc, &records, &slots, groups.as_slice())
}
