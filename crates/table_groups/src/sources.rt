//! `Source` and `sources_of`: the same numbers for the sources, used by pictures.

ghost use Rattle.std.specs.Prelude.{◌≡◌, IfOk, map};
ghost use Rattle.indexmap.specs.IndexMap.{keys};
ghost use Rattle.table_groups.specs.Inside.{counted_source_in, source_in};
ghost use Rattle.table_groups.specs.Sources.{sources_of};
ghost use Rattle.table_groups.specs.Tally.{by_bytes};

use crate::group_slots::{SlotNumbers, note_table, tally_slots};
use crate::ranked_groups::{Counted, copy_of, put_in_order};
use crate::tally::{Tally, value_of};
use crate::{Group, Memory, TableView};
use std::alloc::Global;
use std::hash::BuildHasher;
use std::sync::ledger::Ledger;
use steps::Steps;

/// A group of sources: how many slots of each table have a record whose source is in it, and how
/// many buckets of the new table have such a slot.
#[derive(Drop)]
pub struct Source {
    pub group: Group,
    pub new: u32,
    pub tried: u32,
    pub buckets: u32,
}

/// Returns a group with the number of its slots in both tables.
fn counted_source_in<H: BuildHasher>(tally: &Tally<'_, SlotNumbers, H>, group: &Group) -> Counted
    ensures { result ≡ counted_source_in (by_bytes tally.now.entries) group.now.items }
{
    let numbers = value_of(tally, group, SlotNumbers::none());
    Counted {
        group: copy_of(group),
        slots: u64::from(numbers.slots) + u64::from(numbers.tried),
    }
}

/// Returns a group with the numbers of its slots and buckets.
fn source_in<H: BuildHasher>(tally: &Tally<'_, SlotNumbers, H>, group: &Group) -> Source
    ensures { result ≡ source_in (by_bytes tally.now.entries) group.now.items }
{
    let numbers = value_of(tally, group, SlotNumbers::none());
    Source {
        group: copy_of(group),
        new: numbers.slots,
        tried: numbers.tried,
        buckets: numbers.buckets,
    }
}

/// Returns the groups of a tally.
fn list_groups<H: BuildHasher>(
    alloc: Global,
    tally: &Tally<'_, SlotNumbers, H>,
) -> Result<Vec<Counted>, Memory>
    ensures { IfOk result (λ groups. groups.items
        ≡ map (λ group. counted_source_in (by_bytes tally.now.entries) group.items)
        (keys tally.now)) }
{
    let mut groups = Vec::new(alloc);
    for group in tally.keys() {
        groups.push(counted_source_in(tally, group))?;
    }
    Ok(groups)
}

/// Returns some groups with their numbers.
fn list_sources<H: BuildHasher>(
    alloc: Global,
    tally: &Tally<'_, SlotNumbers, H>,
    groups: &[Counted],
) -> Result<Vec<Source>, Memory>
    ensures { IfOk result (λ sources. sources.items
        ≡ map (λ c. source_in (by_bytes tally.now.entries) c.group.items) groups.now) }
{
    let mut sources = Vec::new(alloc);
    for counted in groups {
        sources.push(source_in(tally, &counted.group))?;
    }
    Ok(sources)
}

/// Returns the groups of the sources in the slots of both tables, in order: the one with the most
/// slots first, and of two with as many the one with the lower bytes. It takes two steps a slot.
pub fn sources_of<T: TableView, G: BuildHasher, L: Ledger>(
    alloc: Global,
    hasher: &G,
    tables: &T,
    steps: &mut Steps<L>,
) -> Result<Vec<Source>, Memory>
    ensures { IfOk result (λ sources. sources.items ≡ sources_of (T.view tables.now)) }
{
    let mut tally = tally_slots(alloc, hasher, tables, steps)?;
    note_table(&mut tally, tables, false, steps)?;
    let mut groups = list_groups(alloc, &tally)?;
    put_in_order(&mut groups);
    list_sources(alloc, &tally, groups.as_slice())
}
