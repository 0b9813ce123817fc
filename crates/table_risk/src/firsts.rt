//! The first record of each group, by index.

ghost use Rattle.std.specs.Prelude.{◌≡◌, IfOk, OnOk, length};
ghost use Rattle.table_groups.specs.Tally.{by_bytes, noted};
ghost use Rattle.table_risk.specs.Inside.{firsts_by, lower};

use crate::{By, Memory};
use indexmap::IndexMap;
use peer_rec::Rec;
use placing::Placer;
use std::alloc::{AllocError, Global};
use std::hash::BuildHasher;
use table_groups::{Group, Lent, Tally, put_value, value_of};

/// Notes that a record of a group has this index; `none` stands for no record.
fn note_index<H: BuildHasher>(
    firsts: &mut Tally<'_, usize, H>,
    group: Group,
    none: usize,
    index: usize,
) -> Result<(), AllocError>
    ensures { OnOk result (by_bytes firsts.new.entries
        ≡ noted none lower (by_bytes firsts.old.entries) (group.items, index)) }
{
    let first = value_of(firsts, &group, none).min(index);
    put_value(firsts, group, first)
}

/// Finds the index of the first record of each group.
pub(crate) fn find_firsts<'a, H: BuildHasher>(
    alloc: Global,
    hasher: &'a H,
    placer: &Placer<'_>,
    by: By,
    recs: &[Rec],
) -> Result<Tally<'a, usize, H>, Memory>
    ensures { IfOk result (λ firsts. by_bytes firsts.entries
        ≡ firsts_by placer.now by (length recs.now) recs.now) }
{
    let mut firsts = IndexMap::with_hasher(alloc, Lent::of(hasher));
    for index in 0..recs.len() {
        let group = by.group(placer, &recs[index]);
        note_index(&mut firsts, group, recs.len(), index)?;
    }
    Ok(firsts)
}
