//! `put_sets_picture`: the picture whose colours show at most six sets of addresses (`--mark`).

ghost use Rattle.std.specs.Prelude.{◌≡◌, ◌≤◌, ◌<◌, ◌++◌, length, map, IfOk, OnOk};
ghost use Rattle.picture_text.specs.Picture.{set_numbers, sets_in, sets_picture, sets_rows};
ghost use Rattle.slot_grid.specs.declared.sizes.TheConstants.{ALL_SLOTS};

use crate::Memory;
use crate::by::put_sets_head;
use crate::head::opening_text;
use crate::list::{put_free_row, put_group_rows, put_mark_row};
use crate::marks::{buckets_of, dots_of};
use crate::parts::{new_marks, tried_marks};
use crate::picture::{put_maps_with, put_titles};
use net_addr::put_text;
use std::alloc::Global;
use table_groups::{Group, Source};

/// Returns the numbers of the set at an index: its slots, and its buckets of the new table.
fn set_numbers(marks: &[u8], index: u8) -> Source
    requires all { length marks.now ≡ ALL_SLOTS }
    requires index { index < 6 }
    ensures { result ≡ set_numbers marks.now index }
{
    Source {
        group: Group::new(),
        new: dots_of(new_marks(marks), index + 1),
        tried: dots_of(tried_marks(marks), index + 1),
        buckets: buckets_of(marks, index + 1),
    }
}

/// Returns the numbers of the sets, of which there are `count`.
fn sets_in(alloc: Global, marks: &[u8], count: u8) -> Result<Vec<Source>, Memory>
    requires all { length marks.now ≡ ALL_SLOTS }
    requires few { count ≤ 6 }
    ensures numbers { IfOk result (λ sets. sets.items ≡ sets_in marks.now count) }
    ensures long { IfOk result (λ sets. length sets.items ≡ count) }
{
    let mut sets = Vec::new(alloc);
    for index in 0..count {
        sets.push(set_numbers(marks, index))?;
    }
    Ok(sets)
}

/// Appends the rows of the sets, of the other peers and of the free slots.
#[tactic(auto, unfolding(crate::specs::Picture::sets_rows))]
fn put_sets_rows(marks: &[u8], names: &[Vec<u8>], out: &mut Vec<u8>) -> Result<(), Memory>
    requires all { length marks.now ≡ ALL_SLOTS }
    requires few { length names.now ≤ 6 }
    ensures { OnOk result (out.new.items ≡ out.old.items
        ++ sets_rows marks.now (map (λ v. v.items) names.now)) }
{
    let count = names.len() as u8;
    let sets = sets_in(*out.allocator(), marks, count)?;
    put_group_rows(sets.as_slice(), names, out)?;
    put_mark_row(marks, 7, count, b"in no set", out)?;
    put_free_row(marks, count + 1, out)?;
    Ok(())
}

/// Appends the picture whose colours go by at most six sets of addresses, from the marks of the
/// slots and the names of the sets. A slot of the first set has the mark 1, and one whose peer is
/// in no set the mark 7. `facts` says which tables they are.
#[tactic(auto, unfolding(crate::specs::Picture::sets_picture))]
pub fn put_sets_picture(
    facts: &[u8],
    marks: &[u8],
    names: &[Vec<u8>],
    out: &mut Vec<u8>,
) -> Result<(), Memory>
    requires all { length marks.now ≡ ALL_SLOTS }
    requires few { length names.now ≤ 6 }
    ensures { OnOk result (out.new.items ≡ out.old.items
        ++ sets_picture facts.now marks.now (map (λ v. v.items) names.now)) }
{
    put_text(opening_text(), out)?;
    put_sets_head(facts, out)?;
    put_titles(marks, out)?;
    put_maps_with(marks, names, marks, 6, b"in no set", out)?;
    put_sets_rows(marks, names, out)?;
    put_text(b"</svg>\n", out)?;
    Ok(())
}
