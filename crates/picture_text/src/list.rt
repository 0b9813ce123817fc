//! The list below the maps: the six groups, the others, and the free slots.

ghost use Rattle.std.specs.Prelude.{◌≡◌, ◌+◌, ◌*◌, ◌<◌, ◌≤◌, ◌++◌, length, map, OnOk, IfOk};
ghost use Rattle.picture_text.specs.Picture.{free_row, group_row, group_rows, mark_row, others_name, others_row, others_text, rows_text, source_at, top_of};
ghost use Rattle.slot_grid.specs.declared.sizes.TheConstants.{ALL_SLOTS};

use crate::Memory;
use crate::maps::name_at;
use crate::marks::dots_of;
use crate::parts::tried_marks;
use crate::pieces::{colour, put_count, put_row};
use net_addr::put_number;
use std::alloc::Global;
use table_groups::Source;

/// Returns where a row of the list is.
fn top_of(index: u8) -> u32
    ensures is { result ≡ top_of index }
    ensures small { result < 6100 }
{
    456 + 22 * u32::from(index)
}

/// Returns the listed group of an index.
fn source_at(listed: &[Source], index: u8) -> &Source
    requires { index < length listed.now }
    ensures { result.now ≡ source_at listed.now index }
{
    &listed[usize::from(index)]
}

/// Appends the row of a listed group.
#[tactic(auto, unfolding(crate::specs::Picture::group_row))]
fn put_group_row(source: &Source, name: &[u8], index: u8, out: &mut Vec<u8>) -> Result<(), Memory>
    ensures { OnOk result (out.new.items
        ≡ out.old.items ++ group_row source.now name.now index) }
{
    let y = top_of(index);
    let tried = u64::from(source.tried);
    put_row(
        y,
        colour(index),
        name,
        u64::from(source.new) + tried,
        tried,
        out,
    )?;
    put_count(1056, y + 10, u64::from(source.buckets), out)?;
    Ok(())
}

/// Appends the rows of the listed groups.
#[tactic(auto, unfolding(crate::specs::Picture::group_rows))]
pub(crate) fn put_group_rows(
    listed: &[Source],
    names: &[Vec<u8>],
    out: &mut Vec<u8>,
) -> Result<(), Memory>
    requires listed { length listed.now ≤ 6 }
    requires names { length listed.now ≤ length names.now }
    ensures { OnOk result (out.new.items ≡ out.old.items
        ++ group_rows listed.now (map (λ v. v.items) names.now)) }
{
    for index in 0..listed.len() as u8 {
        put_group_row(source_at(listed, index), name_at(names, index), index, out)?;
    }
    Ok(())
}

/// Returns the name of the groups that are not listed.
#[tactic(auto, unfolding(crate::specs::Picture::others_name))]
pub(crate) fn others_name(alloc: Global, others: usize) -> Result<Vec<u8>, Memory>
    ensures { IfOk result (λ name. name.items ≡ others_name others) }
{
    let mut name = Vec::new(alloc);
    put_number(b"other groups: ", others as u64, &mut name)?;
    Ok(name)
}

/// Appends the row of the groups that are not listed, if there are some.
fn put_others_row(marks: &[u8], others: usize, out: &mut Vec<u8>) -> Result<(), Memory>
    requires { length marks.now ≡ ALL_SLOTS }
    ensures { OnOk result (out.new.items ≡ out.old.items ++ others_row marks.now others) }
{
    if others == 0 {
        return Ok(());
    }
    put_others(marks, others, out)
}

/// Appends the row of the groups that are not listed.
fn put_others(marks: &[u8], others: usize, out: &mut Vec<u8>) -> Result<(), Memory>
    requires { length marks.now ≡ ALL_SLOTS }
    ensures { OnOk result (out.new.items ≡ out.old.items ++ others_text marks.now others) }
{
    let name = others_name(*out.allocator(), others)?;
    put_mark_row(marks, 7, 6, name.as_slice(), out)
}

/// Appends the row of a mark from 1 on, at an index of the list, with its name.
#[tactic(auto, unfolding(crate::specs::Picture::mark_row))]
pub(crate) fn put_mark_row(
    marks: &[u8],
    mark: u8,
    index: u8,
    name: &[u8],
    out: &mut Vec<u8>,
) -> Result<(), Memory>
    requires all { length marks.now ≡ ALL_SLOTS }
    requires mark { 0 < mark }
    ensures { OnOk result (out.new.items
        ≡ out.old.items ++ mark_row marks.now mark index name.now) }
{
    put_row(
        top_of(index),
        colour(mark - 1),
        name,
        u64::from(dots_of(marks, mark)),
        u64::from(dots_of(tried_marks(marks), mark)),
        out,
    )?;
    Ok(())
}

/// Appends the row of the free slots.
#[tactic(auto, unfolding(crate::specs::Picture::free_row))]
pub(crate) fn put_free_row(marks: &[u8], index: u8, out: &mut Vec<u8>) -> Result<(), Memory>
    requires { length marks.now ≡ ALL_SLOTS }
    ensures { OnOk result (out.new.items ≡ out.old.items ++ free_row marks.now index) }
{
    put_row(
        top_of(index),
        b"#eceff2",
        b"free",
        u64::from(dots_of(marks, 0)),
        u64::from(dots_of(tried_marks(marks), 0)),
        out,
    )?;
    Ok(())
}

/// Appends the list. The first names are those of the listed groups.
#[tactic(auto, unfolding(crate::specs::Picture::rows_text))]
pub(crate) fn put_rows(
    listed: &[Source],
    marks: &[u8],
    names: &[Vec<u8>],
    others: usize,
    out: &mut Vec<u8>,
) -> Result<(), Memory>
    requires marks { length marks.now ≡ ALL_SLOTS }
    requires listed { length listed.now ≤ 6 }
    requires names { length listed.now ≤ length names.now }
    requires few_names { length names.now ≤ 7 }
    ensures { OnOk result (out.new.items ≡ out.old.items
        ++ rows_text listed.now marks.now (map (λ v. v.items) names.now) others) }
{
    put_group_rows(listed, names, out)?;
    put_others_row(marks, others, out)?;
    put_free_row(marks, names.len() as u8, out)?;
    Ok(())
}
