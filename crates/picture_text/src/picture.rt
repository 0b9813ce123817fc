//! `put_picture` and `put_picture_by`: the whole text in order, with counts in the titles.

ghost use Rattle.std.specs.Prelude.{◌≡◌, ◌+◌, ◌<◌, ◌≤◌, ◌++◌, length, map, IfOk, OnOk};
ghost use Rattle.picture_text.specs.Elements.{new_title, tried_title, wide_text};
ghost use Rattle.picture_text.specs.Picture.{body_text, listed_in, maps_text, maps_with, names_of, occupied, others_of, picture_by_text, picture_text, titles_text, wide_of};
ghost use Rattle.slot_grid.specs.declared.sizes.TheConstants.{ALL_SLOTS};

use crate::by::put_head_by;
use crate::head::{head_text, labels_text, opening_text};
use crate::list::{others_name, put_rows};
use crate::maps::{put_map, put_map_with};
use crate::marks::dots_of;
use crate::parts::{new_marks, tried_marks};
use crate::{By, Memory};
use net_addr::{put_number, put_text};
use std::alloc::Global;
use table_groups::{Source, put_numbered};

/// Returns the groups that are listed: the first six.
pub fn listed_in(sources: &[Source]) -> &[Source]
    ensures is { result.now ≡ listed_in sources.now }
    ensures few { length result.now ≤ 6 }
{
    if 6 < sources.len() {
        &sources[..6]
    } else {
        sources
    }
}

/// Returns how many groups are not listed.
pub(crate) fn others_of(sources: &[Source]) -> usize
    ensures { result ≡ others_of sources.now }
{
    sources.len().saturating_sub(6)
}

/// Returns how many groups are in more than 32 buckets of the new table.
pub(crate) fn wide_of(sources: &[Source]) -> usize
    ensures { result ≡ wide_of sources.now }
{
    let mut count = 0;
    for source in sources {
        if 32 < source.buckets {
            count += 1;
        }
    }
    count
}

/// Returns how many slots with these marks are occupied.
fn occupied(marks: &[u8]) -> u32
    requires { length marks.now ≤ ALL_SLOTS }
    ensures { result ≡ occupied marks.now }
{
    marks.len() as u32 - dots_of(marks, 0)
}

/// Appends how full the tables are.
#[tactic(auto, unfolding(crate::specs::Picture::titles_text))]
pub(crate) fn put_titles(marks: &[u8], out: &mut Vec<u8>) -> Result<(), Memory>
    requires { length marks.now ≡ ALL_SLOTS }
    ensures { OnOk result (out.new.items ≡ out.old.items ++ titles_text marks.now) }
{
    put_new_title(occupied(new_marks(marks)), out)?;
    put_tried_title(occupied(tried_marks(marks)), out)?;
    Ok(())
}

/// Appends how full the new table is.
#[tactic(auto, unfolding(crate::specs::Elements::new_title))]
fn put_new_title(count: u32, out: &mut Vec<u8>) -> Result<(), Memory>
    ensures { OnOk result (out.new.items ≡ out.old.items ++ new_title count) }
{
    put_numbered(
        b"<text x=\"56\" y=\"88\" class=\"b\">New table: ",
        count,
        b" of 65536 slots are occupied</text>\n",
        out,
    )
}

/// Appends how full the tried table is.
#[tactic(auto, unfolding(crate::specs::Elements::tried_title))]
fn put_tried_title(count: u32, out: &mut Vec<u8>) -> Result<(), Memory>
    ensures { OnOk result (out.new.items ≡ out.old.items ++ tried_title count) }
{
    put_numbered(
        b"<text x=\"694\" y=\"88\" class=\"b\">Tried table: ",
        count,
        b" of 16384 slots are occupied</text>\n",
        out,
    )
}

/// Appends how many groups are in many buckets.
#[tactic(auto, unfolding(crate::specs::Elements::wide_text))]
pub(crate) fn put_wide(count: usize, out: &mut Vec<u8>) -> Result<(), Memory>
    ensures { OnOk result (out.new.items ≡ out.old.items ++ wide_text count) }
{
    put_number(
        b"<text x=\"694\" y=\"644\">Groups in more than 32 of the 1024 new buckets: ",
        count as u64,
        out,
    )?;
    put_text(b"</text>\n", out)?;
    Ok(())
}

/// Appends both maps.
#[tactic(auto, unfolding(crate::specs::Picture::maps_text))]
fn put_maps(marks: &[u8], names: &[Vec<u8>], out: &mut Vec<u8>) -> Result<(), Memory>
    requires marks { length marks.now ≡ ALL_SLOTS }
    requires names { length names.now ≤ 7 }
    ensures { OnOk result (out.new.items ≡ out.old.items
        ++ maps_text marks.now (map (λ v. v.items) names.now)) }
{
    put_map(56, 32, new_marks(marks), names, out)?;
    put_map(694, 16, tried_marks(marks), names, out)?;
    Ok(())
}

/// Appends both maps, each with a path of some marks over it in the colour of an index.
#[tactic(auto, unfolding(crate::specs::Picture::maps_with))]
pub(crate) fn put_maps_with(
    marks: &[u8],
    names: &[Vec<u8>],
    over: &[u8],
    index: u8,
    name: &[u8],
    out: &mut Vec<u8>,
) -> Result<(), Memory>
    requires marks { length marks.now ≡ ALL_SLOTS }
    requires names { length names.now ≤ 7 }
    requires over { length over.now ≡ ALL_SLOTS }
    requires index { index < 8 }
    ensures { OnOk result (out.new.items ≡ out.old.items
        ++ maps_with marks.now (map (λ v. v.items) names.now) over.now index name.now) }
{
    let (marks_left, over_left) = (new_marks(marks), new_marks(over));
    put_map_with(56, 32, marks_left, names, over_left, index, name, out)?;
    let (marks_right, over_right) = (tried_marks(marks), tried_marks(over));
    put_map_with(694, 16, marks_right, names, over_right, index, name, out)?;
    Ok(())
}

/// Appends the titles, the maps and the list.
#[tactic(auto, unfolding(crate::specs::Picture::body_text))]
fn put_body(
    sources: &[Source],
    marks: &[u8],
    names: &[Vec<u8>],
    out: &mut Vec<u8>,
) -> Result<(), Memory>
    requires marks { length marks.now ≡ ALL_SLOTS }
    requires names { length (listed_in sources.now) ≤ length names.now }
    requires few { length names.now ≤ 7 }
    ensures { OnOk result (out.new.items ≡ out.old.items
        ++ body_text sources.now marks.now (map (λ v. v.items) names.now)) }
{
    put_titles(marks, out)?;
    put_maps(marks, names, out)?;
    put_rows(listed_in(sources), marks, names, others_of(sources), out)?;
    put_wide(wide_of(sources), out)?;
    Ok(())
}

/// Returns the names of the marks: those of the listed groups, and that of all others if there are
/// some.
pub(crate) fn names_of(
    alloc: Global,
    others: usize,
    names: Vec<Vec<u8>>,
) -> Result<Vec<Vec<u8>>, Memory>
    requires { length names.items ≤ 6 }
    ensures names { IfOk result (λ all. map (λ v. v.items) all.items
        ≡ names_of others (map (λ v. v.items) names.items)) }
    ensures some { IfOk result (λ all. length names.items ≤ length all.items) }
    ensures few { IfOk result (λ all. length all.items ≤ 7) }
{
    let mut all = names;
    if others != 0 {
        all.push(others_name(alloc, others)?)?;
    }
    Ok(all)
}

/// Appends the picture of the tables, from the groups of their sources in order, the marks of their
/// slots, and the names of the listed groups.
#[tactic(auto, unfolding(crate::specs::Picture::picture_text))]
pub fn put_picture(
    alloc: Global,
    sources: &[Source],
    marks: &[u8],
    names: Vec<Vec<u8>>,
    out: &mut Vec<u8>,
) -> Result<(), Memory>
    requires marks { length marks.now ≡ ALL_SLOTS }
    requires names { length names.items ≡ length (listed_in sources.now) }
    requires few { length names.items ≤ 6 }
    ensures { OnOk result (out.new.items ≡ out.old.items
        ++ picture_text sources.now marks.now (map (λ v. v.items) names.items)) }
{
    let shown = names_of(alloc, others_of(sources), names)?;
    put_text(opening_text(), out)?;
    put_text(head_text(), out)?;
    put_text(labels_text(), out)?;
    put_body(sources, marks, shown.as_slice(), out)?;
    put_text(b"</svg>\n", out)?;
    Ok(())
}

/// Appends the picture whose colours go by something, from the classes of the slots in order, the
/// marks of the slots, and the names of the listed classes. `facts` says which tables they are.
#[tactic(auto, unfolding(crate::specs::Picture::picture_by_text))]
pub fn put_picture_by(
    alloc: Global,
    by: By,
    facts: &[u8],
    sources: &[Source],
    marks: &[u8],
    names: Vec<Vec<u8>>,
    out: &mut Vec<u8>,
) -> Result<(), Memory>
    requires marks { length marks.now ≡ ALL_SLOTS }
    requires names { length names.items ≡ length (listed_in sources.now) }
    requires few { length names.items ≤ 6 }
    ensures { OnOk result (out.new.items ≡ out.old.items
        ++ picture_by_text by facts.now sources.now marks.now (map (λ v. v.items) names.items)) }
{
    let shown = names_of(alloc, others_of(sources), names)?;
    put_text(opening_text(), out)?;
    put_head_by(by, facts, out)?;
    put_body(sources, marks, shown.as_slice(), out)?;
    put_text(b"</svg>\n", out)?;
    Ok(())
}
