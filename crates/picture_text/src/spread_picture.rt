//! `put_spread_picture`: the picture with the marks and notes of groups that spread.

ghost use Rattle.std.specs.Prelude.{◌≡◌, ◌≤◌, ◌++◌, length, map, IfOk, OnOk};
ghost use Rattle.picture_text.specs.Notes.{first_note, honest_text, notes_by, second_note};
ghost use Rattle.picture_text.specs.Picture.{listed_in, spread_body, spread_name, spread_picture};
ghost use Rattle.slot_grid.specs.declared.sizes.TheConstants.{ALL_SLOTS};

use crate::by::put_head_by;
use crate::head::opening_text;
use crate::list::{put_mark_row, put_rows};
use crate::picture::{
    listed_in, names_of, others_of, put_maps_with, put_titles, put_wide, wide_of,
};
use crate::pieces::put_around;
use crate::spread::spread_of;
use crate::{By, Memory};
use net_addr::{put_number, put_text};
use std::alloc::Global;
use table_groups::Source;

/// Returns where an honest group of as many slots has them.
fn honest_text(by: By) -> &'static [u8]
    ensures { result.now ≡ honest_text by }
{
    match by {
        By::Source => b"from the 64 of a source, by over 3 standard deviations.",
        _ => b"from all 1024, by over 3 standard deviations.",
    }
}

/// Returns what is said first of the groups that spread.
#[tactic(auto, unfolding(crate::specs::Notes::first_note))]
fn first_note() -> &'static [u8]
    ensures { result.now ≡ first_note }
{
    b"<text x=\"694\" y=\"682\" class=\"k\">In more new buckets than as many slots taken at \
        random</text>\n"
}

/// Appends what is said of them then.
#[tactic(auto, unfolding(crate::specs::Notes::second_note))]
fn put_second_note(by: By, out: &mut Vec<u8>) -> Result<(), Memory>
    ensures { OnOk result (out.new.items ≡ out.old.items ++ second_note by) }
{
    put_around(
        b"<text x=\"694\" y=\"698\" class=\"k\">",
        honest_text(by),
        b"</text>\n",
        out,
    )
}

/// Appends what is said of the groups that spread.
fn put_notes(by: By, out: &mut Vec<u8>) -> Result<(), Memory>
    ensures { OnOk result (out.new.items ≡ out.old.items ++ notes_by by) }
{
    put_text(first_note(), out)?;
    put_second_note(by, out)?;
    Ok(())
}

/// Returns the name of the groups that spread.
#[tactic(auto, unfolding(crate::specs::Picture::spread_name))]
fn spread_name(alloc: Global, spread: usize) -> Result<Vec<u8>, Memory>
    ensures { IfOk result (λ name. name.items ≡ spread_name spread) }
{
    let mut name = Vec::new(alloc);
    put_number(b"spread groups: ", spread as u64, &mut name)?;
    Ok(name)
}

/// Appends what is between the head and the end.
#[tactic(auto, unfolding(crate::specs::Picture::spread_body))]
fn put_body(
    by: By,
    sources: &[Source],
    marks: &[u8],
    names: &[Vec<u8>],
    over: &[u8],
    out: &mut Vec<u8>,
) -> Result<(), Memory>
    requires marks { length marks.now ≡ ALL_SLOTS }
    requires names { length (listed_in sources.now) ≤ length names.now }
    requires few { length names.now ≤ 7 }
    requires over { length over.now ≡ ALL_SLOTS }
    ensures { OnOk result (out.new.items ≡ out.old.items
        ++ spread_body by sources.now marks.now (map (λ v. v.items) names.now) over.now) }
{
    let name = spread_name(*out.allocator(), spread_of(by, sources))?;
    put_titles(marks, out)?;
    put_maps_with(marks, names, over, 7, name.as_slice(), out)?;
    put_rows(listed_in(sources), marks, names, others_of(sources), out)?;
    put_wide(wide_of(sources), out)?;
    put_mark_row(over, 8, 9, name.as_slice(), out)?;
    put_notes(by, out)?;
    Ok(())
}

/// Appends the picture whose colours go by something, as `put_picture_by` does, and in it those of
/// the other groups that spread: `over` has the mark 8 in their slots, and 0 in all others.
#[tactic(auto, unfolding(crate::specs::Picture::spread_picture))]
pub fn put_spread_picture(
    alloc: Global,
    by: By,
    facts: &[u8],
    sources: &[Source],
    marks: &[u8],
    names: Vec<Vec<u8>>,
    over: &[u8],
    out: &mut Vec<u8>,
) -> Result<(), Memory>
    requires marks { length marks.now ≡ ALL_SLOTS }
    requires names { length names.items ≡ length (listed_in sources.now) }
    requires few { length names.items ≤ 6 }
    requires over { length over.now ≡ ALL_SLOTS }
    ensures { OnOk result (out.new.items ≡ out.old.items
        ++ spread_picture by facts.now sources.now marks.now (map (λ v. v.items) names.items)
        over.now) }
{
    let shown = names_of(alloc, others_of(sources), names)?;
    put_text(opening_text(), out)?;
    put_head_by(by, facts, out)?;
    put_body(by, sources, marks, shown.as_slice(), over, out)?;
    put_text(b"</svg>\n", out)?;
    Ok(())
}
