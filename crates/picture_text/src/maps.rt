//! The map of a table: its ground, and a path for each mark with its `title`.

ghost use Rattle.std.specs.Prelude.{◌≡◌, ◌<◌, ◌≤◌, ◌++◌, length, map, OnOk};
ghost use Rattle.picture_text.specs.Maps.{ground_text, map_opening, map_text, map_with, name_at, path_element, paths_text};
ghost use Rattle.slot_grid.specs.declared.sizes.TheConstants.{NEW_SLOTS};

use crate::Memory;
use crate::pieces::{colour, put_around};
use dot_runs::put_path;
use net_addr::put_text;
use table_groups::put_numbered;

/// Appends the map of a table, `side` tiles wide, whose left edge is at `x`: a path for each name,
/// from the mark 1 on.
#[tactic(auto, unfolding(crate::specs::Maps::map_text))]
pub(crate) fn put_map(
    x: u32,
    side: u16,
    marks: &[u8],
    names: &[Vec<u8>],
    out: &mut Vec<u8>,
) -> Result<(), Memory>
    requires some { 0 < side }
    requires few { length marks.now ≤ NEW_SLOTS }
    requires names { length names.now ≤ 7 }
    ensures { OnOk result (out.new.items ≡ out.old.items
        ++ map_text x side marks.now (map (λ v. v.items) names.now)) }
{
    put_map_opening(x, out)?;
    put_ground(9 * u32::from(side), out)?;
    put_paths(marks, side, names, out)?;
    put_text(b"</g>\n", out)?;
    Ok(())
}

/// Appends the same, and over it a path of some marks in the colour of an index, with its name.
#[tactic(auto, unfolding(crate::specs::Maps::map_with))]
pub(crate) fn put_map_with(
    x: u32,
    side: u16,
    marks: &[u8],
    names: &[Vec<u8>],
    over: &[u8],
    index: u8,
    name: &[u8],
    out: &mut Vec<u8>,
) -> Result<(), Memory>
    requires some { 0 < side }
    requires few { length marks.now ≤ NEW_SLOTS }
    requires names { length names.now ≤ 7 }
    requires few_over { length over.now ≤ NEW_SLOTS }
    requires index { index < 8 }
    ensures { OnOk result (out.new.items ≡ out.old.items
        ++ map_with x side marks.now (map (λ v. v.items) names.now) over.now index name.now) }
{
    put_map_opening(x, out)?;
    put_ground(9 * u32::from(side), out)?;
    put_paths(marks, side, names, out)?;
    put_element(over, side, index, name, out)?;
    put_text(b"</g>\n", out)?;
    Ok(())
}

/// Appends the opening of a map.
#[tactic(auto, unfolding(crate::specs::Maps::map_opening))]
fn put_map_opening(x: u32, out: &mut Vec<u8>) -> Result<(), Memory>
    ensures { OnOk result (out.new.items ≡ out.old.items ++ map_opening x) }
{
    put_numbered(
        b"<g transform=\"translate(",
        x,
        b" 98) scale(2)\" shape-rendering=\"crispEdges\">\n",
        out,
    )
}

/// Appends the ground of the tiles, a square of this size.
#[tactic(auto, unfolding(crate::specs::Maps::ground_text))]
fn put_ground(size: u32, out: &mut Vec<u8>) -> Result<(), Memory>
    ensures { OnOk result (out.new.items ≡ out.old.items ++ ground_text size) }
{
    put_numbered(b"<rect width=\"", size, b"\" height=\"", out)?;
    put_numbered(b"", size, b"\" fill=\"url(#free)\"/>\n", out)?;
    Ok(())
}

/// Appends a path for each name.
#[tactic(auto, unfolding(crate::specs::Maps::paths_text))]
fn put_paths(marks: &[u8], side: u16, names: &[Vec<u8>], out: &mut Vec<u8>) -> Result<(), Memory>
    requires some { 0 < side }
    requires few { length marks.now ≤ NEW_SLOTS }
    requires names { length names.now ≤ 7 }
    ensures { OnOk result (out.new.items ≡ out.old.items
        ++ paths_text marks.now side (map (λ v. v.items) names.now)) }
{
    for index in 0..names.len() as u8 {
        put_element(marks, side, index, name_at(names, index), out)?;
    }
    Ok(())
}

/// Appends the path of the mark after `index`, with its name, which a viewer shows over its dots.
#[tactic(auto, unfolding(crate::specs::Maps::path_element))]
fn put_element(
    marks: &[u8],
    side: u16,
    index: u8,
    name: &[u8],
    out: &mut Vec<u8>,
) -> Result<(), Memory>
    requires some { 0 < side }
    requires few { length marks.now ≤ NEW_SLOTS }
    requires index { index < 8 }
    ensures { OnOk result (out.new.items ≡ out.old.items
        ++ path_element marks.now side name.now index) }
{
    put_around(b"<path fill=\"", colour(index), b"\" d=\"", out)?;
    put_path(marks, index + 1, side, out)?;
    put_around(b"\"><title>", name, b"</title></path>\n", out)?;
    Ok(())
}

/// Returns the name of the mark after `index`.
pub(crate) fn name_at(names: &[Vec<u8>], index: u8) -> &[u8]
    requires { index < length names.now }
    ensures { result.now ≡ name_at (map (λ v. v.items) names.now) index }
{
    names[usize::from(index)].as_slice()
}
