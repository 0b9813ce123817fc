//! The colours, and a row of the list: swatch, name and counts.

ghost use Rattle.std.specs.Prelude.{◌≡◌, ◌+◌, ◌<◌, ◌^◌, ◌++◌, OnOk};
ghost use Rattle.picture_text.specs.Elements.{colour, count_text, name_text, row_text, swatch};

use crate::Memory;
use net_addr::{put_number, put_text};
use table_groups::put_numbered;

/// Appends a text between two texts.
pub(crate) fn put_around(
    before: &[u8],
    text: &[u8],
    after: &[u8],
    out: &mut Vec<u8>,
) -> Result<(), Memory>
    ensures { OnOk result (out.new.items ≡ out.old.items
        ++ (before.now ++ (text.now ++ after.now))) }
{
    put_text(before, out)?;
    put_text(text, out)?;
    put_text(after, out)?;
    Ok(())
}

/// Returns the colour of the mark after `index`.
pub(crate) fn colour(index: u8) -> &'static [u8]
    ensures { result.now ≡ colour index }
{
    match index {
        0 => b"#d55e00",
        1 => b"#0072b2",
        2 => b"#009e73",
        3 => b"#cc79a7",
        4 => b"#e69f00",
        5 => b"#56b4e9",
        6 => b"#57606a",
        _ => b"#0b0c0d",
    }
}

/// Appends a row of the list but for its buckets: a square of its colour whose top is at `y`, its
/// name, and how many slots there are, of these in the tried table.
#[tactic(auto, unfolding(crate::specs::Elements::row_text))]
pub(crate) fn put_row(
    y: u32,
    fill: &[u8],
    name: &[u8],
    slots: u64,
    tried: u64,
    out: &mut Vec<u8>,
) -> Result<(), Memory>
    requires { y < 2 ^ 16 }
    ensures { OnOk result (out.new.items
        ≡ out.old.items ++ row_text y fill.now name.now slots tried) }
{
    put_swatch(y, fill, out)?;
    put_name(y + 10, name, out)?;
    put_count(896, y + 10, slots, out)?;
    put_count(970, y + 10, tried, out)?;
    Ok(())
}

/// Appends the square of a colour.
#[tactic(auto, unfolding(crate::specs::Elements::swatch))]
fn put_swatch(y: u32, fill: &[u8], out: &mut Vec<u8>) -> Result<(), Memory>
    ensures { OnOk result (out.new.items ≡ out.old.items ++ swatch y fill.now) }
{
    put_numbered(
        b"<rect x=\"694\" y=\"",
        y,
        b"\" width=\"11\" height=\"11\" fill=\"",
        out,
    )?;
    put_text(fill, out)?;
    put_text(b"\"/>\n", out)?;
    Ok(())
}

/// Appends the name of a row.
#[tactic(auto, unfolding(crate::specs::Elements::name_text))]
fn put_name(y: u32, name: &[u8], out: &mut Vec<u8>) -> Result<(), Memory>
    ensures { OnOk result (out.new.items ≡ out.old.items ++ name_text y name.now) }
{
    put_numbered(b"<text x=\"712\" y=\"", y, b"\">", out)?;
    put_text(name, out)?;
    put_text(b"</text>\n", out)?;
    Ok(())
}

/// Appends a count.
#[tactic(auto, unfolding(crate::specs::Elements::count_text))]
pub(crate) fn put_count(x: u32, y: u32, count: u64, out: &mut Vec<u8>) -> Result<(), Memory>
    ensures { OnOk result (out.new.items ≡ out.old.items ++ count_text x y count) }
{
    put_numbered(b"<text x=\"", x, b"\" y=\"", out)?;
    put_numbered(b"", y, b"\" class=\"n\">", out)?;
    put_number(b"", count, out)?;
    put_text(b"</text>\n", out)?;
    Ok(())
}
