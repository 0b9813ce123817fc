//! `anchors_text`, the output of `show --anchors`.

ghost use Rattle.std.specs.Prelude.{◌≡◌, ◌++◌, IfOk, OnOk};
ghost use Rattle.anchors.specs.Listing.{anchor_line, anchors_text};

use net_addr::{Entry, Memory, put_number, put_peer, put_text};
use std::alloc::Global;

/// Room for a line in bytes: those of IPv4 peers have less, and the text grows if others need more.
const LINE_ROOM: usize = 80;

/// Returns the text that lists anchors: a line with their number, and one for each, counted from 0.
pub fn anchors_text(alloc: Global, anchors: &[Entry]) -> Result<Vec<u8>, Memory>
    ensures { IfOk result (λ text. text.items ≡ anchors_text anchors.now) }
{
    let room = anchors.len().saturating_mul(LINE_ROOM);
    let mut text = Vec::with_capacity(alloc, room)?;
    put_number(b"anchors ", anchors.len() as u64, &mut text)?;
    put_text(b"\n", &mut text)?;
    for (index, anchor) in anchors.iter().enumerate() {
        put_line(index as u64, anchor, &mut text)?;
    }
    Ok(text)
}

/// Appends an anchor, on one line: its index, the peer, when it was last seen, in seconds since
/// 1970, and its services.
fn put_line(index: u64, anchor: &Entry, out: &mut Vec<u8>) -> Result<(), Memory>
    ensures { OnOk result (out.new.items ≡ out.old.items ++ anchor_line index anchor.now) }
{
    put_number(b"anchor ", index, out)?;
    put_text(b" ", out)?;
    put_peer(&anchor.peer, out)?;
    put_number(b" time ", u64::from(anchor.time), out)?;
    put_number(b" services ", anchor.services, out)?;
    put_text(b"\n", out)
}
