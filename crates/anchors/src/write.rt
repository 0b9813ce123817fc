//! `write_file` of anchors, for callers of the library; no command writes such a file.

ghost use Rattle.std.specs.Prelude.{◌≡◌, ◌≤◌, ◌<◌, ◌^◌, ◌++◌, length, All, IfOk, OnOk};
ghost use Rattle.addr_codecs.specs.Entries.{IsEntry};
ghost use Rattle.anchors.specs.Layout.{HasFileFault, IsFile};
ghost use Rattle.anchors.specs.Texts.{front_text, anchor_text, body_text, file_text};
ghost use Rattle.anchors.specs.declared.fault.AnchorsFault.{AnchorsFault};
ghost use Rattle.anchors.specs.declared.read.TheConstants.{MAX_ANCHORS, MAX_FILE};

use addr_codecs::{Memory, put_address};
use host_io::Bytes;
use net_addr::Entry;
use placing::double_sha256;
use std::alloc::Global;
use wire_num::put_compact;

/// The first field of an anchor: the bit of addresses as `addrv2` has them, and in the low 19 bits
/// the version of Bitcoin Core that wrote such entries first, which readers ignore.
const LAYOUT: u32 = 0x2003_5b60;

/// The maximum length of an anchor in bytes.
const ANCHOR_ROOM: usize = 53;

/// Appends the first two fields of an anchor.
fn put_front(out: &mut Vec<u8>, anchor: &Entry) -> Result<(), Memory>
    ensures found { OnOk result (out.new.items ≡ out.old.items ++ front_text anchor.now) }
    ensures time { OnOk result (anchor.now.time < 2 ^ 32) }
{
    let time = anchor.time;
    let [a, b, c, d] = LAYOUT.to_le_bytes();
    let [e, f, g, h] = time.to_le_bytes();
    out.extend_from_slice(&[a, b, c, d, e, f, g, h])?;
    Ok(())
}

/// Appends an anchor.
#[tactic(auto, unfolding(crate::specs::Texts::anchor_text))]
fn put_anchor(out: &mut Vec<u8>, anchor: &Entry) -> Result<(), Memory>
    ensures found { OnOk result (out.new.items ≡ out.old.items ++ anchor_text anchor.now) }
    ensures fits { OnOk result (IsEntry anchor.now) }
{
    put_front(out, anchor)?;
    put_compact(anchor.services, out)?;
    put_address(&anchor.peer.addr, out)?;
    out.extend_from_slice(&anchor.peer.port.to_be_bytes())?;
    Ok(())
}

/// Appends the four bytes that begin the files of a chain.
fn put_magic(out: &mut Vec<u8>, magic: &[u8; 4]) -> Result<(), Memory>
    ensures found { OnOk result (out.new.items ≡ out.old.items ++ magic.now) }
    ensures four { OnOk result (length magic.now ≡ 4) }
{
    let bytes = magic.as_slice();
    out.extend_from_slice(bytes)?;
    Ok(())
}

/// Appends what is between the magic and the sum of a file.
#[tactic(auto, unfolding(crate::specs::Texts::body_text))]
fn put_body(out: &mut Vec<u8>, anchors: &[Entry]) -> Result<(), Memory>
    ensures found { OnOk result (out.new.items ≡ out.old.items ++ body_text anchors.now) }
    ensures fit { OnOk result (All IsEntry anchors.now) }
{
    put_compact(anchors.len() as u64, out)?;
    for anchor in anchors {
        put_anchor(out, anchor)?;
    }
    Ok(())
}

/// Writes the file of these anchors, for the chain whose files begin with these four bytes
/// (`DumpAnchors` in addrdb.cpp of Bitcoin Core).
#[tactic(auto, unfolding(crate::specs::Texts::file_text))]
pub fn write_file(alloc: Global, anchors: &[Entry], magic: [u8; 4]) -> Result<Bytes, Memory>
    requires few { length anchors.now ≤ MAX_ANCHORS }
    ensures found { IfOk result (λ bytes. bytes ≡ file_text magic anchors.now) }
    ensures read_back { IfOk result (λ bytes. IsFile magic bytes anchors.now) }
    ensures no_fault { IfOk result (λ bytes. (fault : AnchorsFault)
        → HasFileFault magic bytes fault → ⊥) }
    ensures short { IfOk result (λ bytes. length bytes < MAX_FILE) }
{
    let room = 39 + ANCHOR_ROOM * anchors.len();
    let mut out = Vec::with_capacity(alloc, room)?;
    put_magic(&mut out, &magic)?;
    put_body(&mut out, anchors)?;
    let sum = double_sha256(out.as_slice());
    out.extend_from_slice(&sum)?;
    Ok(Bytes::of(out))
}
