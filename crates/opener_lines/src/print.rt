//! Prints the replies about a connection that was opened, tested (`feeler`) or closed, with the
//! number of tries.

ghost use Rattle.std.specs.Prelude.{◌≡◌, ◌++◌, IfOk, OnOk};
ghost use Rattle.opener_lines.specs.Texts.{closed_text, opened_text, tested_text, tries_text};

use net_addr::{Memory, Peer, put_hex, put_number, put_peer, put_text};
use std::alloc::Global;

/// Returns the answer to a connection that was opened, with the peer's group in hexadecimal.
pub(crate) fn opened_text(
    alloc: Global,
    peer: &Peer,
    group: &[u8],
    tries: u32,
) -> Result<Vec<u8>, Memory>
    ensures { IfOk result (λ text. text.items ≡ opened_text peer.now group.now tries) }
{
    let mut text = Vec::new(alloc);
    put_text(b"outbound ", &mut text)?;
    put_peer(peer, &mut text)?;
    put_hex(b" group ", group, &mut text)?;
    put_tries(tries, &mut text)?;
    Ok(text)
}

/// Returns the answer to a feeler for which a peer was taken.
pub(crate) fn tested_text(alloc: Global, peer: &Peer, tries: u32) -> Result<Vec<u8>, Memory>
    ensures { IfOk result (λ text. text.items ≡ tested_text peer.now tries) }
{
    let mut text = Vec::new(alloc);
    put_text(b"feeler ", &mut text)?;
    put_peer(peer, &mut text)?;
    put_tries(tries, &mut text)?;
    Ok(text)
}

/// Returns the answer to a peer that was closed.
pub(crate) fn closed_text(was_open: bool) -> &'static [u8]
    ensures { result.now ≡ closed_text was_open }
{
    if was_open { b"closed\n" } else { b"unknown\n" }
}

/// Appends how many tries there were, and a line feed.
fn put_tries(tries: u32, out: &mut Vec<u8>) -> Result<(), Memory>
    ensures { OnOk result (out.new.items ≡ out.old.items ++ tries_text tries) }
{
    put_number(b" tries ", u64::from(tries), out)?;
    put_text(b"\n", out)
}
