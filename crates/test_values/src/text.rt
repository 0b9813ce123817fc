//! Values as texts: decimal, hexadecimal, yes or no.

use crate::unread::Unread;
use net_addr::{NetAddr, Peer, put_addr, put_peer};
use std::alloc::Global;

/// Returns an owned text.
pub(crate) fn owned(alloc: Global, text: &str) -> Result<String, Unread> {
    Ok(String::from_str(alloc, text)?)
}

/// Returns the number in decimal.
pub(crate) fn decimal(alloc: Global, number: u64) -> Result<String, Unread> {
    Ok(format!(in alloc; "{number}")?)
}

/// Returns the number in decimal, or `none`.
pub(crate) fn number_text(alloc: Global, number: Option<u64>) -> Result<String, Unread> {
    match number {
        Some(number) => decimal(alloc, number),
        None => owned(alloc, "none"),
    }
}

/// Returns the bytes in hexadecimal.
pub(crate) fn hex_text(alloc: Global, bytes: &[u8]) -> Result<String, Unread> {
    Ok(hex::encode(alloc, bytes)?)
}

/// Returns the bytes as text.
pub(crate) fn text_of(bytes: Vec<u8>) -> Result<String, Unread> {
    match String::from_utf8(bytes) {
        Ok(text) => Ok(text),
        Err(_) => Err(Unread::Form),
    }
}

/// Returns the bytes as text, with `|` for each line feed.
pub(crate) fn in_one_line(bytes: Vec<u8>) -> Result<String, Unread> {
    let mut bytes = bytes;
    for byte in bytes.iter_mut() {
        if *byte == b'\n' {
            *byte = b'|';
        }
    }
    text_of(bytes)
}

/// Returns the text of the address.
pub(crate) fn addr_text(alloc: Global, addr: &NetAddr) -> Result<String, Unread> {
    let mut text = Vec::new(alloc);
    match put_addr(addr, &mut text) {
        Ok(()) => text_of(text),
        Err(_) => Err(Unread::Memory),
    }
}

/// Returns the text of the peer.
pub(crate) fn peer_text(alloc: Global, peer: &Peer) -> Result<String, Unread> {
    let mut text = Vec::new(alloc);
    match put_peer(peer, &mut text) {
        Ok(()) => text_of(text),
        Err(_) => Err(Unread::Memory),
    }
}

/// Returns `true` or `false`.
pub(crate) fn bool_text(alloc: Global, is_true: bool) -> Result<String, Unread> {
    owned(alloc, if is_true { "true" } else { "false" })
}

/// Returns `yes` or `no`.
pub(crate) fn yes_or_no(alloc: Global, yes: bool) -> Result<String, Unread> {
    owned(alloc, if yes { "yes" } else { "no" })
}

/// Decodes bytes in hexadecimal.
pub(crate) fn bytes_of(alloc: Global, text: &str) -> Result<Vec<u8>, Unread> {
    match hex::decode(alloc, text) {
        Ok(bytes) => Ok(bytes),
        Err(_) => Err(Unread::Form),
    }
}
