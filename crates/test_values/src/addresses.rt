//! The calls `address`, `peer`, `class`, `bytes`, `v1`, `ipv4` and `ipv6`.

use crate::fields::first_word;
use crate::text::{addr_text, bytes_of, hex_text, owned, peer_text, yes_or_no};
use crate::unread::Unread;
use net_addr::{Net, NetAddr, parse_addr, parse_ipv4, parse_ipv6, parse_peer, put_ipv4, put_ipv6};
use net_group::asmap_bits;
use std::alloc::Global;

/// `address TEXT`: the network, the bytes and the text of the address, if this text and these bytes
/// are the same address again.
fn address(alloc: Global, text: &str) -> Result<String, Unread> {
    let Some(addr) = parse_addr(text.as_bytes()) else {
        return owned(alloc, "none");
    };
    let printed = addr_text(alloc, &addr)?;
    if parse_addr(printed.as_bytes()) != Some(addr)
        || NetAddr::of(addr.net(), addr.bytes()) != Some(addr)
    {
        return owned(alloc, "another");
    }
    let bytes = hex_text(alloc, addr.bytes())?;
    Ok(format!(in alloc; "{:?} {bytes} {printed}", addr.net())?)
}

/// `peer TEXT`: the key of the peer, if its text is this one.
fn peer(alloc: Global, text: &str) -> Result<String, Unread> {
    let Some(peer) = parse_peer(text.as_bytes()) else {
        return owned(alloc, "none");
    };
    if peer_text(alloc, &peer)?.as_str() != text {
        return owned(alloc, "another text");
    }
    hex_text(alloc, peer.key_bytes().as_slice())
}

/// Returns the linked IPv4 address in hexadecimal.
fn linked(alloc: Global, addr: &NetAddr) -> Result<String, Unread> {
    match addr.linked_ipv4() {
        Some(linked) => Ok(format!(in alloc; "{linked:x}")?),
        None => owned(alloc, "-"),
    }
}

/// Returns the bits that are looked up in an asmap, in hexadecimal.
fn bits(alloc: Global, addr: &NetAddr) -> Result<String, Unread> {
    match asmap_bits(addr) {
        Some(bits) => Ok(format!(in alloc; "{bits:x}")?),
        None => owned(alloc, "-"),
    }
}

/// `class TEXT`: the class of the address, its linked IPv4 address and the bits that are looked up.
fn class(alloc: Global, text: &str) -> Result<String, Unread> {
    let Some(addr) = parse_addr(text.as_bytes()) else {
        return Err(Unread::Form);
    };
    let linked = linked(alloc, &addr)?;
    let bits = bits(alloc, &addr)?;
    Ok(format!(in alloc; "{:?} {linked} {bits}", addr.net_class())?)
}

/// Returns the network.
fn net_of(text: &str) -> Result<Net, Unread> {
    match text {
        "Unroutable" => Ok(Net::Unroutable),
        "Ipv4" => Ok(Net::Ipv4),
        "Ipv6" => Ok(Net::Ipv6),
        "Onion" => Ok(Net::Onion),
        "I2p" => Ok(Net::I2p),
        "Cjdns" => Ok(Net::Cjdns),
        "Internal" => Ok(Net::Internal),
        _ => Err(Unread::Form),
    }
}

/// `bytes NETWORK HEX`: whether these are the bytes of an address of the network.
fn is_address(alloc: Global, arguments: &str) -> Result<String, Unread> {
    let (net, bytes) = first_word(arguments);
    let bytes = bytes_of(alloc, bytes)?;
    let addr = NetAddr::of(net_of(net)?, bytes.as_slice());
    yes_or_no(alloc, addr.is_some())
}

/// `v1 HEX`: the address in 16 bytes, if its 16 bytes are these.
fn v1(alloc: Global, text: &str) -> Result<String, Unread> {
    let bytes = bytes_of(alloc, text)?;
    let Ok(bytes) = <[u8; 16]>::try_from(bytes.as_slice()) else {
        return Err(Unread::Form);
    };
    let addr = NetAddr::from_v1(&bytes);
    if addr.v1_bytes() != Some(bytes) {
        return owned(alloc, "other bytes");
    }
    addr_text(alloc, &addr)
}

/// Returns the number in hexadecimal, unless its text is another one.
fn digits_of(alloc: Global, bits: u128, is_text: bool) -> Result<String, Unread> {
    if is_text {
        return Ok(format!(in alloc; "{bits:x}")?);
    }
    owned(alloc, "another text")
}

/// `ipv6 TEXT`: the address as a number in hexadecimal, if its text is this one.
fn ipv6(alloc: Global, text: &str) -> Result<String, Unread> {
    let Some(bits) = parse_ipv6(text.as_bytes()) else {
        return owned(alloc, "none");
    };
    let mut out = Vec::new(alloc);
    let put = put_ipv6(bits, &mut out).is_ok();
    digits_of(alloc, bits, put && out.as_slice() == text.as_bytes())
}

/// `ipv4 TEXT`: the address as a number in hexadecimal, if its text is this one.
fn ipv4(alloc: Global, text: &str) -> Result<String, Unread> {
    let Some(bits) = parse_ipv4(text.as_bytes()) else {
        return owned(alloc, "none");
    };
    let mut out = Vec::new(alloc);
    let put = put_ipv4(bits, &mut out).is_ok();
    digits_of(
        alloc,
        u128::from(bits),
        put && out.as_slice() == text.as_bytes(),
    )
}

/// Answers the calls above.
pub(crate) fn answer(alloc: Global, name: &str, arguments: &str) -> Result<String, Unread> {
    match name {
        "address" => address(alloc, arguments),
        "peer" => peer(alloc, arguments),
        "class" => class(alloc, arguments),
        "bytes" => is_address(alloc, arguments),
        "v1" => v1(alloc, arguments),
        "ipv6" => ipv6(alloc, arguments),
        "ipv4" => ipv4(alloc, arguments),
        _ => Err(Unread::Form),
    }
}
