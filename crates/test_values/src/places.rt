//! The calls `places`, `group`, `core-sum`, `source-buckets`, `choice`, `new-slot`, `hash` and
//! others.

use crate::fields::{RowFields, first_word};
use crate::text::{bytes_of, decimal, hex_text, owned};
use crate::unread::Unread;
use asmap_vm::check;
use net_addr::{NetAddr, Peer};
use placing::{Placer, SumRule, cheap};
use sha2::{Digest, Sha256};
use std::alloc::{AllocError, Global};

/// The asmap whose only row is 1.0.0.0/8 with the number 5.
const ASMAP: &str = "fb03ec0fb03fc0fe00fb03ec0fb03fc0fe00fb03ec0fb0fffffefffb03020001";

/// SHA-256 of SHA-256 of the bytes.
fn hashed_twice(bytes: &[u8]) -> [u8; 32] {
    Sha256::digest(Sha256::digest(bytes).as_slice())
}

/// The key of Bitcoin Core's own tests.
fn core_key() -> [u8; 32] {
    hashed_twice(&[1, 0, 0, 0])
}

/// Returns the new bucket and slot and the tried bucket and slot of the peer, if the source
/// announces it.
pub(crate) fn places(
    alloc: Global,
    placer: &Placer<'_>,
    peer: &Peer,
    source: &NetAddr,
) -> Result<String, AllocError> {
    let new = placer.new_bucket(peer, source);
    let tried = placer.tried_bucket(peer);
    let new_slot = placer.new_slot(peer, new);
    let tried_slot = placer.tried_slot(peer, tried);
    format!(in alloc; "{new} {new_slot} {tried} {tried_slot}")
}

/// `places PEER SOURCE`: the places under the key of zeros, and those under Bitcoin Core's.
fn both_places(alloc: Global, arguments: &str) -> Result<String, Unread> {
    let mut fields = RowFields::of(arguments);
    let peer = fields.peer()?;
    let source = fields.addr()?;
    let by_zero = places(alloc, &Placer::make([0; 32], None), &peer, &source)?;
    let by_core = places(alloc, &Placer::make(core_key(), None), &peer, &source)?;
    Ok(format!(in alloc; "{by_zero}, {by_core}")?)
}

/// Returns the number and the group of the address.
fn group(alloc: Global, placer: &Placer<'_>, text: &str) -> Result<String, Unread> {
    let addr = RowFields::of(text).addr()?;
    let group = hex_text(alloc, placer.group(&addr).as_slice())?;
    Ok(format!(in alloc; "{} {group}", placer.asn(&addr))?)
}

/// `mapped-group ADDRESS`: the number and the group under the asmap. `asmap-sum`: the sum of the
/// asmap that the placer has.
fn mapped(alloc: Global, name: &str, text: &str) -> Result<String, Unread> {
    let bytes = bytes_of(alloc, ASMAP)?;
    let Ok(asmap) = check(bytes.as_slice()) else {
        return Err(Unread::Form);
    };
    let placer = Placer::make([0; 32], Some(asmap));
    if name == "asmap-sum" {
        return hex_text(alloc, placer.sum().as_slice());
    }
    group(alloc, &placer, text)
}

/// `core-sum ASMAP`: the checksum of the asmap as Bitcoin Core has it, the last byte first.
fn core_sum(alloc: Global, hex: &str) -> Result<String, Unread> {
    let bytes = bytes_of(alloc, hex)?;
    let Ok(asmap) = check(bytes.as_slice()) else {
        return Err(Unread::Form);
    };
    let placer = Placer::make([0; 32], Some(asmap)).with_rule(SumRule::Bits);
    let mut sum = placer.sum();
    sum.reverse();
    hex_text(alloc, sum.as_slice())
}

/// `key`: the key of the placer that has Bitcoin Core's, and the sum of one without an asmap.
fn key(alloc: Global) -> Result<String, Unread> {
    let placer = Placer::make(core_key(), None);
    let key = hex_text(alloc, placer.key().as_slice())?;
    let sum = hex_text(alloc, placer.sum().as_slice())?;
    Ok(format!(in alloc; "{key} {sum}")?)
}

/// `source-buckets GROUP`: the 64 new buckets of the source group. `group-buckets GROUP`: the eight
/// tried buckets of the group.
fn buckets(alloc: Global, name: &str, hex: &str) -> Result<String, Unread> {
    let group = bytes_of(alloc, hex)?;
    if group.len() > 11 {
        return Err(Unread::Unmet);
    }
    let zero = Placer::make([0; 32], None);
    if name == "source-buckets" {
        return Ok(format!(in alloc; "{:?}", zero.source_buckets(group.as_slice()))?);
    }
    Ok(format!(in alloc; "{:?}", zero.group_buckets(group.as_slice()))?)
}

/// `choice PEER-GROUP SOURCE-GROUP`: the bucket that the choice among the source's gives.
fn choice(alloc: Global, arguments: &str) -> Result<String, Unread> {
    let (peer, source) = first_word(arguments);
    let peer = bytes_of(alloc, peer)?;
    let source = bytes_of(alloc, source)?;
    if peer.len() > 11 || source.len() > 11 {
        return Err(Unread::Unmet);
    }
    let zero = Placer::make([0; 32], None);
    let choice = zero.source_choice(peer.as_slice(), source.as_slice());
    decimal(
        alloc,
        u64::from(zero.source_bucket(source.as_slice(), choice)),
    )
}

/// `new-slot PEER BUCKET`: the slot of the peer in the bucket of the new table.
fn new_slot(alloc: Global, arguments: &str) -> Result<String, Unread> {
    let mut fields = RowFields::of(arguments);
    let peer = fields.peer()?;
    let bucket = fields.number()?;
    if bucket >= 1024 {
        return Err(Unread::Unmet);
    }
    let zero = Placer::make([0; 32], None);
    decimal(alloc, u64::from(zero.new_slot(&peer, bucket as u16)))
}

/// `next-port SLOT BUCKET`: the least port from 1 on with which 8.8.8.8 has the slot of the bucket.
fn next_port(alloc: Global, arguments: &str) -> Result<String, Unread> {
    let mut fields = RowFields::of(arguments);
    let slot = fields.number()?;
    let bucket = fields.number()?;
    let zero = Placer::make([0; 32], None);
    let addr = NetAddr::ipv4([8, 8, 8, 8]);
    for port in 1..u16::MAX {
        if u64::from(zero.new_slot(&Peer { addr, port }, (bucket % 1024) as u16)) == slot {
            return decimal(alloc, u64::from(port));
        }
    }
    owned(alloc, "none")
}

/// `hash HEX`: SHA-256 of SHA-256 of the bytes. `cheap HEX`: its first eight bytes as a number.
fn hash(alloc: Global, name: &str, bytes: &[u8]) -> Result<String, Unread> {
    if name == "hash" {
        return hex_text(alloc, hashed_twice(bytes).as_slice());
    }
    Ok(format!(in alloc; "{:x}", cheap(bytes))?)
}

/// Answers the calls above.
pub(crate) fn answer(alloc: Global, name: &str, arguments: &str) -> Result<String, Unread> {
    match name {
        "places" => both_places(alloc, arguments),
        "group" => group(alloc, &Placer::make([0; 32], None), arguments),
        "mapped-group" | "asmap-sum" => mapped(alloc, name, arguments),
        "core-sum" => core_sum(alloc, arguments),
        "key" => key(alloc),
        "source-buckets" | "group-buckets" => buckets(alloc, name, arguments),
        "choice" => choice(alloc, arguments),
        "new-slot" => new_slot(alloc, arguments),
        "next-port" => next_port(alloc, arguments),
        "hash" | "cheap" => hash(alloc, name, bytes_of(alloc, arguments)?.as_slice()),
        _ => Err(Unread::Form),
    }
}
