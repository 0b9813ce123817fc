//! `first_pick`: 8.8.8.8 is announced and picked.

use net_addr::{Entry, NetAddr, NetSet, Peer};
use node_calls::{add, select};
use picking::Picked;
use placing::Placer;
use std::alloc::Global;
use std::hash::BuildHasher;
use tables::{Memory, Tables};

/// Learns of 8.8.8.8:8333 from 1.2.3.4, and picks a peer to connect to.
pub(crate) fn first_pick<H: BuildHasher + Drop>(
    alloc: Global,
    hasher: H,
    key: [u8; 32],
    words: &[u64],
    now: u32,
) -> Result<Picked, Memory> {
    let mut tables = Tables::open(alloc, Placer::make(key, None), hasher)?;
    let peer = Peer {
        addr: NetAddr::ipv4([8, 8, 8, 8]),
        port: 8333,
    };
    let entry = Entry {
        time: now,
        services: 1,
        peer,
    };
    let source = NetAddr::ipv4([1, 2, 3, 4]);
    add(&mut tables, &entry, &source, 7200, 0, now)?;
    Ok(select(&tables, false, NetSet::all(), words, now))
}
