//! A peer that 1.2.3.4 announces is added.

use net_addr::{Entry, NetAddr, Peer};
use node_calls::add;
use std::hash::BuildHasher;
use tables::{Memory, Tables};

/// Returns the peer of this IPv4 address with the port 8333.
pub(crate) fn peer(octets: [u8; 4]) -> Peer {
    Peer {
        addr: NetAddr::ipv4(octets),
        port: 8333,
    }
}

/// Learns of a peer from 1.2.3.4, at a time in seconds since 1970.
pub(crate) fn learn<H: BuildHasher>(
    tables: &mut Tables<'_, H>,
    octets: [u8; 4],
    now: u32,
) -> Result<(), Memory> {
    let entry = Entry {
        time: now,
        services: 1,
        peer: peer(octets),
    };
    // Records are numbered, and the numbers of 2^63 records are not used up.
    if tables.next_number() < u64::MAX / 2 {
        add(tables, &entry, &NetAddr::ipv4([1, 2, 3, 4]), 7200, 0, now)?;
    }
    Ok(())
}
