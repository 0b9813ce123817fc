//! The structs of answers: `AddrmanPicked`, `AddrmanRecord`, `AddrmanFault`, `AddrmanBan`,
//! `AddrmanLimits` and others.

use crate::values::{AddrmanAddr, AddrmanPeer};

/// How many entries a message has, and how many of them got a slot.
#[repr(C)]
#[derive(Clone, Copy)]
pub struct AddrmanAdded {
    pub accepted: u32,
    pub total: u32,
}

/// An entry of a message: a peer, its services, and a time in seconds since 1970.
#[repr(C)]
#[derive(Clone, Copy)]
pub struct AddrmanEntry {
    pub services: u64,
    pub peer: AddrmanPeer,
    pub time: u32,
}

/// A peer that was picked, and when it was last tried, in seconds since 1970.
#[repr(C)]
#[derive(Clone, Copy)]
pub struct AddrmanPicked {
    pub peer: AddrmanPeer,
    pub last_try: u32,
}

/// How many records are in each table, and how many collisions there are.
#[repr(C)]
#[derive(Clone, Copy)]
pub struct AddrmanCounts {
    pub new_count: u32,
    pub tried_count: u32,
    pub collisions: u32,
}

/// How many collisions had which result.
#[repr(C)]
#[derive(Clone, Copy)]
pub struct AddrmanResolved {
    pub erased: u32,
    pub moved: u32,
    pub kept: u32,
}

/// A record. Times are seconds since 1970, 0 if the event has not happened.
#[repr(C)]
#[derive(Clone, Copy)]
pub struct AddrmanRecord {
    pub number: u64,
    pub services: u64,
    pub peer: AddrmanPeer,
    pub source: AddrmanAddr,
    pub time: u32,
    pub last_success: u32,
    pub last_try: u32,
    pub last_counted: u32,
    pub attempts: u32,
    pub buckets: [u16; 8],
    pub bucket_count: u32,
}

/// Why bytes are refused: the number of the fault in the header, and what it says besides, as an
/// index or a size.
#[repr(C)]
#[derive(Clone, Copy)]
pub struct AddrmanFault {
    pub kind: u32,
    pub at: u64,
}

/// A ban: the subnet's address and how many bits of it count, and when the ban was made and is
/// over, in seconds since 1970.
#[repr(C)]
#[derive(Clone, Copy)]
pub struct AddrmanBan {
    pub base: AddrmanAddr,
    pub prefix: u32,
    pub created: u32,
    pub until: u32,
}

/// A connection: its tokens in tenths, when they were last counted, how many entries were admitted
/// and dropped, whether getaddr was sent, and whether it has no limit.
#[repr(C)]
#[derive(Clone, Copy)]
pub struct AddrmanLimits {
    pub tenths: u32,
    pub moment: u32,
    pub processed: u32,
    pub limited: u32,
    pub asked: u32,
    pub unlimited: u32,
}
