//! What calls of the tables answer: `Counts`, `Good`, `Picked`, `Fate`, `Resolved` and `Peers`.

use host_io::ListOf;
use net_addr::Peer;

/// How many records are in the new and in the tried table, and how many collisions there are:
/// records that were reached while their slot in the tried table was occupied.
#[derive(Clone, Copy, Debug, PartialEq, Eq)]
pub struct Counts {
    pub new_count: u32,
    pub tried_count: u32,
    pub clashes: u32,
}

/// What became of a record whose peer was reached (`AddrManImpl::Good_` in addrman.cpp of Bitcoin
/// Core).
#[derive(Clone, Copy, Debug, PartialEq, Eq)]
pub enum Good {
    /// No record of the peer is known.
    Unknown,
    /// It is in the tried table already.
    Already,
    /// Its slot of the tried table is taken, and the peer there is to be tested first.
    Clash,
    /// It went into the tried table.
    Moved,
}

/// What a pick from the tables gives (`AddrManImpl::Select_` in addrman.cpp of Bitcoin Core).
#[derive(Clone, Copy, Debug, PartialEq, Eq)]
pub enum Picked {
    /// A peer, and when it was last tried, in seconds since 1970.
    One(Peer, u32),
    /// No record is eligible.
    Nothing,
    /// The random words were used up before a record was taken.
    Exhausted,
}

/// A list of peers.
pub type Peers = ListOf<Peer>;

/// What becomes of a collision, a record whose slot of the tried table was occupied
/// (`AddrManImpl::ResolveCollisions_` in addrman.cpp of Bitcoin Core).
#[derive(Clone, Copy, Debug, PartialEq, Eq)]
pub enum Fate {
    /// It is dropped; the record stays where it is.
    Erased,
    /// It stays.
    Kept,
    /// Its record moves to the slot.
    Moved,
}

/// What became of the collisions, the records whose slot of the tried table was occupied
/// (`AddrManImpl::ResolveCollisions_` in addrman.cpp of Bitcoin Core).
#[derive(Clone, Copy, Debug, PartialEq, Eq)]
pub struct Resolved {
    /// Those that were dropped without a slot.
    pub erased: u32,
    /// Those that have the slot now.
    pub moved: u32,
    /// Those that wait for a later decision.
    pub kept: u32,
}
