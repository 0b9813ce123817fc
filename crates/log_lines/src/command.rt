//! `Command`: what a line asks for, with the values of its fields.

use crate::{WordSource, Words};
use host_io::Bytes;
use net_addr::{NetAddr, NetSet, Peer};

/// What a line of a log asks for. Times are in seconds since 1970.
#[derive(Drop)]
pub enum Command {
    /// Set the clock.
    Now {
        time: u32,
    },
    /// Take an `addr` message from a source; each of its entries uses one random word.
    Addr {
        source: NetAddr,
        payload: Bytes,
        words: Words,
    },
    /// Take an `addrv2` message from a source.
    Addr2 {
        source: NetAddr,
        payload: Bytes,
        words: Words,
    },
    /// A connection to a peer succeeded; with `testing`, the occupant of its tried slot stays.
    Good {
        peer: Peer,
        testing: bool,
    },
    /// A connection to a peer was tried; with `count`, it may count as a failure.
    Attempt {
        peer: Peer,
        count: bool,
    },
    /// A peer is still connected.
    Connected {
        peer: Peer,
    },
    /// A peer offers these services.
    Services {
        peer: Peer,
        services: u64,
    },
    /// Find a peer's record.
    Find {
        peer: Peer,
    },
    /// Count the records.
    Size,
    /// Select a peer to connect to, of one of these networks. The random words are drawn as they
    /// are needed.
    Select {
        new_only: bool,
        nets: NetSet,
        words: WordSource,
    },
    /// Select peers to announce, of these classes: at most `max` and at most `pct` percent of the
    /// records, 0 for no limit.
    Sample {
        max: u32,
        pct: u32,
        classes: NetSet,
        words: Words,
    },
    /// Decide on all collisions.
    Resolve,
    /// Select the occupant of a collision's slot.
    Clash {
        word: u64,
    },
    /// List all records.
    Dump,
    /// Save the tables.
    Save,
    /// Begin a save that is cut into steps.
    SaveBegin,
    /// Write this many bytes of a save.
    SaveStep {
        count: u32,
    },
    /// End a save.
    SaveEnd,
}
