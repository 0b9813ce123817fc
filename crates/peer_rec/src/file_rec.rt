//! `FileRec`: a record as a file contains it; and `MAX_ATTEMPTS`.

use host_io::ListOf;
use net_addr::{NetAddr, Peer};

/// Tries since the last success of a record in a file, at most.
pub const MAX_ATTEMPTS: u32 = 2_147_483_647;

/// What a file of peers has of a record. Times are seconds since 1970, 0 if the event has not
/// happened (`AddrInfo` in addrman_impl.h of Bitcoin Core, as it is serialized).
#[derive(Clone, Copy, Debug, PartialEq, Eq, Drop)]
pub struct FileRec {
    pub peer: Peer,
    /// The address that first announced the peer.
    pub source: NetAddr,
    /// When the peer was last seen, as far as the node knows.
    pub time: u32,
    pub services: u64,
    pub last_success: u32,
    /// Tries since the last success.
    pub attempts: u32,
}

/// The records of a file in their order.
pub type FileRecs = ListOf<FileRec>;
