//! `Reply`: the answer to a command, as a value.

use addr_codecs::MsgFault;
use net_addr::Peer;
use peer_rec::{Counts, Good, Peers, Picked, Rec, Recs, Resolved};

/// The answer to a command. Times are in seconds since 1970.
#[derive(Drop)]
pub enum Reply {
    /// The clock is set.
    Now { time: u32 },
    /// Of the entries of a message, how many got a slot.
    Added { accepted: u32, total: u32 },
    /// A message is refused, for its first fault.
    Refused(MsgFault),
    /// There are too few random words.
    Short { need: u32, have: u32 },
    /// The result of a connection to a peer.
    Good(Good),
    /// Whether the peer is known.
    Known(bool),
    /// The peer's record.
    Found(Option<Rec>),
    /// How many records there are.
    Size(Counts),
    /// The result of `select`.
    Picked(Picked),
    /// The peers of a sample.
    Sample(Peers),
    /// How many collisions had which result.
    Resolved(Resolved),
    /// The occupant of a collision's slot, and when it was last tried.
    Clash(Option<(Peer, u32)>),
    /// All records.
    Dump(Recs),
    /// The tables are saved.
    Saved,
    /// The folder failed, so the tables are not saved.
    NotSaved,
    /// A save is under way already.
    Busy,
    /// No save is under way.
    NoSave,
    /// A save has begun, of a file of this size in bytes.
    Begun { size: u64 },
    /// A part is written, and this many bytes are left.
    Stepped { left: u64 },
}
