//! `Verdict` on a candidate, and `Outbound`, an open peer with the group that it counts in.

ghost use Rattle.std.specs.Prelude.{◌≡◌, not};
ghost use Rattle.net_addr.specs.Same.{same_peer};
ghost use Rattle.peer_open.specs.Groups.{outbound, is_in_group};

use crate::MAX_COUNTED;
use arrayvec::ArrayVec;
use net_addr::{NetAddr, Peer};
use std::marker::Model;

/// Whether a node connects to the peer of a try.
#[derive(Clone, Copy, Debug, PartialEq, Eq)]
pub enum Verdict {
    /// Connect to it.
    Take,
    /// An open peer has its network group.
    SameGroup,
    /// It was tried too recently for an early try.
    Recent,
}

/// An open outbound peer, and the group that it counts in.
#[derive(Drop)]
pub(crate) struct Outbound {
    peer: Peer,
    group: ArrayVec<u8, MAX_COUNTED>,
}

impl Model for Outbound {
    ghost use Rattle.peer_open.specs.Groups.{Outbound as Peer, outbound};

    ghost Value = { Peer };

    ghost view = { λ o. outbound o.peer o.group.items };
}

impl Outbound {
    /// Makes an open peer with its group.
    pub(crate) fn of(peer: Peer, group: ArrayVec<u8, MAX_COUNTED>) -> Outbound
        ensures { result ≡ outbound peer group.items }
    {
        Outbound { peer, group }
    }

    /// Returns the peer.
    pub(crate) fn peer(&self) -> Peer
        ensures { result ≡ self.now.peer }
    {
        self.peer
    }

    /// Returns `true` if the peer is this one.
    pub(crate) fn is_of(&self, peer: &Peer) -> bool
        ensures { result ≡ same_peer self.now.peer peer.now }
    {
        self.peer == *peer
    }

    /// Returns `true` unless the peer is this one.
    pub(crate) fn is_other(&self, peer: &Peer) -> bool
        ensures { result ≡ not (same_peer self.now.peer peer.now) }
    {
        self.peer != *peer
    }

    /// Returns `true` if the peer is in this group.
    pub(crate) fn is_in(&self, group: &[u8]) -> bool
        ensures { result ≡ is_in_group group.now self.now }
    {
        self.group.as_slice() == group
    }
}

/// The value in the unused room of a list.
impl Default for Outbound {
    fn default() -> Outbound {
        let peer = Peer {
            addr: NetAddr::ipv4([0; 4]),
            port: 0,
        };
        Outbound::of(peer, ArrayVec::new())
    }
}
