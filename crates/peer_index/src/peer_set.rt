//! `PeerSet`: a set of peers, used while a file is checked for duplicates.

use crate::counts::Counts;
use crate::index::PeerIndex;
use indexmap::IndexMap;
use memory::Memory;
use net_addr::Peer;
use slab::Slab;
use std::alloc::Global;
use std::hash::BuildHasher;
use std::marker::Model;
use std::sync::ledger::Ledger;
use steps::Steps;

/// Peers, each once. An index can be made of it, which takes over its hasher and its memory.
#[derive(Drop)]
pub struct PeerSet<H: BuildHasher> {
    /// As in an index, but the ids are not used.
    order: IndexMap<Peer, usize, H>,
}

impl<H: BuildHasher> Model for PeerSet<H> {
    ghost use Rattle.std.specs.Prelude.{List};
    ghost use Rattle.std.specs.Map.{keys_of};
    ghost use Rattle.net_addr.specs.declared.peer.Peer.{Peer};

    ghost Value = { List Peer };

    ghost view = { λ s. keys_of s.order.entries };
}

impl<H: BuildHasher> PeerSet<H> {
    ghost use Rattle.std.specs.Prelude.{◌≡◌, ◌+◌, ◌||◌, [], not, IfOk, OnOk, OnErr};
    ghost use Rattle.net_addr.specs.Same.{same_peer};
    ghost use Rattle.net_addr.specs.declared.peer.Peer.{Peer};
    ghost use Rattle.peer_index.specs.Peers.{has_peer};

    /// Makes an empty set with room for `count` peers.
    pub fn with_room(alloc: Global, hasher: H, count: usize) -> Result<PeerSet<H>, Memory>
    where
        H: Drop,
        ensures { IfOk result (λ set. set ≡ []) }
    {
        match IndexMap::with_capacity_and_hasher(alloc, count, hasher) {
            Ok(order) => Ok(PeerSet { order }),
            Err(_) => Err(Memory),
        }
    }

    /// Adds a peer, and returns whether it is new.
    pub fn add<L: Ledger>(&mut self, peer: &Peer, steps: &mut Steps<L>) -> Result<bool, Memory>
        ensures new { IfOk result (λ new. new ≡ not (has_peer self.old peer.now)) }
        ensures peers { OnOk result ((other : Peer) → has_peer self.new other
            ≡ (same_peer peer.now other || has_peer self.old other)) }
        ensures err { OnErr result (self.new ≡ self.old) }
        ensures steps { steps.new ≡ steps.old + 1 }
    {
        steps.tick();
        let Ok(old) = self.order.insert(*peer, 0) else {
            return Err(Memory);
        };
        Ok(old.is_none())
    }

    /// Makes an index with no records.
    pub fn into_index(self, alloc: Global) -> PeerIndex<H>
        ensures { result ≡ [] }
    {
        let mut order = self.order;
        order.clear();
        PeerIndex {
            recs: Slab::new(alloc),
            order,
            counts: Counts::none(),
        }
    }
}
