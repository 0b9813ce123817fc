//! `Opener`: `judge`, `judge_feeler`, `add_peer`, `add_counted` and `close_peer`, with
//! `MAX_OUTBOUND` and `MAX_TRIES`.

ghost use Rattle.std.specs.Prelude.{◌≡◌, ◌<◌, ◌≤◌, ◌↔◌, [], length, Contains, IfOk, IsTrue};
ghost use Rattle.peer_open.specs.Groups.{AreApart, groups, peers, has_group, is_open, with_peer, without_peer};
ghost use Rattle.peer_open.specs.Verdicts.{judge, judge_feeler, is_recent};
ghost use Rattle.peer_open.specs.declared.outbound.Verdict as verdict;

use crate::outbound::Outbound;
use crate::rules::widened;
use crate::{MAX_COUNTED, Verdict};
use arrayvec::ArrayVec;
use net_addr::Peer;
use std::alloc::{AllocError, Global};
use std::marker::Model;

/// The maximum number of outbound peers at a time: eight that relay everything and two that relay
/// only blocks (`MAX_OUTBOUND_FULL_RELAY_CONNECTIONS` and `MAX_BLOCK_RELAY_ONLY_CONNECTIONS` in
/// net.h of Bitcoin Core).
pub const MAX_OUTBOUND: usize = 10;

/// The maximum number of tries for one connection (`CConnman::ThreadOpenConnections` in net.cpp).
pub const MAX_TRIES: u32 = 100;

/// Seconds for which a try of a peer is recent.
const RECENT_SECONDS: u32 = 600;

/// The last try that does not take a peer that was tried recently. This number is our own.
const LAST_STRICT_TRY: u32 = 30;

/// The open outbound peers with their network groups, in the order in which they were opened. No
/// two of them are in one group.
#[derive(Drop)]
pub struct Opener {
    open_peers: ArrayVec<Outbound, MAX_OUTBOUND>,
}

impl Model for Opener {
    ghost use Rattle.std.specs.Prelude.{List};
    ghost use Rattle.peer_open.specs.Groups.{Outbound, AreApart};

    ghost Value = { List Outbound };

    ghost view = { λ o. o.open_peers.items };

    ghost invariant = { λ o. AreApart o.open_peers.items };
}

impl Opener {
    /// Makes the opener of a node with no outbound peers.
    pub fn make() -> Opener
        ensures { result ≡ [] }
    {
        Opener {
            open_peers: ArrayVec::new(),
        }
    }

    /// Returns how many outbound peers are open.
    pub fn len(&self) -> usize
        ensures value { result ≡ length self.now }
        ensures few { length self.now ≤ MAX_OUTBOUND }
        ensures apart { AreApart self.now }
    {
        self.open_peers.len()
    }

    /// Decides whether to connect to a peer of this network group, at the time `now`, in the try of
    /// this number, the first of which is 1. `last_try` is when the peer was last tried. Times are
    /// in seconds since 1970.
    pub fn judge(&self, group: &[u8], last_try: u32, now: u32, tries: u32) -> Verdict
        ensures value { result ≡ judge self.now group.now last_try now tries }
        ensures same_group { result ≡ Verdict.SameGroup ↔ Contains (groups self.now) group.now }
        ensures recent { result ≡ Verdict.Recent
            ↔ ((¬ Contains (groups self.now) group.now) × IsTrue (is_recent last_try now tries)) }
    {
        let has_group = self.has_group(group);
        if has_group {
            Verdict::SameGroup
        } else {
            self.judge_feeler(last_try, now, tries)
        }
    }

    /// Decides whether to connect to a peer for a moment, to test whether it answers. Groups do not
    /// count for such a connection. The arguments are those of `judge`.
    pub fn judge_feeler(&self, last_try: u32, now: u32, tries: u32) -> Verdict
        ensures value { result ≡ judge_feeler last_try now tries }
        ensures recent { result ≡ Verdict.Recent ↔ IsTrue (is_recent last_try now tries) }
    {
        if is_recent(last_try, now, tries) {
            Verdict::Recent
        } else {
            Verdict::Take
        }
    }

    /// Appends a peer that was opened. There must be room for it, and no open peer in its group.
    pub fn add_peer(&mut self, peer: Peer, group: ArrayVec<u8, 11>)
        requires room { length self.old < MAX_OUTBOUND }
        requires group { ¬ Contains (groups self.old) group.items }
        ensures { self.new ≡ with_peer peer group.items self.old }
    {
        self.add_counted(peer, widened(&group));
    }

    /// Appends a peer that was opened, with the group that it counts in. There must be room for it,
    /// and no open peer in that group.
    pub fn add_counted(&mut self, peer: Peer, group: ArrayVec<u8, MAX_COUNTED>)
        requires room { length self.old < MAX_OUTBOUND }
        requires group { ¬ Contains (groups self.old) group.items }
        ensures { self.new ≡ with_peer peer group.items self.old }
    {
        self.open_peers.push(Outbound::of(peer, group));
    }

    /// Removes a peer that was closed. Returns `false` if it was not open.
    pub fn close_peer(&mut self, peer: &Peer) -> bool
        ensures answer { result ≡ is_open peer.now self.old }
        ensures known { IsTrue result ↔ Contains (peers self.old) peer.now }
        ensures without { self.new ≡ without_peer peer.now self.old }
    {
        let was_open = self.is_open(peer);
        self.open_peers.retain(|outbound| outbound.is_other(peer));
        was_open
    }

    /// Returns the open peers, in the order in which they were opened. It is the only call
    /// that takes memory.
    pub fn peers(&self, alloc: Global) -> Result<Vec<Peer>, AllocError>
        ensures { IfOk result (λ found. found.items ≡ peers self.now) }
    {
        let open_peers = self.open_peers.as_slice();
        let mut found = Vec::with_capacity(alloc, open_peers.len())?;
        for outbound in open_peers {
            found.push(outbound.peer())?;
        }
        Ok(found)
    }

    /// Returns `true` if an open peer is in the group.
    fn has_group(&self, group: &[u8]) -> bool
        ensures { result ≡ has_group group.now self.now }
    {
        self.open_peers
            .as_slice()
            .iter()
            .any(|outbound| outbound.is_in(group))
    }

    /// Returns `true` if the peer is open.
    fn is_open(&self, peer: &Peer) -> bool
        ensures { result ≡ is_open peer.now self.now }
    {
        self.open_peers
            .as_slice()
            .iter()
            .any(|outbound| outbound.is_of(peer))
    }
}

/// Returns `true` if a peer that was last tried at `last_try` is not taken at the time `now` in the
/// try of this number.
fn is_recent(last_try: u32, now: u32, tries: u32) -> bool
    ensures { result ≡ is_recent last_try now tries }
{
    now.saturating_sub(last_try) < RECENT_SECONDS && tries <= LAST_STRICT_TRY
}
