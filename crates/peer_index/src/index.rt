//! `PeerIndex` over a slab and a map: `add`, `remove`, `find`, `get`, `set`, `at` and `swap`.

ghost use Rattle.std.specs.Prelude.{◌≡◌};

use crate::counts::{Counts, sum};
use indexmap::IndexMap;
use memory::Memory;
use net_addr::{NetSet, Peer};
use peer_rec::Rec;
use slab::Slab;
use std::alloc::Global;
use std::hash::BuildHasher;
use std::marker::Model;
use std::sync::ledger::Ledger;
use steps::Steps;

/// The records of the tables in an order, each with an id that it keeps until it is removed. Only
/// `add` takes memory, and a peer is found by one look-up under the caller's hasher.
#[derive(Drop)]
pub struct PeerIndex<H: BuildHasher> {
    pub(crate) recs: Slab<Rec>,
    pub(crate) order: IndexMap<Peer, usize, H>,
    pub(crate) counts: Counts,
}

impl<H: BuildHasher> Model for PeerIndex<H> {
    ghost use Rattle.std.specs.Coded.{codes};
    ghost use Rattle.peer_index.specs.Order.{Order};
    ghost use Rattle.peer_index.specs.Inside.{order_of, IsIndex};

    ghost Value = { Order };

    ghost coded = { Prim.hlevel codes };

    ghost view = { λ i. order_of i.recs i.order.entries };

    ghost invariant = { λ i. IsIndex i.recs i.order.entries i.counts };
}

impl<H: BuildHasher> PeerIndex<H> {
    ghost use Rattle.std.specs.Prelude.{◌≡◌, ◌+◌, ◌<◌, ◌^◌, length, [], None, Some, IsSome, IfSome, IsSomeAnd, IfOk, OnOk, OnErr, swap, slice_get};
    ghost use Rattle.std.specs.Option.{ForSome};
    ghost use Rattle.peer_index.specs.Counts.{count_new, count_tried};
    ghost use Rattle.peer_index.specs.Order.{IsOrder, SameRecs, SameOthers, SameIds, SameOtherIds, id_of, rec_of, ids, records, with_item, with_rec, without};

    /// Makes an index with no records.
    pub fn make(alloc: Global, hasher: H) -> PeerIndex<H>
        ensures { result ≡ [] }
    {
        PeerIndex {
            recs: Slab::new(alloc),
            order: IndexMap::with_hasher(alloc, hasher),
            counts: Counts::none(),
        }
    }

    /// Takes room for more records.
    pub fn reserve(&mut self, additional: usize) -> Result<(), Memory>
        ensures { self.new ≡ self.old }
    {
        match self.recs.reserve_exact(additional) {
            Ok(()) => {}
            Err(_) => return Err(Memory),
        }
        match self.order.reserve(additional) {
            Ok(()) => Ok(()),
            Err(_) => Err(Memory),
        }
    }

    /// Returns the number of records.
    #[tactic(auto, using(crate::proofs::Kept::is_order))]
    pub fn len(&self) -> usize
        ensures count { result ≡ length self.now }
        ensures order { IsOrder self.now }
    {
        self.order.len()
    }

    /// Returns how many records of the new and of the tried table are of networks of a set. A
    /// record whose address is not routable counts for `Net::Unroutable`. No record is read.
    pub fn wanted(&self, nets: NetSet) -> (usize, usize)
        ensures new { result.0 ≡ count_new nets (records self.now) }
        ensures tried { result.1 ≡ count_tried nets (records self.now) }
    {
        (
            sum(&self.counts.in_new, nets),
            sum(&self.counts.in_tried, nets),
        )
    }

    /// Returns the id of the record of `peer`, or `None` if there is none.
    #[tactic(auto, using(crate::proofs::Kept::is_order))]
    pub fn find<L: Ledger>(&self, peer: &Peer, steps: &mut Steps<L>) -> Option<usize>
        ensures found { result ≡ id_of self.now peer.now }
        ensures live { IfSome result (λ id. IsSomeAnd (rec_of self.now id) (λ r. r.peer
            ≡ peer.now)) }
        ensures order { IsOrder self.now }
        ensures steps { steps.new ≡ steps.old + 1 }
    {
        steps.tick();
        self.order.get(peer).copied()
    }

    /// Returns the record with an id.
    #[tactic(auto, using(crate::proofs::Kept::known_by_peer, crate::proofs::Kept::rec_of_value, crate::proofs::Kept::is_order, crate::proofs::Kept::has_key))]
    pub fn get<L: Ledger>(&self, id: usize, steps: &mut Steps<L>) -> &Rec
        requires { IsSome (rec_of self.now id) }
        ensures found { rec_of self.now id ≡ Some result.now }
        ensures known { id_of self.now result.now.peer ≡ Some id }
        ensures order { IsOrder self.now }
        ensures steps { steps.new ≡ steps.old + 1 }
    {
        steps.tick();
        &self.recs[id]
    }

    /// Replaces the record under an id by another of the same peer.
    pub fn set<L: Ledger>(&mut self, id: usize, rec: Rec, steps: &mut Steps<L>)
        requires live { IsSome (rec_of self.old id) }
        requires peer { ForSome (rec_of self.old id) (λ r. r.peer ≡ rec.peer) }
        ensures set { self.new ≡ with_rec self.old id rec }
        ensures stored { rec_of self.new id ≡ Some rec }
        ensures others { SameOthers self.old self.new id }
        ensures same_ids { SameIds self.old self.new }
        ensures order { IsOrder self.new }
        ensures steps { steps.new ≡ steps.old + 1 }
    {
        steps.tick();
        let net = rec.network();
        let was_tried = self.recs[id].place.is_tried();
        self.counts.lower(net, was_tried);
        self.counts.raise(net, rec.place.is_tried());
        self.recs[id] = rec;
    }

    /// Appends the record of a new peer and returns its id. If memory runs out, nothing changes.
    pub fn add<L: Ledger>(&mut self, rec: Rec, steps: &mut Steps<L>) -> Result<usize, Memory>
        requires few { length self.old < 2 ^ 31 }
        requires absent { id_of self.old rec.peer ≡ None }
        ensures added { IfOk result (λ id. self.new ≡ with_item self.old id rec) }
        ensures fresh { IfOk result (λ id. rec_of self.old id ≡ None) }
        ensures stored { IfOk result (λ id. rec_of self.new id ≡ Some rec) }
        ensures others { IfOk result (SameOthers self.old self.new) }
        ensures known { IfOk result (λ id. id_of self.new rec.peer ≡ Some id) }
        ensures other_ids { OnOk result (SameOtherIds self.old self.new rec.peer) }
        ensures order { IsOrder self.new }
        ensures err { OnErr result (self.new ≡ self.old) }
        ensures steps { steps.new ≡ steps.old + 1 }
    {
        steps.tick();
        let peer = rec.peer;
        let net = rec.network();
        let in_tried = rec.place.is_tried();
        let id = self.recs.insert(rec)?;
        match self.order.insert(peer, id) {
            Ok(_) => {
                self.counts.raise(net, in_tried);
                Ok(id)
            }
            Err(_) => {
                let _ = self.recs.remove(id);
                Err(Memory)
            }
        }
    }

    /// Removes the record of `peer`. The last one of the order moves to its position.
    pub fn remove<L: Ledger>(&mut self, peer: &Peer, steps: &mut Steps<L>)
        requires { IsSome (id_of self.old peer.now) }
        ensures removed { self.new ≡ without self.old peer.now }
        ensures shorter { length self.new + 1 ≡ length self.old }
        ensures gone { IfSome (id_of self.old peer.now) (λ id. rec_of self.new id ≡ None) }
        ensures others { IfSome (id_of self.old peer.now) (SameOthers self.old self.new) }
        ensures absent { id_of self.new peer.now ≡ None }
        ensures other_ids { SameOtherIds self.old self.new peer.now }
        ensures order { IsOrder self.new }
        ensures steps { steps.new ≡ steps.old + 1 }
    {
        steps.tick();
        let gone = self.order.swap_remove(peer).unwrap();
        let rec = self.recs.remove(gone);
        self.counts.lower(rec.network(), rec.place.is_tried());
    }

    /// Returns the id of the record at a position in the order.
    #[tactic(auto, using(crate::proofs::Kept::is_order))]
    pub fn at<L: Ledger>(&self, position: usize, steps: &mut Steps<L>) -> usize
        requires { position < length self.now }
        ensures found { slice_get (ids self.now) position ≡ Some result }
        ensures rec { rec_of self.now result ≡ slice_get (records self.now) position }
        ensures order { IsOrder self.now }
        ensures steps { steps.new ≡ steps.old + 1 }
    {
        steps.tick();
        self.order[position]
    }

    /// Exchanges two positions in the order.
    pub fn swap<L: Ledger>(&mut self, i: usize, j: usize, steps: &mut Steps<L>)
        requires i { i < length self.old }
        requires j { j < length self.old }
        ensures swapped { self.new ≡ swap self.old i j }
        ensures same_recs { SameRecs self.old self.new }
        ensures same_ids { SameIds self.old self.new }
        ensures order { IsOrder self.new }
        ensures steps { steps.new ≡ steps.old + 1 }
    {
        steps.tick();
        self.order.swap_indices(i, j);
    }
}
