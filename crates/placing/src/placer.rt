//! `Placer`, a key and an asmap: `new_bucket`, `tried_bucket`, `new_slot` and `tried_slot`, with
//! `SOURCE_BUCKETS` and `GROUP_BUCKETS`.

ghost use Rattle.std.specs.Prelude.{◌≡◌, ◌<◌, length, All};
ghost use Rattle.asmap_vm.specs.Held.{tree_held};
ghost use Rattle.net_group.specs.Group.{asmap_bits};
ghost use Rattle.net_group.specs.declared.network_group.TheConstants.{MAX_GROUP};
ghost use Rattle.placing.specs.declared.placer.TheConstants.{GROUP_BUCKETS, SOURCE_BUCKETS};
ghost use Rattle.placing.specs.Places.{number_by};
ghost use Rattle.slot_grid.specs.declared.sizes.TheConstants.{NEW_BUCKETS, TRIED_BUCKETS, SLOTS};

use crate::hash::{add_sized, finish};
use crate::sum::{SumRule, sum_by};
use arrayvec::ArrayVec;
use asmap_vm::{OwnedSane, Sane};
use net_addr::{NetAddr, Peer};
use net_group::{MAX_GROUP, asmap_bits};
use sha2::{Digest, Sha256};
use slot_grid::{NEW_BUCKETS, SLOTS, TRIED_BUCKETS};
use std::alloc::{AllocError, Global};
use std::array::from_fn;
use std::marker::Model;

/// The buckets of the new table for peers that sources of one group announce
/// (`ADDRMAN_NEW_BUCKETS_PER_SOURCE_GROUP` in addrman_impl.h of Bitcoin Core).
pub const SOURCE_BUCKETS: usize = 64;
/// The buckets of the tried table for peers of one group (`ADDRMAN_TRIED_BUCKETS_PER_GROUP`).
pub const GROUP_BUCKETS: usize = 8;

/// Where a placer has its asmap.
#[derive(Drop)]
pub(crate) enum Map<'a> {
    None,
    Lent(Sane<'a>),
    Owned(OwnedSane),
}

/// What buckets and slots depend on: a node's secret key, which nobody else knows, and the node's
/// asmap if it has one. The rule says what the checksum of the asmap is.
#[derive(Drop)]
pub struct Placer<'a> {
    key: [u8; 32],
    map: Map<'a>,
    rule: SumRule,
}

impl<'a> Model for Placer<'a> {
    ghost use Rattle.placing.specs.Places.{IsPlaces, Places, coded_places};
    ghost use Rattle.placing.specs.Inside.{map_in};

    ghost Value = { Places };

    ghost coded = { coded_places };

    ghost view = { λ p. record { key = p.key; map = map_in p.map; rule = p.rule } };

    ghost invariant = { λ p.
        IsPlaces (record { key = p.key; map = map_in p.map; rule = p.rule }) };
}

impl<'a> Placer<'a> {
    ghost use Rattle.std.specs.Prelude.{◌≤◌, [], ◌∷◌, Some, IfOk};
    ghost use Rattle.std.specs.Int.{w64, to_le_bytes};
    ghost use Rattle.std.specs.List.{Contains};
    ghost use Rattle.placing.specs.Places.{IsPlaces, hash_of, sized, slot, group_choice, asn, sum_of, group, source_bucket, source_buckets, source_choice, group_bucket, group_buckets, new_bucket, tried_bucket, new_slot, tried_slot};
    ghost use Rattle.placing.specs.Inside.{asmap_of, map_of};
    ghost use Rattle.placing.specs.declared.sum.SumRule.TheVariants.{Bytes};

    /// Makes the placer of a node with this key and this asmap, whose checksum is of its bytes.
    pub fn make(key: [u8; 32], asmap: Option<Sane<'a>>) -> Placer<'a>
        ensures { result ≡ record { key = key; map = map_of asmap.entry; rule = Bytes } }
    {
        let map = match asmap {
            Some(asmap) => Map::Lent(asmap),
            None => Map::None,
        };
        Placer {
            key: copied(&key),
            map,
            rule: SumRule::Bytes,
        }
    }

    /// Makes the placer of a node with this key, and keeps a copy of this asmap in it. Its checksum
    /// is of its bytes.
    pub fn with_copy(
        alloc: Global,
        key: [u8; 32],
        asmap: &Sane<'_>,
    ) -> Result<Placer<'a>, AllocError>
        ensures { IfOk result (λ placer.
            placer ≡ record { key = key; map = Some (asmap_of asmap.now); rule = Bytes }) }
    {
        Ok(Placer {
            key: copied(&key),
            map: Map::Owned(OwnedSane::copy_of(alloc, asmap)?),
            rule: SumRule::Bytes,
        })
    }

    /// Returns the placer with another rule for the checksum of its asmap.
    pub fn with_rule(self, rule: SumRule) -> Placer<'a>
        ensures { result ≡ record self.entry { rule = rule } }
    {
        Placer {
            key: self.key,
            map: self.map,
            rule,
        }
    }

    /// Returns the asmap.
    fn asmap(&self) -> Option<Sane<'_>>
        ensures { map_of result ≡ self.now.map }
    {
        match &self.map {
            Map::None => None,
            Map::Lent(asmap) => Some(*asmap),
            Map::Owned(asmap) => Some(asmap.lent()),
        }
    }

    /// Returns the node's secret key.
    pub fn key(&self) -> [u8; 32]
        ensures value { result ≡ self.now.key }
        ensures places { IsPlaces self.now }
    {
        self.key
    }

    /// Returns the checksum of the asmap by the placer's rule, 32 zero bytes if there is no asmap.
    pub fn sum(&self) -> [u8; 32]
        ensures { result ≡ sum_of self.now }
    {
        sum_by(self.rule, self.asmap())
    }

    /// Returns the number of the autonomous system that announces an address, 0 if none is known.
    pub fn asn(&self, addr: &NetAddr) -> u32
        ensures { result ≡ asn self.now.map addr.now }
    {
        match self.asmap() {
            Some(asmap) => number_of(&asmap, addr),
            None => 0,
        }
    }

    /// Returns the network group of an address: addresses of one group are assumed to have one
    /// owner.
    pub fn group(&self, addr: &NetAddr) -> ArrayVec<u8, MAX_GROUP>
        ensures { result.items ≡ group self.now addr.now }
    {
        net_group::group(addr, self.asn(addr))
    }

    /// Returns the index of the bucket for peers of one group among the buckets of a source group.
    pub fn source_choice(&self, peer_group: &[u8], source_group: &[u8]) -> u8
        requires peer { length peer_group.now ≤ MAX_GROUP }
        requires source { length source_group.now ≤ MAX_GROUP }
        ensures value { result ≡ source_choice self.now peer_group.now source_group.now }
        ensures below { result < SOURCE_BUCKETS }
    {
        let mut hasher = Sha256::new();
        hasher.update(self.key);
        add_sized(&mut hasher, peer_group);
        add_sized(&mut hasher, source_group);
        (finish(hasher) % SOURCE_BUCKETS as u64) as u8
    }

    /// Returns the bucket of the new table at an index among those of a source group.
    pub fn source_bucket(&self, source_group: &[u8], choice: u8) -> u16
        requires { length source_group.now ≤ MAX_GROUP }
        ensures value { result ≡ source_bucket self.now source_group.now choice }
        ensures below { result < NEW_BUCKETS }
    {
        (self.indexed(source_group, choice) % u64::from(NEW_BUCKETS)) as u16
    }

    /// Returns the bucket of the tried table at an index among those of a group.
    fn group_bucket(&self, group: &[u8], choice: u8) -> u16
        requires { length group.now ≤ MAX_GROUP }
        ensures value { result ≡ group_bucket self.now group.now choice }
        ensures below { result < TRIED_BUCKETS }
    {
        (self.indexed(group, choice) % u64::from(TRIED_BUCKETS)) as u16
    }

    /// Returns the hash of the key, a group and an index.
    fn indexed(&self, group: &[u8], index: u8) -> u64
        requires { length group.now ≤ MAX_GROUP }
        ensures { result ≡ hash_of (self.now.key ∷ sized group.now ∷ to_le_bytes w64 index ∷ []) }
    {
        let mut hasher = Sha256::new();
        hasher.update(self.key);
        add_sized(&mut hasher, group);
        hasher.update(u64::from(index).to_le_bytes());
        finish(hasher)
    }

    /// Returns the bucket of the new table for a peer that a source announces: one of the 64
    /// buckets of the source's group, so that one source reaches few buckets
    /// (`AddrInfo::GetNewBucket` in addrman.cpp of Bitcoin Core).
    #[tactic(auto, unfolding(crate::specs::Places::new_bucket))]
    pub fn new_bucket(&self, peer: &Peer, source: &NetAddr) -> u16
        ensures value { result ≡ new_bucket self.now peer.now source.now }
        ensures below { result < NEW_BUCKETS }
        ensures reach { Contains (source_buckets self.now (group self.now source.now)) result }
    {
        let peer_group = self.group(&peer.addr);
        let source_group = self.group(source);
        let choice = self.source_choice(peer_group.as_slice(), source_group.as_slice());
        self.source_bucket(source_group.as_slice(), choice)
    }

    /// Returns the bucket of the tried table for a peer: one of the 8 buckets of its group
    /// (`AddrInfo::GetTriedBucket`).
    #[tactic(auto, unfolding(crate::specs::Places::tried_bucket))]
    pub fn tried_bucket(&self, peer: &Peer) -> u16
        ensures value { result ≡ tried_bucket self.now peer.now }
        ensures below { result < TRIED_BUCKETS }
        ensures reach { Contains (group_buckets self.now (group self.now peer.now.addr)) result }
    {
        let group = self.group(&peer.addr);
        let choice = self.group_choice(peer);
        self.group_bucket(group.as_slice(), choice)
    }

    /// Returns the index of a peer's bucket among those of its group.
    fn group_choice(&self, peer: &Peer) -> u8
        ensures value { result ≡ group_choice self.now peer.now }
        ensures below { result < GROUP_BUCKETS }
    {
        let mut hasher = Sha256::new();
        hasher.update(self.key);
        add_sized(&mut hasher, peer.key_bytes().as_slice());
        (finish(hasher) % GROUP_BUCKETS as u64) as u8
    }

    /// Returns the slot of a peer in a bucket of the new table (`AddrInfo::GetBucketPosition` in
    /// addrman.cpp of Bitcoin Core).
    #[tactic(auto, unfolding(crate::specs::Places::new_slot))]
    pub fn new_slot(&self, peer: &Peer, bucket: u16) -> u8
        ensures value { result ≡ new_slot self.now peer.now bucket }
        ensures below { result < SLOTS }
    {
        self.slot(b'N', peer, bucket)
    }

    /// Returns the slot of a peer in a bucket of the tried table.
    #[tactic(auto, unfolding(crate::specs::Places::tried_slot))]
    pub fn tried_slot(&self, peer: &Peer, bucket: u16) -> u8
        ensures value { result ≡ tried_slot self.now peer.now bucket }
        ensures below { result < SLOTS }
    {
        self.slot(b'K', peer, bucket)
    }

    /// Returns the slot of a peer in a bucket of the table that the letter names.
    fn slot(&self, letter: u8, peer: &Peer, bucket: u16) -> u8
        ensures value { result ≡ slot letter self.now peer.now bucket }
        ensures below { result < SLOTS }
    {
        let mut hasher = Sha256::new();
        hasher.update(self.key);
        hasher.update([letter]);
        hasher.update(u32::from(bucket).to_le_bytes());
        add_sized(&mut hasher, peer.key_bytes().as_slice());
        (finish(hasher) % u64::from(SLOTS)) as u8
    }

    /// Returns the buckets of the new table for peers that sources of a group announce.
    pub fn source_buckets(&self, group: &[u8]) -> [u16; SOURCE_BUCKETS]
        requires { length group.now ≤ MAX_GROUP }
        ensures { result ≡ source_buckets self.now group.now }
    {
        let mut buckets = [0; SOURCE_BUCKETS];
        for i in 0..SOURCE_BUCKETS {
            buckets[i] = self.source_bucket(group, i as u8);
        }
        buckets
    }

    /// Returns the buckets of the tried table for peers of a group.
    pub fn group_buckets(&self, group: &[u8]) -> [u16; GROUP_BUCKETS]
        requires { length group.now ≤ MAX_GROUP }
        ensures { result ≡ group_buckets self.now group.now }
    {
        from_fn(|i| self.group_bucket(group, i as u8))
    }
}

/// Returns the number that an asmap gives for an address, 0 if the address is not looked up.
pub fn number_of(asmap: &Sane<'_>, addr: &NetAddr) -> u32
    ensures { result ≡ number_by (tree_held asmap.now) (asmap_bits addr.now) }
{
    match asmap_bits(addr) {
        Some(bits) => asmap.asn(bits),
        None => 0,
    }
}

/// Returns the bytes of a key. The clause `all` makes a placer's key one of bytes.
fn copied(key: &[u8]) -> [u8; 32]
    requires { length key.now ≡ 32 }
    ensures value { result ≡ key.now }
    ensures all { All (λ b. b < 256) key.now }
{
    let mut all = [0; 32];
    all.copy_from_slice(key);
    all
}
