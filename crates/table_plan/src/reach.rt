//! `Reach`: the 64 buckets of one source group, each kept once it has been computed.

ghost use Rattle.std.specs.Prelude.{◌≡◌, ◌≢◌, ℕ, ◌<◌, ◌≤◌, length, None, Some, slice_index_or};
ghost use Rattle.placing.specs.Places.{Places, source_bucket, new_bucket};
ghost use Rattle.placing.specs.declared.placer.TheConstants.{SOURCE_BUCKETS};
ghost use Rattle.table_plan.specs.Reach.{IsReach};
ghost use Rattle.slot_grid.specs.declared.sizes.TheConstants.{NEW_BUCKETS};
ghost use Rattle.net_group.specs.declared.network_group.TheConstants.{MAX_GROUP};

use arrayvec::ArrayVec;
use net_addr::{NetAddr, Peer};
use net_group::MAX_GROUP;
use placing::{Placer, SOURCE_BUCKETS};

/// The buckets that sources of one group reach, as far as they were computed. The entries of a
/// message come from one source.
#[derive(Drop)]
pub struct Reach {
    group: ArrayVec<u8, MAX_GROUP>,
    buckets: [Option<u16>; SOURCE_BUCKETS],
}

impl Reach {
    /// Makes an empty list of buckets.
    pub fn none() -> Reach
        ensures { (places : Places) → IsReach places result }
    {
        Reach {
            group: ArrayVec::new(),
            buckets: no_buckets(),
        }
    }

    /// Returns the bucket of a choice among those of a source's group. It is computed once as long
    /// as the group stays the same.
    fn bucket(&mut self, placer: &Placer<'_>, group: &[u8], choice: u8) -> u16
        requires reach { IsReach placer.now self.old }
        requires group { length group.now ≤ MAX_GROUP }
        requires choice { choice < SOURCE_BUCKETS }
        ensures value { result ≡ source_bucket placer.now group.now choice }
        ensures below { result < NEW_BUCKETS }
        ensures reach { IsReach placer.now self.new }
    {
        self.turn_to(group);
        match self.at(choice) {
            Some(bucket) => bucket,
            None => {
                let bucket = placer.source_bucket(group, choice);
                self.put(choice, bucket);
                bucket
            }
        }
    }

    /// Drops the buckets of another group.
    fn turn_to(&mut self, group: &[u8])
        requires { length group.now ≤ MAX_GROUP }
        ensures group { self.new.group.items ≡ group.now }
        ensures reach { (places : Places) → IsReach places self.old → IsReach places self.new }
    {
        if self.group.as_slice() == group {
            return;
        }
        self.group = list_of(group);
        self.buckets = no_buckets();
    }

    /// Returns the bucket of a choice, if it was computed.
    fn at(&self, choice: u8) -> Option<u16>
        requires { choice < SOURCE_BUCKETS }
        ensures { result ≡ slice_index_or self.now.buckets choice None }
    {
        self.buckets[usize::from(choice)]
    }

    /// Stores the bucket of a choice.
    fn put(&mut self, choice: u8, bucket: u16)
        requires { choice < SOURCE_BUCKETS }
        ensures group { self.new.group ≡ self.old.group }
        ensures put { slice_index_or self.new.buckets choice None ≡ Some bucket }
        ensures others { (other : ℕ) → other < SOURCE_BUCKETS → other ≢ choice
            → slice_index_or self.new.buckets other None
            ≡ slice_index_or self.old.buckets other None }
    {
        self.buckets[usize::from(choice)] = Some(bucket);
    }
}

/// Returns no bucket for any choice.
fn no_buckets() -> [Option<u16>; SOURCE_BUCKETS]
    ensures { (choice : ℕ) → choice < SOURCE_BUCKETS → slice_index_or result choice None ≡ None }
{
    [None; SOURCE_BUCKETS]
}

/// Returns a copy of the bytes of a group.
fn list_of(bytes: &[u8]) -> ArrayVec<u8, MAX_GROUP>
    requires { length bytes.now ≤ MAX_GROUP }
    ensures { result.items ≡ bytes.now }
{
    let mut list = ArrayVec::new();
    // A group has at most so many bytes, so it fits.
    let _ = list.try_extend_from_slice(bytes);
    list
}

/// Returns the bucket of the new table for a peer that a source announces
/// (`AddrInfo::GetNewBucket` in addrman.cpp of Bitcoin Core), from those that are stored.
#[tactic(auto, unfolding(placing::specs::Places::new_bucket))]
pub fn bucket_of(placer: &Placer<'_>, peer: &Peer, source: &NetAddr, reach: &mut Reach) -> u16
    requires { IsReach placer.now reach.old }
    ensures value { result ≡ new_bucket placer.now peer.now source.now }
    ensures below { result < NEW_BUCKETS }
    ensures reach { IsReach placer.now reach.new }
{
    let peer_group = placer.group(&peer.addr);
    let source_group = placer.group(source);
    let choice = placer.source_choice(peer_group.as_slice(), source_group.as_slice());
    reach.bucket(placer, source_group.as_slice(), choice)
}
