//! `Rec`: number, peer, source and times of a record, with `terrible` (`IsTerrible`) and `chance`
//! (`GetChance`) and their limits in seconds.

ghost use Rattle.std.specs.Prelude.{◌≡◌, ◌≤◌, ◌*◌, ◌/◌, ◌^◌, min};
ghost use Rattle.peer_rec.specs.Rec.{next_factor};

use crate::Place;
use host_io::ListOf;
use net_addr::{Net, NetAddr, Peer};

/// Seconds for which a record stays after it was tried.
const LAST_MINUTE: u64 = 60;
/// Seconds that a time may lie ahead of the clock.
const AHEAD: u64 = 600;
/// Seconds after which a peer that was not seen is forgotten (`ADDRMAN_HORIZON` in addrman.cpp of
/// Bitcoin Core).
const HORIZON: u64 = 2_592_000;
/// From this many tries on, a peer that never succeeded is given up (`ADDRMAN_RETRIES`).
const RETRIES: u32 = 3;
/// A peer is given up after more seconds than this without a success, if it was tried as often as
/// `MAX_FAILURES` (`ADDRMAN_MIN_FAIL`).
const MIN_FAIL: u64 = 604_800;
/// The tries that are too many then (`ADDRMAN_MAX_FAILURES`).
const MAX_FAILURES: u32 = 10;
/// Seconds in which a try counts as recent.
const RECENT: u64 = 600;
/// The factor of a search after which it grows no more.
const MAX_FACTOR: u64 = 1 << 60;

/// What is known of a peer. Times are seconds since 1970, 0 if the event has not happened
/// (`AddrInfo` in addrman_impl.h of Bitcoin Core).
#[derive(Drop)]
pub struct Rec {
    /// What Bitcoin Core calls nId: given in order and never used again. Our `id` of a record is
    /// its key in the slab, which is used again.
    pub number: u64,
    pub peer: Peer,
    /// The address that first announced the peer.
    pub source: NetAddr,
    /// When the peer was last seen, as far as the node knows.
    pub time: u32,
    pub services: u64,
    pub last_success: u32,
    pub last_try: u32,
    /// The last try that was counted as a failure.
    pub last_count: u32,
    /// Tries since the last success, at most 2147483647.
    pub attempts: u32,
    pub place: Place,
}

impl Rec {
    ghost use Rattle.std.specs.Prelude.{◌<◌, length};
    ghost use Rattle.peer_rec.specs.declared.buckets.TheConstants.{MAX_LISTS};
    ghost use Rattle.peer_rec.specs.declared.place.Place.TheVariants.{New};
    ghost use Rattle.peer_rec.specs.Rec.{buckets_of, is_terrible, chance, network};
    ghost use Rattle.peer_rec.specs.Buckets.{with_bucket, without_bucket};

    /// Returns a copy of the record. Takes no memory.
    pub fn copy(&self) -> Rec
        ensures { result ≡ self.now }
    {
        Rec {
            number: self.number,
            peer: self.peer,
            source: self.source,
            time: self.time,
            services: self.services,
            last_success: self.last_success,
            last_try: self.last_try,
            last_count: self.last_count,
            attempts: self.attempts,
            place: self.place.copy(),
        }
    }

    /// Returns the network of the record's address, or `Unroutable` if the address is not routable.
    pub fn network(&self) -> Net
        ensures { result ≡ network self.now }
    {
        if self.peer.addr.is_routable() {
            self.peer.addr.net()
        } else {
            Net::Unroutable
        }
    }

    /// Returns the record in the new table with `bucket` added. Fewer than `MAX_LISTS` buckets must
    /// list it.
    pub fn with_bucket(&self, bucket: u16) -> Rec
        requires room { length (buckets_of self.now) < MAX_LISTS }
        ensures { result
            ≡ record self.now { place = New (with_bucket bucket (buckets_of self.now)) } }
    {
        let place = self.place.with_bucket(bucket);
        Rec {
            place,
            ..self.copy()
        }
    }

    /// Returns the record in the new table without `bucket`.
    pub fn without_bucket(&self, bucket: u16) -> Rec
        ensures { result
            ≡ record self.now { place = New (without_bucket bucket (buckets_of self.now)) } }
    {
        let place = self.place.without_bucket(bucket);
        Rec {
            place,
            ..self.copy()
        }
    }

    /// Returns `true` if the record is not worth keeping at the time `now`, in seconds since 1970
    /// (`AddrInfo::IsTerrible`).
    pub fn terrible(&self, now: u32) -> bool
        ensures { result ≡ is_terrible self.now now }
    {
        let now = u64::from(now);
        if now <= u64::from(self.last_try) + LAST_MINUTE {
            return false;
        }
        now + AHEAD < u64::from(self.time)
            || u64::from(self.time) + HORIZON < now
            || (self.last_success == 0 && self.attempts >= RETRIES)
            || (u64::from(self.last_success) + MIN_FAIL < now && self.attempts >= MAX_FAILURES)
    }

    /// Returns how likely the record is to be picked at the time `now`, in seconds since 1970, in
    /// parts of 2^30 (`AddrInfo::GetChance`, there a fraction).
    pub fn chance(&self, now: u32) -> u64
        ensures { result ≡ chance self.now now }
    {
        let parts = parts_after(self.attempts);
        if u64::from(now) < u64::from(self.last_try) + RECENT {
            parts / 100
        } else {
            parts
        }
    }
}

/// Returns what this many tries leave of 2^30 parts: 66 in 100 for each of the first eight, rounded
/// down once.
fn parts_after(attempts: u32) -> u64
    ensures { let tries = min attempts 8 in result ≡ (2 ^ 30 * 66 ^ tries) / 100 ^ tries }
{
    match attempts {
        0 => 1_073_741_824,
        1 => 708_669_603,
        2 => 467_721_938,
        3 => 308_696_479,
        4 => 203_739_676,
        5 => 134_468_186,
        6 => 88_749_003,
        7 => 58_574_342,
        _ => 38_659_065,
    }
}

/// Returns the factor that a search multiplies chances with after it refused one more record: a
/// fifth more (`AddrManImpl::Select_` in addrman.cpp of Bitcoin Core).
pub fn next_factor(factor: u64) -> u64
    requires max { factor ≤ 2 ^ 60 }
    ensures value { result ≡ next_factor factor }
    ensures max { result ≤ 2 ^ 60 }
{
    (factor + factor / 5).min(MAX_FACTOR)
}

/// A list of records.
pub type Recs = ListOf<Rec>;
