//! One record after an entry, a success or an attempt: `refresh`, `after_success`, `after_try`,
//! `stays` and `is_drawn`.

ghost use Rattle.std.specs.Prelude.{◌≡◌, ◌≤◌, ◌%◌, ◌^◌, ◌==◌, ◌||◌, nat_le, length, ◌+◌, min, slice_get};
ghost use Rattle.peer_rec.specs.Rec.{buckets_of, is_tried};
ghost use Rattle.peer_rec.specs.declared.buckets.TheConstants.{MAX_LISTS};
ghost use Rattle.table_machine.specs.Entries.{lag, penalty_of, refresh};
ghost use Rattle.table_machine.specs.Tried.{after_success, after_try, still_connected, with_services};
ghost use Rattle.table_machine.specs.Picks.{is_wanted};
ghost use Rattle.peer_rec.specs.declared.file_rec.TheConstants.{MAX_ATTEMPTS};

use net_addr::{Entry, NetAddr, NetSet};
use peer_rec::{MAX_ATTEMPTS, MAX_LISTS, Place, Rec};

/// An hour, in seconds.
const HOUR: u64 = 3600;
/// A day, in seconds.
const DAY: u64 = 86_400;

/// Returns the record with what an entry says of its peer, at a time in seconds since 1970: a later
/// time, less the penalty, and more services.
pub fn refresh(rec: &Rec, entry: &Entry, penalty: u32, now: u32) -> Rec
    ensures { result ≡ refresh rec.now entry.now penalty now }
{
    let mut fresh = rec.copy();
    let bound = u64::from(rec.time) + lag(now, entry.time) + u64::from(penalty);
    if bound < u64::from(entry.time) {
        fresh.time = entry.time.saturating_sub(penalty);
    }
    fresh.services |= entry.services;
    fresh
}

/// Returns how much older than an entry's time the stored time of a peer may be before it is
/// replaced, in seconds: an hour for a peer seen within a day, else a day.
fn lag(now: u32, time: u32) -> u64
    ensures value { result ≡ lag now time }
    ensures small { result ≤ 86400 }
{
    if u64::from(now) < u64::from(time) + DAY {
        HOUR
    } else {
        DAY
    }
}

/// Returns `true` if an entry gives its peer's record no bucket: the record has no earlier time, is
/// in the tried table, or is listed by `MAX_LISTS` buckets.
pub fn stays(rec: &Rec, entry: &Entry) -> bool
    ensures { result ≡ (nat_le entry.now.time rec.now.time || is_tried rec.now
        || length (buckets_of rec.now) == MAX_LISTS) }
{
    entry.time <= rec.time || rec.place.is_tried() || rec.place.bucket_count() == MAX_LISTS
}

/// Returns `true` if a random word selects one in two to the number of buckets.
pub fn is_drawn(count: usize, word: u64) -> bool
    requires { count ≤ MAX_LISTS }
    ensures { result ≡ (word % 2 ^ count == 0) }
{
    word % (1 << count) == 0
}

/// Returns the penalty of an entry, in seconds: none for a peer that announces itself.
pub fn penalty_of(entry: &Entry, source: &NetAddr, penalty: u32) -> u32
    ensures { result ≡ penalty_of entry.now source.now penalty }
{
    if entry.peer.addr == *source {
        0
    } else {
        penalty
    }
}

/// The seconds after which the time of a connected peer is replaced.
const TWENTY_MINUTES: u64 = 1200;

/// Returns the record of a peer that was reached at `now`, in seconds since 1970.
pub fn after_success(rec: &Rec, now: u32) -> Rec
    ensures { result ≡ after_success rec.now now }
{
    Rec {
        last_success: now,
        last_try: now,
        attempts: 0,
        ..rec.copy()
    }
}

/// Returns the record of a peer that was tried at `now`. With `counted`, the try counts as a
/// failure if the last one that counted is older than the last success of any peer
/// (`AddrManImpl::Attempt_` in addrman.cpp of Bitcoin Core).
pub fn after_try(rec: &Rec, last_good: u32, now: u32, counted: bool) -> Rec
    ensures { result ≡ after_try last_good now counted rec.now }
{
    let mut tried = rec.copy();
    tried.last_try = now;
    if counted && rec.last_count < last_good {
        tried.last_count = now;
        tried.attempts = one_more(rec.attempts);
    }
    tried
}

/// Adds one to the number of tries, up to `MAX_ATTEMPTS`.
fn one_more(attempts: u32) -> u32
    ensures { result ≡ min (attempts + 1) MAX_ATTEMPTS }
{
    if attempts < MAX_ATTEMPTS {
        attempts + 1
    } else {
        MAX_ATTEMPTS
    }
}

/// Returns the record of a peer that is connected: its time is replaced after twenty minutes
/// (`AddrManImpl::Connected_`).
pub fn still_connected(rec: &Rec, now: u32) -> Rec
    ensures { result ≡ still_connected now rec.now }
{
    let mut seen = rec.copy();
    if u64::from(rec.time) + TWENTY_MINUTES < u64::from(now) {
        seen.time = now;
    }
    seen
}

/// Returns the record of a peer with the services that it offers (`AddrManImpl::SetServices_`).
pub fn with_services(rec: &Rec, services: u64) -> Rec
    ensures { result ≡ with_services services rec.now }
{
    Rec {
        services,
        ..rec.copy()
    }
}

/// Returns `true` if the network of a record is in a set. It is `Unroutable` if the record's
/// address is not routable.
pub fn is_wanted(nets: NetSet, rec: &Rec) -> bool
    ensures { result ≡ is_wanted nets rec.now }
{
    nets.has(rec.network())
}

/// Returns the first bucket of the new table that lists a record, or `None` if none does.
pub fn first_bucket(rec: &Rec) -> Option<u16>
    ensures { result ≡ slice_get (buckets_of rec.now) 0 }
{
    match &rec.place {
        Place::New(buckets) => buckets.items().first().copied(),
        Place::Tried => None,
    }
}
