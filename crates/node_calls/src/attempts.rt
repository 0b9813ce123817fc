//! `good`, `attempt`, `connected` and `services`.

ghost use Rattle.std.specs.Prelude.{◌≡◌};
ghost use Rattle.table_machine.specs.Tried.{good, attempt, connected, set_services};

use net_addr::Peer;
use std::hash::BuildHasher;
use std::marker::Brand;
use std::sync::ledger::{Blank, Ledger};
use steps::Steps;
use tables::{Good, Tables};

/// Records that `peer` was reached, at a time in seconds since 1970 (`Tables::good`).
pub fn good<H: BuildHasher>(
    tables: &mut Tables<'_, H>,
    peer: &Peer,
    testing: bool,
    now: u32,
) -> Good
    ensures answer { result ≡ (good tables.old now peer.now testing).answer }
    ensures state { tables.new ≡ (good tables.old now peer.now testing).state }
{
    count_good::<H, Brand>(tables, peer, testing, now, Blank::new(1))
}

/// Does the same, and counts the steps on the counter that the token makes.
fn count_good<H: BuildHasher, L: Ledger>(
    tables: &mut Tables<'_, H>,
    peer: &Peer,
    testing: bool,
    now: u32,
    blank: Blank,
) -> Good
    requires name { blank.name ≡ L.name }
    requires parts { blank.parts ≡ L.parts }
    requires one { blank.parts ≡ 1 }
    ensures answer { result ≡ (good tables.old now peer.now testing).answer }
    ensures state { tables.new ≡ (good tables.old now peer.now testing).state }
{
    let mut steps = Steps::<L>::none(blank);
    tables.good(peer, testing, now, &mut steps)
}

/// Records a try to connect to `peer`, at a time in seconds since 1970. Returns `false` if the
/// peer is unknown (`Tables::attempt`).
pub fn attempt<H: BuildHasher>(
    tables: &mut Tables<'_, H>,
    peer: &Peer,
    counted: bool,
    now: u32,
) -> bool
    ensures answer { result ≡ (attempt tables.old now peer.now counted).answer }
    ensures state { tables.new ≡ (attempt tables.old now peer.now counted).state }
{
    count_attempt::<H, Brand>(tables, peer, counted, now, Blank::new(1))
}

/// Does the same, and counts the steps on the counter that the token makes.
fn count_attempt<H: BuildHasher, L: Ledger>(
    tables: &mut Tables<'_, H>,
    peer: &Peer,
    counted: bool,
    now: u32,
    blank: Blank,
) -> bool
    requires name { blank.name ≡ L.name }
    requires parts { blank.parts ≡ L.parts }
    requires one { blank.parts ≡ 1 }
    ensures answer { result ≡ (attempt tables.old now peer.now counted).answer }
    ensures state { tables.new ≡ (attempt tables.old now peer.now counted).state }
{
    let mut steps = Steps::<L>::none(blank);
    tables.attempt(peer, counted, now, &mut steps)
}

/// Records that `peer` was connected until now, in seconds since 1970. Returns `false` if the peer
/// is unknown (`Tables::connected`).
pub fn connected<H: BuildHasher>(tables: &mut Tables<'_, H>, peer: &Peer, now: u32) -> bool
    ensures answer { result ≡ (connected tables.old now peer.now).answer }
    ensures state { tables.new ≡ (connected tables.old now peer.now).state }
{
    count_connected::<H, Brand>(tables, peer, now, Blank::new(1))
}

/// Does the same, and counts the steps on the counter that the token makes.
fn count_connected<H: BuildHasher, L: Ledger>(
    tables: &mut Tables<'_, H>,
    peer: &Peer,
    now: u32,
    blank: Blank,
) -> bool
    requires name { blank.name ≡ L.name }
    requires parts { blank.parts ≡ L.parts }
    requires one { blank.parts ≡ 1 }
    ensures answer { result ≡ (connected tables.old now peer.now).answer }
    ensures state { tables.new ≡ (connected tables.old now peer.now).state }
{
    let mut steps = Steps::<L>::none(blank);
    tables.connected(peer, now, &mut steps)
}

/// Sets the services that `peer` offers. Returns `false` if the peer is unknown
/// (`Tables::services`).
pub fn services<H: BuildHasher>(tables: &mut Tables<'_, H>, peer: &Peer, services: u64) -> bool
    ensures answer { result ≡ (set_services tables.old peer.now services).answer }
    ensures state { tables.new ≡ (set_services tables.old peer.now services).state }
{
    count_services::<H, Brand>(tables, peer, services, Blank::new(1))
}

/// Does the same, and counts the steps on the counter that the token makes.
fn count_services<H: BuildHasher, L: Ledger>(
    tables: &mut Tables<'_, H>,
    peer: &Peer,
    services: u64,
    blank: Blank,
) -> bool
    requires name { blank.name ≡ L.name }
    requires parts { blank.parts ≡ L.parts }
    requires one { blank.parts ≡ 1 }
    ensures answer { result ≡ (set_services tables.old peer.now services).answer }
    ensures state { tables.new ≡ (set_services tables.old peer.now services).state }
{
    let mut steps = Steps::<L>::none(blank);
    tables.services(peer, services, &mut steps)
}
