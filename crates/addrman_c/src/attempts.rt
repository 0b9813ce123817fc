//! What came of a connection: `addrman_good`, `addrman_attempt`, `addrman_connected` and
//! `addrman_set_services`.

ghost use Rattle.std.specs.Prelude.{◌≡◌, ◌≢◌};
ghost use Rattle.table_machine.specs.Tried.{attempt, connected, set_services};
ghost use Rattle.c_values.specs.Values.{peer_in};
ghost use Rattle.addrman_c.specs.Calls.{GoodCall, KnownCall, good_number};
ghost use Rattle.addrman_c.specs.OnHandle.{OnTables};

use c_handles::{Handle, Keyed};
use c_values::code::{ARGUMENT, CLOSED, OK};
use c_values::{AddrmanPeer, bit, read_peer};
use net_addr::Peer;
use peer_rec::Good;
use std::alloc::Global;
use tables::Tables;

/// Returns the number of an outcome in the header.
fn good_number(good: Good) -> u32
    ensures { result ≡ good_number good }
{
    match good {
        Good::Unknown => 0,
        Good::Already => 1,
        Good::Clash => 2,
        Good::Moved => 3,
    }
}

/// Records that a peer was reached.
fn good_on(
    tables: &mut Tables<'_, Keyed>,
    peer: Option<Peer>,
    testing: bool,
    now: u32,
    outcome: &mut u32,
) -> u32
    ensures call { GoodCall peer testing now tables.old result outcome.new tables.new }
    ensures same { result ≢ OK → outcome.new ≡ outcome.old }
{
    let Some(peer) = peer else {
        return ARGUMENT;
    };
    *outcome = good_number(node_calls::good(tables, &peer, testing, now));
    OK
}

/// Records that a peer was reached.
#[unsafe(no_mangle)]
pub extern "C" fn addrman_good(
    alloc: Global,
    handle: &mut Handle,
    peer: &AddrmanPeer,
    testing: bool,
    now: u32,
    outcome: &mut u32,
) -> u32
    ensures call { OnTables handle.old.loose.kept result handle.new.loose.kept
        (λ old new. GoodCall (peer_in peer.now) testing now old result outcome.new new) }
    ensures same { result ≢ OK → outcome.new ≡ outcome.old }
{
    let Some(mut kept) = handle.take(alloc) else {
        return CLOSED;
    };
    let code = good_on(&mut kept.tables, read_peer(peer), testing, now, outcome);
    handle.put(kept);
    code
}

/// Records a try to connect to a peer.
fn attempt_on(
    tables: &mut Tables<'_, Keyed>,
    peer: Option<Peer>,
    counted: bool,
    now: u32,
    known: &mut u32,
) -> u32
    ensures call { KnownCall peer (λ st peer. attempt st now peer counted) tables.old result
        known.new tables.new }
    ensures same { result ≢ OK → known.new ≡ known.old }
{
    let Some(peer) = peer else {
        return ARGUMENT;
    };
    *known = bit(node_calls::attempt(tables, &peer, counted, now));
    OK
}

/// Records a try to connect to a peer.
#[unsafe(no_mangle)]
pub extern "C" fn addrman_attempt(
    alloc: Global,
    handle: &mut Handle,
    peer: &AddrmanPeer,
    counted: bool,
    now: u32,
    known: &mut u32,
) -> u32
    ensures call { OnTables handle.old.loose.kept result handle.new.loose.kept
        (λ old new. KnownCall (peer_in peer.now) (λ st peer. attempt st now peer counted) old
        result known.new new) }
    ensures same { result ≢ OK → known.new ≡ known.old }
{
    let Some(mut kept) = handle.take(alloc) else {
        return CLOSED;
    };
    let code = attempt_on(&mut kept.tables, read_peer(peer), counted, now, known);
    handle.put(kept);
    code
}

/// Records that a peer was connected until now.
fn connected_on(
    tables: &mut Tables<'_, Keyed>,
    peer: Option<Peer>,
    now: u32,
    known: &mut u32,
) -> u32
    ensures call { KnownCall peer (λ st peer. connected st now peer) tables.old result known.new
        tables.new }
    ensures same { result ≢ OK → known.new ≡ known.old }
{
    let Some(peer) = peer else {
        return ARGUMENT;
    };
    *known = bit(node_calls::connected(tables, &peer, now));
    OK
}

/// Records that a peer was connected until now.
#[unsafe(no_mangle)]
pub extern "C" fn addrman_connected(
    alloc: Global,
    handle: &mut Handle,
    peer: &AddrmanPeer,
    now: u32,
    known: &mut u32,
) -> u32
    ensures call { OnTables handle.old.loose.kept result handle.new.loose.kept
        (λ old new. KnownCall (peer_in peer.now) (λ st peer. connected st now peer) old result
        known.new new) }
    ensures same { result ≢ OK → known.new ≡ known.old }
{
    let Some(mut kept) = handle.take(alloc) else {
        return CLOSED;
    };
    let code = connected_on(&mut kept.tables, read_peer(peer), now, known);
    handle.put(kept);
    code
}

/// Sets the services that a peer offers.
fn services_on(
    tables: &mut Tables<'_, Keyed>,
    peer: Option<Peer>,
    services: u64,
    known: &mut u32,
) -> u32
    ensures call { KnownCall peer (λ st peer. set_services st peer services) tables.old result
        known.new tables.new }
    ensures same { result ≢ OK → known.new ≡ known.old }
{
    let Some(peer) = peer else {
        return ARGUMENT;
    };
    *known = bit(node_calls::services(tables, &peer, services));
    OK
}

/// Sets the services that a peer offers.
#[unsafe(no_mangle)]
pub extern "C" fn addrman_set_services(
    alloc: Global,
    handle: &mut Handle,
    peer: &AddrmanPeer,
    services: u64,
    known: &mut u32,
) -> u32
    ensures call { OnTables handle.old.loose.kept result handle.new.loose.kept
        (λ old new. KnownCall (peer_in peer.now) (λ st peer. set_services st peer services) old
        result known.new new) }
    ensures same { result ≢ OK → known.new ≡ known.old }
{
    let Some(mut kept) = handle.take(alloc) else {
        return CLOSED;
    };
    let code = services_on(&mut kept.tables, read_peer(peer), services, known);
    handle.put(kept);
    code
}
