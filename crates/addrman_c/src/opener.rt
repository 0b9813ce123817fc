//! Outbound peers: `addrman_opener_judge`, `_add`, `_remove`, `_peers`, and `addrman_judge_feeler`.

ghost use Rattle.std.specs.Prelude.{◌≡◌, ◌≢◌};
ghost use Rattle.peer_open.specs.Verdicts.{judge_feeler};
ghost use Rattle.c_values.specs.Values.{peer_in};
ghost use Rattle.addrman_c.specs.Outbound.{verdict_number, JudgeCall, AddCall, OpenPeersCall, RemoveCall};
ghost use Rattle.addrman_c.specs.OnHandle.{OnHandle};

use c_handles::{Handle, Kept};
use c_values::code::{ARGUMENT, CLOSED, FULL, MEMORY, OK, SHORT_BUFFER};
use c_values::{AddrmanPeer, AddrmanPicked, bit, put_peers, read_peer};
use net_addr::Peer;
use peer_open::{MAX_OUTBOUND, Opener, Verdict};
use std::alloc::Global;

/// Returns the number of a verdict in the header.
fn verdict_number(verdict: Verdict) -> u32
    ensures { result ≡ verdict_number verdict }
{
    match verdict {
        Verdict::Take => 0,
        Verdict::SameGroup => 1,
        Verdict::Recent => 2,
    }
}

/// Decides whether to connect to a peer.
fn judge_on(
    kept: &Kept,
    peer: Option<Peer>,
    last_try: u32,
    now: u32,
    tries: u32,
    verdict: &mut u32,
) -> u32
    ensures call { JudgeCall peer last_try now tries kept.now result verdict.new }
    ensures same { result ≢ OK → verdict.new ≡ verdict.old }
{
    let Some(peer) = peer else {
        return ARGUMENT;
    };
    let group = kept.tables.placer().group(&peer.addr);
    *verdict = verdict_number(kept.opener.judge(group.as_slice(), last_try, now, tries));
    OK
}

/// Decides whether to connect to a candidate in the try of this number, the first of which is 1.
#[unsafe(no_mangle)]
pub extern "C" fn addrman_opener_judge(
    alloc: Global,
    handle: &mut Handle,
    candidate: &AddrmanPicked,
    now: u32,
    tries: u32,
    verdict: &mut u32,
) -> u32
    ensures call { OnHandle handle.old.loose.kept result handle.new.loose.kept (λ old new.
        JudgeCall (peer_in candidate.now.peer) candidate.now.last_try now tries old result
        verdict.new × (new ≡ old)) }
    ensures same { result ≢ OK → verdict.new ≡ verdict.old }
{
    let Some(kept) = handle.take(alloc) else {
        return CLOSED;
    };
    let peer = read_peer(&candidate.peer);
    let code = judge_on(&kept, peer, candidate.last_try, now, tries, verdict);
    handle.put(kept);
    code
}

/// Decides whether to connect to a peer for a moment, to test whether it answers.
#[unsafe(no_mangle)]
pub extern "C" fn addrman_judge_feeler(last_try: u32, now: u32, tries: u32) -> u32
    ensures { result ≡ verdict_number (judge_feeler last_try now tries) }
{
    verdict_number(Opener::make().judge_feeler(last_try, now, tries))
}

/// Notes that a peer was opened.
fn add_on(kept: &mut Kept, peer: Option<Peer>) -> u32
    ensures { AddCall peer kept.old result kept.new }
{
    let Some(peer) = peer else {
        return ARGUMENT;
    };
    if kept.opener.len() == MAX_OUTBOUND {
        return FULL;
    }
    let group = kept.tables.placer().group(&peer.addr);
    if kept.opener.judge(group.as_slice(), 0, 0, 1) == Verdict::SameGroup {
        return ARGUMENT;
    }
    kept.opener.add_peer(peer, group);
    OK
}

/// Notes that a peer was opened. There must be room for it, and no open peer in its group.
#[unsafe(no_mangle)]
pub extern "C" fn addrman_opener_add(alloc: Global, handle: &mut Handle, peer: &AddrmanPeer) -> u32
    ensures { OnHandle handle.old.loose.kept result handle.new.loose.kept
        (λ old new. AddCall (peer_in peer.now) old result new) }
{
    let Some(mut kept) = handle.take(alloc) else {
        return CLOSED;
    };
    let code = add_on(&mut kept, read_peer(peer));
    handle.put(kept);
    code
}

/// Notes that a peer was closed.
fn remove_on(kept: &mut Kept, peer: Option<Peer>, was_open: &mut u32) -> u32
    ensures call { RemoveCall peer kept.old result was_open.new kept.new }
    ensures same { result ≢ OK → was_open.new ≡ was_open.old }
{
    let Some(peer) = peer else {
        return ARGUMENT;
    };
    *was_open = bit(kept.opener.close_peer(&peer));
    OK
}

/// Notes that a peer was closed.
#[unsafe(no_mangle)]
pub extern "C" fn addrman_opener_remove(
    alloc: Global,
    handle: &mut Handle,
    peer: &AddrmanPeer,
    was_open: &mut u32,
) -> u32
    ensures call { OnHandle handle.old.loose.kept result handle.new.loose.kept
        (λ old new. RemoveCall (peer_in peer.now) old result was_open.new new) }
    ensures same { result ≢ OK → was_open.new ≡ was_open.old }
{
    let Some(mut kept) = handle.take(alloc) else {
        return CLOSED;
    };
    let code = remove_on(&mut kept, read_peer(peer), was_open);
    handle.put(kept);
    code
}

/// Writes the open peers.
fn peers_on(alloc: Global, opener: &Opener, out: &mut [AddrmanPeer], length: &mut usize) -> u32
    ensures call { OpenPeersCall opener.now result out.old out.new length.new }
    ensures same { result ≢ OK → out.new ≡ out.old }
    ensures length { result ≢ OK → result ≢ SHORT_BUFFER → length.new ≡ length.old }
{
    match opener.peers(alloc) {
        Ok(peers) => put_peers(out, peers.as_slice(), length),
        Err(_) => MEMORY,
    }
}

/// Writes the open peers in the order in which they were opened, and how many they are.
#[unsafe(no_mangle)]
pub extern "C" fn addrman_opener_peers(
    alloc: Global,
    handle: &mut Handle,
    out: &mut [AddrmanPeer],
    length: &mut usize,
) -> u32
    ensures call { OnHandle handle.old.loose.kept result handle.new.loose.kept (λ old new.
        OpenPeersCall old.opener result out.old out.new length.new × (new ≡ old)) }
    ensures same { result ≢ OK → out.new ≡ out.old }
    ensures length { result ≢ OK → result ≢ SHORT_BUFFER → length.new ≡ length.old }
{
    let Some(kept) = handle.take(alloc) else {
        return CLOSED;
    };
    let code = peers_on(alloc, &kept.opener, out, length);
    handle.put(kept);
    code
}
