//! AS numbers, groups and slots of an address: `addrman_asn`, `addrman_group`,
//! `addrman_asmap_check`, `addrman_new_slot` and `addrman_tried_slot`.

ghost use Rattle.std.specs.Prelude.{◌≡◌, ◌≢◌};
ghost use Rattle.c_values.specs.Values.{address_in, peer_in};
ghost use Rattle.addrman_c.specs.Groups.{AsnCall, GroupCall, CheckCall, NewSlotCall, TriedSlotCall};
ghost use Rattle.addrman_c.specs.OnHandle.{OnTables};

use c_handles::Handle;
use c_values::code::{ARGUMENT, CLOSED, OK, REFUSED, SHORT_BUFFER};
use c_values::{AddrmanAddr, AddrmanPeer, put_all, read_addr, read_peer};
use net_addr::{NetAddr, Peer};
use placing::Placer;
use slot_grid::NEW_BUCKETS;
use std::alloc::Global;

/// Tells whether bytes are an asmap.
#[unsafe(no_mangle)]
pub extern "C" fn addrman_asmap_check(bytes: &[u8]) -> u32
    ensures { CheckCall bytes.now result }
{
    match asmap_vm::check(bytes) {
        Ok(_) => OK,
        Err(_) => REFUSED,
    }
}

/// Tells the number of the autonomous system of an address.
fn asn_on(placer: &Placer<'_>, addr: Option<NetAddr>, asn: &mut u32) -> u32
    ensures call { AsnCall addr placer.now result asn.new }
    ensures same { result ≢ OK → asn.new ≡ asn.old }
{
    let Some(addr) = addr else {
        return ARGUMENT;
    };
    *asn = placer.asn(&addr);
    OK
}

/// Tells the number of the autonomous system that announces an address, 0 if none is known.
#[unsafe(no_mangle)]
pub extern "C" fn addrman_asn(
    alloc: Global,
    handle: &mut Handle,
    addr: &AddrmanAddr,
    asn: &mut u32,
) -> u32
    ensures call { OnTables handle.old.loose.kept result handle.new.loose.kept
        (λ old new. AsnCall (address_in addr.now) old.places result asn.new × (new ≡ old)) }
    ensures same { result ≢ OK → asn.new ≡ asn.old }
{
    let Some(kept) = handle.take(alloc) else {
        return CLOSED;
    };
    let code = asn_on(kept.tables.placer(), read_addr(addr), asn);
    handle.put(kept);
    code
}

/// Writes the network group of an address, and its length.
fn group_on(placer: &Placer<'_>, addr: Option<NetAddr>, out: &mut [u8], length: &mut usize) -> u32
    ensures call { GroupCall addr placer.now result out.old out.new length.new }
    ensures length { result ≢ OK → result ≢ SHORT_BUFFER → length.new ≡ length.old }
{
    let Some(addr) = addr else {
        return ARGUMENT;
    };
    put_all(out, placer.group(&addr).as_slice(), length)
}

/// Writes the network group of an address, at most 11 bytes, and its length.
#[unsafe(no_mangle)]
pub extern "C" fn addrman_group(
    alloc: Global,
    handle: &mut Handle,
    addr: &AddrmanAddr,
    out: &mut [u8],
    length: &mut usize,
) -> u32
    ensures call { OnTables handle.old.loose.kept result handle.new.loose.kept
        (λ old new. GroupCall (address_in addr.now) old.places result out.old out.new length.new
        × (new ≡ old)) }
    ensures same { result ≢ OK → out.new ≡ out.old }
    ensures length { result ≢ OK → result ≢ SHORT_BUFFER → length.new ≡ length.old }
{
    let Some(kept) = handle.take(alloc) else {
        return CLOSED;
    };
    let code = group_on(kept.tables.placer(), read_addr(addr), out, length);
    handle.put(kept);
    code
}

/// Tells the slot of a peer in a bucket of the new table.
fn new_slot_on(placer: &Placer<'_>, peer: Option<Peer>, bucket: u16, slot: &mut u32) -> u32
    ensures call { NewSlotCall peer bucket placer.now result slot.new }
    ensures same { result ≢ OK → slot.new ≡ slot.old }
{
    let Some(peer) = peer else {
        return ARGUMENT;
    };
    if bucket >= NEW_BUCKETS {
        return ARGUMENT;
    }
    *slot = u32::from(placer.new_slot(&peer, bucket));
    OK
}

/// Tells the slot of a peer in a bucket of the new table.
#[unsafe(no_mangle)]
pub extern "C" fn addrman_new_slot(
    alloc: Global,
    handle: &mut Handle,
    peer: &AddrmanPeer,
    bucket: u16,
    slot: &mut u32,
) -> u32
    ensures call { OnTables handle.old.loose.kept result handle.new.loose.kept (λ old new.
        NewSlotCall (peer_in peer.now) bucket old.places result slot.new × (new ≡ old)) }
    ensures same { result ≢ OK → slot.new ≡ slot.old }
{
    let Some(kept) = handle.take(alloc) else {
        return CLOSED;
    };
    let code = new_slot_on(kept.tables.placer(), read_peer(peer), bucket, slot);
    handle.put(kept);
    code
}

/// Tells the bucket and the slot of a peer in the tried table.
fn tried_slot_on(placer: &Placer<'_>, peer: Option<Peer>, bucket: &mut u32, slot: &mut u32) -> u32
    ensures call { TriedSlotCall peer placer.now result bucket.new slot.new }
    ensures same { result ≢ OK → (bucket.new ≡ bucket.old) × (slot.new ≡ slot.old) }
{
    let Some(peer) = peer else {
        return ARGUMENT;
    };
    let found = placer.tried_bucket(&peer);
    *bucket = u32::from(found);
    *slot = u32::from(placer.tried_slot(&peer, found));
    OK
}

/// Tells the bucket and the slot of a peer in the tried table.
#[unsafe(no_mangle)]
pub extern "C" fn addrman_tried_slot(
    alloc: Global,
    handle: &mut Handle,
    peer: &AddrmanPeer,
    bucket: &mut u32,
    slot: &mut u32,
) -> u32
    ensures call { OnTables handle.old.loose.kept result handle.new.loose.kept (λ old new.
        TriedSlotCall (peer_in peer.now) old.places result bucket.new slot.new × (new ≡ old)) }
    ensures same { result ≢ OK → (bucket.new ≡ bucket.old) × (slot.new ≡ slot.old) }
{
    let Some(kept) = handle.take(alloc) else {
        return CLOSED;
    };
    let code = tried_slot_on(kept.tables.placer(), read_peer(peer), bucket, slot);
    handle.put(kept);
    code
}
