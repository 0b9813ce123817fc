//! Finds and counts records: `addrman_find`, `addrman_records`, `addrman_size` and
//! `addrman_size_of`.

ghost use Rattle.std.specs.Prelude.{◌≡◌, ◌≢◌, ◌%◌, length, count_by, not};
ghost use Rattle.net_addr.specs.NetBits.{nets_of};
ghost use Rattle.peer_rec.specs.Rec.{is_tried};
ghost use Rattle.table_machine.specs.Picks.{wanted_new, wanted_tried};
ghost use Rattle.c_values.specs.Values.{peer_in};
ghost use Rattle.addrman_c.specs.Calls.{FindCall, RecordsCall};
ghost use Rattle.addrman_c.specs.OnHandle.{OnTables};

use c_handles::{Handle, Keyed};
use c_values::code::{ARGUMENT, CLOSED, MEMORY, NONE, OK, SHORT_BUFFER};
use c_values::{
    AddrmanCounts, AddrmanPeer, AddrmanRecord, put_records, read_nets, read_peer, write_record,
};
use net_addr::{NetSet, Peer};
use std::alloc::Global;
use tables::Tables;

/// Finds the record of a peer.
pub(crate) fn find_on(
    tables: &Tables<'_, Keyed>,
    peer: Option<Peer>,
    out: &mut AddrmanRecord,
) -> u32
    ensures call { FindCall peer tables.now result out.new }
    ensures same { result ≢ OK → out.new ≡ out.old }
{
    let Some(peer) = peer else {
        return ARGUMENT;
    };
    match node_calls::find(tables, &peer) {
        Some(rec) => {
            *out = write_record(&rec);
            OK
        }
        None => NONE,
    }
}

/// Writes the record of a peer.
#[unsafe(no_mangle)]
pub extern "C" fn addrman_find(
    alloc: Global,
    handle: &mut Handle,
    peer: &AddrmanPeer,
    out: &mut AddrmanRecord,
) -> u32
    ensures call { OnTables handle.old.loose.kept result handle.new.loose.kept
        (λ old new. FindCall (peer_in peer.now) old result out.new × (new ≡ old)) }
    ensures same { result ≢ OK → out.new ≡ out.old }
{
    let Some(kept) = handle.take(alloc) else {
        return CLOSED;
    };
    let code = find_on(&kept.tables, read_peer(peer), out);
    handle.put(kept);
    code
}

/// Writes all records, whole or not at all, and how many they are.
fn records_on(tables: &Tables<'_, Keyed>, out: &mut [AddrmanRecord], length: &mut usize) -> u32
    ensures call { RecordsCall tables.now.records result out.old out.new length.new }
    ensures length { result ≢ OK → result ≢ SHORT_BUFFER → length.new ≡ length.old }
{
    match node_calls::recs(tables) {
        Ok(recs) => put_records(out, recs.items(), length),
        Err(_) => MEMORY,
    }
}

/// Writes all records in increasing order of their numbers, and how many they are.
#[unsafe(no_mangle)]
pub extern "C" fn addrman_records(
    alloc: Global,
    handle: &mut Handle,
    out: &mut [AddrmanRecord],
    length: &mut usize,
) -> u32
    ensures call { OnTables handle.old.loose.kept result handle.new.loose.kept (λ old new.
        RecordsCall old.records result out.old out.new length.new × (new ≡ old)) }
    ensures same { result ≢ OK → out.new ≡ out.old }
    ensures length { result ≢ OK → result ≢ SHORT_BUFFER → length.new ≡ length.old }
{
    let Some(kept) = handle.take(alloc) else {
        return CLOSED;
    };
    let code = records_on(&kept.tables, out, length);
    handle.put(kept);
    code
}

/// Counts the records and the collisions.
#[unsafe(no_mangle)]
pub extern "C" fn addrman_size(
    alloc: Global,
    handle: &mut Handle,
    counts: &mut AddrmanCounts,
) -> u32
    ensures call { OnTables handle.old.loose.kept result handle.new.loose.kept (λ old new.
        (result ≡ OK) × (counts.new.new_count ≡ count_by (λ r. not (is_tried r)) old.records)
        × (counts.new.tried_count ≡ count_by is_tried old.records)
        × (counts.new.collisions ≡ length old.collisions)
        × (new ≡ old)) }
    ensures same { result ≢ OK → counts.new ≡ counts.old }
{
    let Some(kept) = handle.take(alloc) else {
        return CLOSED;
    };
    let found = kept.tables.counts();
    handle.put(kept);
    *counts = AddrmanCounts {
        new_count: found.new_count,
        tried_count: found.tried_count,
        collisions: found.clashes,
    };
    OK
}

/// Counts the records of each table whose networks are in a set.
fn size_on(tables: &Tables<'_, Keyed>, nets: NetSet, new_count: &mut u32, tried_count: &mut u32)
    ensures new { new_count.new ≡ wanted_new tables.now nets }
    ensures tried { tried_count.new ≡ wanted_tried tables.now nets }
{
    let (new, tried) = tables.wanted(nets);
    *new_count = new;
    *tried_count = tried;
}

/// Counts the records of each table whose networks are in a set, that of those that are not
/// routable among them.
#[unsafe(no_mangle)]
pub extern "C" fn addrman_size_of(
    alloc: Global,
    handle: &mut Handle,
    nets: u32,
    new_count: &mut u32,
    tried_count: &mut u32,
) -> u32
    ensures call { OnTables handle.old.loose.kept result handle.new.loose.kept (λ old new.
        (result ≡ OK) × (new_count.new ≡ wanted_new old (nets_of (nets % 128)))
        × (tried_count.new ≡ wanted_tried old (nets_of (nets % 128)))
        × (new ≡ old)) }
    ensures same { result ≢ OK → (new_count.new ≡ new_count.old)
        × (tried_count.new ≡ tried_count.old) }
{
    let Some(kept) = handle.take(alloc) else {
        return CLOSED;
    };
    size_on(&kept.tables, read_nets(nets), new_count, tried_count);
    handle.put(kept);
    OK
}
