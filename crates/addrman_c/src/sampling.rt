//! Samples of peers, or of entries with times: `addrman_sample` and `addrman_sample_entries`.

ghost use Rattle.std.specs.Prelude.{◌≡◌, ◌≢◌, ◌%◌, IfOk, option_map};
ghost use Rattle.net_addr.specs.NetBits.{nets_of};
ghost use Rattle.addrman_c.specs.Sampling.{SampleCall, PutEntries, SampleEntriesCall, UnfilteredCall, entries_of, entry};
ghost use Rattle.addrman_c.specs.OnHandle.{OnTables};
ghost use Rattle.table_machine.specs.State.{find_peer};

use c_handles::{Handle, Keyed};
use c_values::code::{ARGUMENT, CLOSED, MEMORY, OK, SHORT_BUFFER, SHORT_WORDS};
use c_values::{
    AddrmanEntry, AddrmanPeer, AddrmanRecord, put_entries, put_peers, put_records, read_nets,
};
use net_addr::{Entry, Memory, NetSet, Peer};
use node_calls::sample_unfiltered;
use picking::SampleFault;
use std::alloc::Global;
use tables::Tables;

/// Samples peers to announce.
fn sample_on(
    alloc: Global,
    tables: &mut Tables<'_, Keyed>,
    max: u32,
    percent: u32,
    classes: NetSet,
    words: &[u64],
    now: u32,
    out: &mut [AddrmanPeer],
    length: &mut usize,
) -> u32
    ensures call { SampleCall max percent classes words.now now tables.old result out.old out.new
        length.new tables.new }
    ensures same { result ≢ OK → out.new ≡ out.old }
    ensures length { result ≢ OK → result ≢ SHORT_WORDS → result ≢ SHORT_BUFFER
        → length.new ≡ length.old }
{
    if percent > 100 {
        return ARGUMENT;
    }
    if words.len() > 0xffff_ffff {
        return ARGUMENT;
    }
    match node_calls::sample(alloc, tables, max, percent, classes, words, now) {
        Ok(peers) => put_peers(out, peers.items(), length),
        Err(SampleFault::ShortWords { need, .. }) => {
            *length = need as usize;
            SHORT_WORDS
        }
        Err(SampleFault::Memory) => MEMORY,
    }
}

/// Samples peers to announce by random words, of the classes of a set.
#[unsafe(no_mangle)]
pub extern "C" fn addrman_sample(
    alloc: Global,
    handle: &mut Handle,
    max: u32,
    percent: u32,
    classes: u32,
    words: &[u64],
    now: u32,
    out: &mut [AddrmanPeer],
    length: &mut usize,
) -> u32
    ensures call { OnTables handle.old.loose.kept result handle.new.loose.kept (λ old new.
        SampleCall max percent (nets_of (classes % 128)) words.now now old result out.old out.new
        length.new new) }
    ensures same { result ≢ OK → out.new ≡ out.old }
    ensures length { result ≢ OK → result ≢ SHORT_WORDS → result ≢ SHORT_BUFFER
        → length.new ≡ length.old }
{
    let Some(mut kept) = handle.take(alloc) else {
        return CLOSED;
    };
    let code = sample_on(
        alloc,
        &mut kept.tables,
        max,
        percent,
        read_nets(classes),
        words,
        now,
        out,
        length,
    );
    handle.put(kept);
    code
}

/// Returns what is said of a peer, if it has a record.
fn entry_of(tables: &Tables<'_, Keyed>, peer: &Peer) -> Option<Entry>
    ensures { result ≡ option_map entry (find_peer tables.now peer.now) }
{
    let rec = node_calls::find(tables, peer)?;
    Some(Entry {
        time: rec.time,
        services: rec.services,
        peer: rec.peer,
    })
}

/// Returns what is said of the records of some peers.
fn entries_of(
    alloc: Global,
    tables: &Tables<'_, Keyed>,
    peers: &[Peer],
) -> Result<Vec<Entry>, Memory>
    ensures found { IfOk result (λ es. es.items ≡ entries_of tables.now peers.now) }
{
    let mut entries = Vec::with_capacity(alloc, peers.len())?;
    for i in 0..peers.len() {
        if let Some(entry) = entry_of(tables, &peers[i]) {
            entries.push(entry)?;
        }
    }
    Ok(entries)
}

/// Writes what is said of the records of some peers.
fn put_entries_of(
    alloc: Global,
    tables: &Tables<'_, Keyed>,
    peers: &[Peer],
    out: &mut [AddrmanEntry],
    length: &mut usize,
) -> u32
    ensures call { PutEntries (entries_of tables.now peers.now) result out.old out.new length.new }
    ensures same { result ≢ OK → out.new ≡ out.old }
    ensures length { result ≢ OK → result ≢ SHORT_BUFFER → length.new ≡ length.old }
{
    match entries_of(alloc, tables, peers) {
        Ok(entries) => put_entries(out, entries.as_slice(), length),
        Err(_) => MEMORY,
    }
}

/// Samples peers to announce, with the times and services of their records.
fn sample_entries_on(
    alloc: Global,
    tables: &mut Tables<'_, Keyed>,
    max: u32,
    percent: u32,
    classes: NetSet,
    words: &[u64],
    now: u32,
    out: &mut [AddrmanEntry],
    length: &mut usize,
) -> u32
    ensures call { SampleEntriesCall max percent classes words.now now tables.old result out.old
        out.new length.new tables.new }
    ensures same { result ≢ OK → out.new ≡ out.old }
    ensures length { result ≢ OK → result ≢ SHORT_WORDS → result ≢ SHORT_BUFFER
        → length.new ≡ length.old }
{
    if percent > 100 {
        return ARGUMENT;
    }
    if words.len() > 0xffff_ffff {
        return ARGUMENT;
    }
    match node_calls::sample(alloc, tables, max, percent, classes, words, now) {
        Ok(peers) => put_entries_of(alloc, tables, peers.items(), out, length),
        Err(SampleFault::ShortWords { need, .. }) => {
            *length = need as usize;
            SHORT_WORDS
        }
        Err(SampleFault::Memory) => MEMORY,
    }
}

/// Samples peers to announce by random words, of the classes of a set, with the times and services
/// of their records.
#[unsafe(no_mangle)]
pub extern "C" fn addrman_sample_entries(
    alloc: Global,
    handle: &mut Handle,
    max: u32,
    percent: u32,
    classes: u32,
    words: &[u64],
    now: u32,
    out: &mut [AddrmanEntry],
    length: &mut usize,
) -> u32
    ensures call { OnTables handle.old.loose.kept result handle.new.loose.kept (λ old new.
        SampleEntriesCall max percent (nets_of (classes % 128)) words.now now old result out.old
        out.new length.new new) }
    ensures same { result ≢ OK → out.new ≡ out.old }
    ensures length { result ≢ OK → result ≢ SHORT_WORDS → result ≢ SHORT_BUFFER
        → length.new ≡ length.old }
{
    let Some(mut kept) = handle.take(alloc) else {
        return CLOSED;
    };
    let code = sample_entries_on(
        alloc,
        &mut kept.tables,
        max,
        percent,
        read_nets(classes),
        words,
        now,
        out,
        length,
    );
    handle.put(kept);
    code
}

/// Samples records, terrible ones among them.
fn unfiltered_on(
    alloc: Global,
    tables: &Tables<'_, Keyed>,
    max: u32,
    percent: u32,
    classes: NetSet,
    words: &[u64],
    out: &mut [AddrmanRecord],
    length: &mut usize,
) -> u32
    ensures call { UnfilteredCall max percent classes words.now tables.now result out.old out.new
        length.new }
    ensures same { result ≢ OK → out.new ≡ out.old }
    ensures length { result ≢ OK → result ≢ SHORT_WORDS → result ≢ SHORT_BUFFER
        → length.new ≡ length.old }
{
    if percent > 100 {
        return ARGUMENT;
    }
    if words.len() > 0xffff_ffff {
        return ARGUMENT;
    }
    match sample_unfiltered(alloc, tables, max, percent, classes, words) {
        Ok(recs) => put_records(out, recs.items(), length),
        Err(SampleFault::ShortWords { need, .. }) => {
            *length = need as usize;
            SHORT_WORDS
        }
        Err(SampleFault::Memory) => MEMORY,
    }
}

/// Samples records by random words, terrible ones among them, of the classes of a set.
#[unsafe(no_mangle)]
pub extern "C" fn addrman_sample_unfiltered(
    alloc: Global,
    handle: &mut Handle,
    max: u32,
    percent: u32,
    classes: u32,
    words: &[u64],
    out: &mut [AddrmanRecord],
    length: &mut usize,
) -> u32
    ensures call { OnTables handle.old.loose.kept result handle.new.loose.kept (λ old new.
        UnfilteredCall max percent (nets_of (classes % 128)) words.now old result out.old out.new
        length.new × (new ≡ old)) }
    ensures same { result ≢ OK → out.new ≡ out.old }
    ensures length { result ≢ OK → result ≢ SHORT_WORDS → result ≢ SHORT_BUFFER
        → length.new ≡ length.old }
{
    let Some(kept) = handle.take(alloc) else {
        return CLOSED;
    };
    let classes = read_nets(classes);
    let code = unfiltered_on(
        alloc,
        &kept.tables,
        max,
        percent,
        classes,
        words,
        out,
        length,
    );
    handle.put(kept);
    code
}
