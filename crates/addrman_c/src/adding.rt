//! Adds one entry, a message, or the first entries of one: `addrman_add`, `addrman_take_message`
//! and `addrman_take_first`; with `MOST_RECORDS`.

ghost use Rattle.std.specs.Prelude.{◌≡◌, ◌≢◌};
ghost use Rattle.c_values.specs.Values.{peer_in, address_in};
ghost use Rattle.addrman_c.specs.Calls.{AddCall, FirstCall, MessageCall, Tells, form_of};
ghost use Rattle.addrman_c.specs.OnHandle.{OnTables};

use addr_codecs::Form;
use c_handles::{Handle, Keyed};
use c_values::code::{ARGUMENT, CLOSED, FULL, MEMORY, OK, REFUSED, SHORT_WORDS};
use c_values::{
    AddrmanAdded, AddrmanAddr, AddrmanFault, AddrmanPeer, bit, fault_number, read_addr, read_peer,
};
use net_addr::{Entry, NetAddr, Peer};
use std::alloc::Global;
use tables::Tables;
use taking::{Added, MessageFault};

/// The next record number must be below this, so that a whole message fits.
pub(crate) const MOST_RECORDS: u64 = 1 << 62;

/// Adds an entry that `source` announced.
fn add_on(
    tables: &mut Tables<'_, Keyed>,
    peer: Option<Peer>,
    source: Option<NetAddr>,
    time: u32,
    services: u64,
    penalty: u32,
    word: u64,
    now: u32,
    accepted: &mut u32,
) -> u32
    ensures call { AddCall peer source time services penalty word now tables.old result accepted.new
        tables.new }
    ensures same { result ≢ OK → accepted.new ≡ accepted.old }
{
    let Some(peer) = peer else {
        return ARGUMENT;
    };
    let Some(source) = source else {
        return ARGUMENT;
    };
    if tables.next_number() >= MOST_RECORDS {
        return FULL;
    }
    let entry = Entry {
        time,
        services,
        peer,
    };
    match node_calls::add(tables, &entry, &source, penalty, word, now) {
        Ok(answer) => {
            *accepted = bit(answer);
            OK
        }
        Err(_) => MEMORY,
    }
}

/// Adds an entry that `source` announced, with a penalty in seconds and a random word.
#[unsafe(no_mangle)]
pub extern "C" fn addrman_add(
    alloc: Global,
    handle: &mut Handle,
    peer: &AddrmanPeer,
    source: &AddrmanAddr,
    time: u32,
    services: u64,
    penalty: u32,
    word: u64,
    now: u32,
    accepted: &mut u32,
) -> u32
    ensures call { OnTables handle.old.loose.kept result handle.new.loose.kept
        (λ old new. AddCall (peer_in peer.now) (address_in source.now) time services penalty word
        now old result accepted.new new) }
    ensures same { result ≢ OK → accepted.new ≡ accepted.old }
{
    let Some(mut kept) = handle.take(alloc) else {
        return CLOSED;
    };
    let code = add_on(
        &mut kept.tables,
        read_peer(peer),
        read_addr(source),
        time,
        services,
        penalty,
        word,
        now,
        accepted,
    );
    handle.put(kept);
    code
}

/// Tells what became of a message.
pub(crate) fn tell(
    answer: Result<Added, MessageFault>,
    added: &mut AddrmanAdded,
    fault: &mut AddrmanFault,
) -> u32
    ensures call { Tells answer result added.new fault.new }
    ensures added { result ≢ OK → result ≢ SHORT_WORDS → added.new ≡ added.old }
    ensures fault { result ≢ REFUSED → fault.new ≡ fault.old }
{
    match answer {
        Ok(taken) => {
            *added = AddrmanAdded {
                accepted: taken.accepted,
                total: taken.total,
            };
            OK
        }
        Err(MessageFault::Memory) => MEMORY,
        Err(MessageFault::Refused(refused)) => {
            *fault = AddrmanFault {
                kind: fault_number(refused),
                at: 0,
            };
            REFUSED
        }
        Err(MessageFault::ShortWords { need, .. }) => {
            *added = AddrmanAdded {
                accepted: 0,
                total: need,
            };
            SHORT_WORDS
        }
    }
}

/// Adds the entries of a message.
fn message_on(
    alloc: Global,
    tables: &mut Tables<'_, Keyed>,
    form: Form,
    payload: &[u8],
    source: Option<NetAddr>,
    words: &[u64],
    now: u32,
    added: &mut AddrmanAdded,
    fault: &mut AddrmanFault,
) -> u32
    ensures call { MessageCall form payload.now source words.now now tables.old result added.new
        fault.new tables.new }
    ensures added { result ≢ OK → result ≢ SHORT_WORDS → added.new ≡ added.old }
    ensures fault { result ≢ REFUSED → fault.new ≡ fault.old }
{
    let Some(source) = source else {
        return ARGUMENT;
    };
    if tables.next_number() >= MOST_RECORDS {
        return FULL;
    }
    let answer = node_calls::take_message(alloc, tables, form, payload, &source, words, now);
    tell(answer, added, fault)
}

/// Returns the form of a message.
pub(crate) fn form_of(is_v2: bool) -> Form
    ensures { result ≡ form_of is_v2 }
{
    if is_v2 { Form::Addrv2 } else { Form::Addr }
}

/// Adds the entries of a message that `source` sent, each with the random word at its index.
#[unsafe(no_mangle)]
pub extern "C" fn addrman_take_message(
    alloc: Global,
    handle: &mut Handle,
    is_v2: bool,
    payload: &[u8],
    source: &AddrmanAddr,
    words: &[u64],
    now: u32,
    added: &mut AddrmanAdded,
    fault: &mut AddrmanFault,
) -> u32
    ensures call { OnTables handle.old.loose.kept result handle.new.loose.kept
        (λ old new. MessageCall (form_of is_v2) payload.now (address_in source.now) words.now now
        old result added.new fault.new new) }
    ensures added { result ≢ OK → result ≢ SHORT_WORDS → added.new ≡ added.old }
    ensures fault { result ≢ REFUSED → fault.new ≡ fault.old }
{
    let Some(mut kept) = handle.take(alloc) else {
        return CLOSED;
    };
    let code = message_on(
        alloc,
        &mut kept.tables,
        form_of(is_v2),
        payload,
        read_addr(source),
        words,
        now,
        added,
        fault,
    );
    handle.put(kept);
    code
}

/// Adds at most so many entries of a message, the first ones.
fn first_on(
    alloc: Global,
    tables: &mut Tables<'_, Keyed>,
    form: Form,
    payload: &[u8],
    source: Option<NetAddr>,
    max: u32,
    words: &[u64],
    now: u32,
    added: &mut AddrmanAdded,
    fault: &mut AddrmanFault,
) -> u32
    ensures call { FirstCall form payload.now source max words.now now tables.old result added.new
        fault.new tables.new }
    ensures added { result ≢ OK → result ≢ SHORT_WORDS → added.new ≡ added.old }
    ensures fault { result ≢ REFUSED → fault.new ≡ fault.old }
{
    let Some(source) = source else {
        return ARGUMENT;
    };
    if tables.next_number() >= MOST_RECORDS {
        return FULL;
    }
    let max = max as usize;
    let answer = node_calls::take_first(alloc, tables, form, payload, &source, max, words, now);
    tell(answer, added, fault)
}

/// Adds at most so many entries of a message that `source` sent, the first ones, each with the
/// random word at its index.
#[unsafe(no_mangle)]
pub extern "C" fn addrman_take_first(
    alloc: Global,
    handle: &mut Handle,
    is_v2: bool,
    payload: &[u8],
    source: &AddrmanAddr,
    max: u32,
    words: &[u64],
    now: u32,
    added: &mut AddrmanAdded,
    fault: &mut AddrmanFault,
) -> u32
    ensures call { OnTables handle.old.loose.kept result handle.new.loose.kept
        (λ old new. FirstCall (form_of is_v2) payload.now (address_in source.now) max words.now now
        old result added.new fault.new new) }
    ensures added { result ≢ OK → result ≢ SHORT_WORDS → added.new ≡ added.old }
    ensures fault { result ≢ REFUSED → fault.new ≡ fault.old }
{
    let Some(mut kept) = handle.take(alloc) else {
        return CLOSED;
    };
    let code = first_on(
        alloc,
        &mut kept.tables,
        form_of(is_v2),
        payload,
        read_addr(source),
        max,
        words,
        now,
        added,
        fault,
    );
    handle.put(kept);
    code
}
