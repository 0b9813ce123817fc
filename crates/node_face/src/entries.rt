//! `add`, `take_message`, `AddFault`, `TakeFault` and `MAX_RECORDS`.

ghost use Rattle.std.specs.Prelude.{◌≡◌, ◌≤◌, ◌↔◌, ◌^◌, Err, IfOk, IfErr, OnOk, OnErr};
ghost use Rattle.table_machine.specs.Entries.{add};
ghost use Rattle.taking.specs.Taking.{IsAdded};
ghost use Rattle.node_face.specs.Taking.{IsTakeFault};

use addr_codecs::{Form, MsgFault};
use net_addr::{Entry, NetAddr};
use std::alloc::Global;
use std::hash::BuildHasher;
use tables::Tables;
use taking::{Added, MessageFault};

/// Why a message is not taken.
#[derive(Clone, Copy, Debug, PartialEq, Eq)]
pub enum TakeFault {
    /// The numbers of records are used up. Nothing changes.
    Full,
    /// The payload is no message. Nothing changes.
    Refused(MsgFault),
    /// There are fewer random words than entries. Nothing changes.
    ShortWords { need: u32, have: u32 },
    /// Out of memory. Some of the first entries may have been added.
    Memory,
}

/// No call adds once this many numbers were given to records. A message that begins below it is
/// taken whole.
pub const MAX_RECORDS: u64 = 1 << 62;

/// Why an entry is not added.
#[derive(Clone, Copy, Debug, PartialEq, Eq)]
pub enum AddFault {
    /// The numbers of records are used up.
    Full,
    /// Out of memory.
    Memory,
}

/// Adds an entry that `source` announced, with a penalty in seconds and a random word, at a time in
/// seconds since 1970. Returns `true` if the entry's peer gets a slot. After an error nothing has
/// changed (`Tables::add`).
pub fn add<H: BuildHasher>(
    tables: &mut Tables<'_, H>,
    entry: &Entry,
    source: &NetAddr,
    penalty: u32,
    word: u64,
    now: u32,
) -> Result<bool, AddFault>
    ensures answer { IfOk result (λ answer. answer
        ≡ (add tables.old now entry.now source.now penalty word).answer) }
    ensures state { OnOk result (tables.new
        ≡ (add tables.old now entry.now source.now penalty word).state) }
    ensures full { result ≡ Err AddFault.Full ↔ 2 ^ 62 ≤ tables.old.next_number }
    ensures err { OnErr result (tables.new ≡ tables.old) }
{
    if tables.next_number() >= MAX_RECORDS {
        return Err(AddFault::Full);
    }
    match node_calls::add(tables, entry, source, penalty, word, now) {
        Ok(answer) => Ok(answer),
        Err(_) => Err(AddFault::Memory),
    }
}

/// Adds the entries of a message that `source` sent, each with the random word at its index, at a
/// time in seconds since 1970 (`taking::take_message`).
pub fn take_message<H: BuildHasher>(
    alloc: Global,
    tables: &mut Tables<'_, H>,
    form: Form,
    payload: &[u8],
    source: &NetAddr,
    words: &[u64],
    now: u32,
) -> Result<Added, TakeFault>
    ensures added { IfOk result (λ added. IsAdded form payload.now tables.old now source.now
        words.now added tables.new) }
    ensures full { result ≡ Err TakeFault.Full ↔ 2 ^ 62 ≤ tables.old.next_number }
    ensures cause { IfErr result (λ fault. IsTakeFault form payload.now tables.old now
        source.now words.now fault tables.new) }
{
    if tables.next_number() >= MAX_RECORDS {
        return Err(TakeFault::Full);
    }
    match node_calls::take_message(alloc, tables, form, payload, source, words, now) {
        Ok(added) => Ok(added),
        Err(MessageFault::Memory) => Err(TakeFault::Memory),
        Err(MessageFault::Refused(fault)) => Err(TakeFault::Refused(fault)),
        Err(MessageFault::ShortWords { need, have }) => Err(TakeFault::ShortWords { need, have }),
    }
}
