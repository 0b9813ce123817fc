//! `read_addr` and `read_addrv2`: a count, its entries and nothing after them. Also `Entries`, and
//! `MAX_ENTRIES` (1000).

ghost use Rattle.std.specs.Prelude.{◌≡◌, ◌≢◌, ◌≤◌, List, Option, length, vec_len, IfOk, IfErr, Ok, Err};
ghost use Rattle.net_addr.specs.declared.peer.Entry.{Entry};
ghost use Rattle.wire_num.specs.Readings.{times_at, all_of};
ghost use Rattle.addr_codecs.specs.Faults.{UnlessMemory};
ghost use Rattle.addr_codecs.specs.Layout.{IsAddrMessage, IsAddrv2Message, IsMessage, HasAddrFault, HasAddrv2Fault, HasMessageFault};
ghost use Rattle.addr_codecs.specs.Inside.{GivesUnlessMemory, entry_at, message_at};
ghost use Rattle.addr_codecs.specs.declared.fault.MsgFault.{MsgFault};
ghost use Rattle.addr_codecs.specs.declared.fault.MsgFault.TheVariants.{Memory, Trailing};
ghost use Rattle.addr_codecs.specs.declared.message.TheConstants.{MAX_ENTRIES};

use crate::fault::MsgFault;
use crate::form::Form;
use host_io::ListOf;
use net_addr::Entry;
use std::alloc::Global;
use wire_num::take_compact;

/// The entries of a message in their order, `None` for one that is skipped.
pub type Entries = ListOf<Option<Entry>>;

/// The entries of a message, at most (`MAX_ADDR_TO_SEND` in net_processing.cpp of Bitcoin Core).
pub const MAX_ENTRIES: u64 = 1000;

/// Takes this many entries.
fn take_entries(
    alloc: Global,
    form: Form,
    count: u64,
    bytes: &[u8],
) -> Result<(Vec<Option<Entry>>, &[u8]), MsgFault>
    ensures found { GivesUnlessMemory (λ x. (x.0.items, x.1.now)) result
        (times_at 0 count (λ _. entry_at form) bytes.now) }
    ensures count { IfOk result (λ x. vec_len x.0 ≡ count) }
{
    let mut entries = Vec::new(alloc);
    let mut rest = bytes;
    for _ in 0..count {
        let (entry, after) = match form.take_entry(rest) {
            Ok(found) => found,
            Err(fault) => return Err(fault),
        };
        entries.push(entry)?;
        rest = after;
    }
    Ok((entries, rest))
}

/// Returns the entries of a message of this form: the count, the entries, and nothing after them.
#[tactic(auto, unfolding(crate::specs::Inside::message_at))]
fn read_whole(alloc: Global, form: Form, bytes: &[u8]) -> Result<Entries, MsgFault>
    ensures found { GivesUnlessMemory (λ x. x) result
        (all_of (message_at (entry_at form)) Trailing bytes.now) }
    ensures few { IfOk result (λ entries. length entries ≤ MAX_ENTRIES) }
{
    let (count, rest) = take_compact(bytes)?;
    if count > MAX_ENTRIES {
        return Err(MsgFault::TooMany);
    }
    match take_entries(alloc, form, count, rest) {
        Ok((entries, [])) => Ok(Entries::of(entries)),
        Ok(_) => Err(MsgFault::Trailing),
        Err(fault) => Err(fault),
    }
}

/// Reads the message of a form, as `read_addr` or `read_addrv2` does.
pub fn read_message(alloc: Global, form: Form, bytes: &[u8]) -> Result<Entries, MsgFault>
    ensures found { IfOk result (λ entries. IsMessage form bytes.now entries) }
    ensures few { IfOk result (λ entries. length entries ≤ MAX_ENTRIES) }
    ensures only { (entries : List (Option Entry)) → IsMessage form bytes.now entries →
        UnlessMemory result (Ok entries) }
    ensures cause { IfErr result (λ fault. fault ≢ Memory
        → HasMessageFault form bytes.now fault) }
    ensures first { (fault : MsgFault) → HasMessageFault form bytes.now fault →
        UnlessMemory result (Err fault) }
{
    read_whole(alloc, form, bytes)
}

/// Reads an `addr` message: the number of entries, at most 1000, and for each entry the time and
/// the services, low byte first, sixteen bytes of an address in the old form, and the port, high
/// byte first (the message `addr` of the Bitcoin protocol). No entry is skipped.
///
/// An error is the first fault from the start; `Memory` is possible instead of any result.
pub fn read_addr(alloc: Global, bytes: &[u8]) -> Result<Entries, MsgFault>
    ensures found { IfOk result (λ entries. IsAddrMessage bytes.now entries) }
    ensures few { IfOk result (λ entries. length entries ≤ MAX_ENTRIES) }
    ensures only { (entries : List (Option Entry)) → IsAddrMessage bytes.now entries →
        UnlessMemory result (Ok entries) }
    ensures cause { IfErr result (λ fault. fault ≢ Memory → HasAddrFault bytes.now fault) }
    ensures first { (fault : MsgFault) → HasAddrFault bytes.now fault →
        UnlessMemory result (Err fault) }
{
    read_message(alloc, Form::Addr, bytes)
}

/// Reads an `addrv2` message (BIP 155): the number of entries, at most 1000, and for each entry the
/// time, low byte first, the services, the number of the network, the length of the address and its
/// bytes, and the port, high byte first. The count, the services and the length are CompactSizes.
/// An entry is skipped if a node does not know its network, or if its IPv6 address is an
/// embedded IPv4 or Tor v2 address.
///
/// An error is the first fault from the start; `Memory` is possible instead of any result.
pub fn read_addrv2(alloc: Global, bytes: &[u8]) -> Result<Entries, MsgFault>
    ensures found { IfOk result (λ entries. IsAddrv2Message bytes.now entries) }
    ensures few { IfOk result (λ entries. length entries ≤ MAX_ENTRIES) }
    ensures only { (entries : List (Option Entry)) → IsAddrv2Message bytes.now entries →
        UnlessMemory result (Ok entries) }
    ensures cause { IfErr result (λ fault. fault ≢ Memory → HasAddrv2Fault bytes.now fault) }
    ensures first { (fault : MsgFault) → HasAddrv2Fault bytes.now fault →
        UnlessMemory result (Err fault) }
{
    read_message(alloc, Form::Addrv2, bytes)
}
