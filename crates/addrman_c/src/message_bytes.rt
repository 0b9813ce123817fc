//! Reads, counts and writes payloads without tables: `addrman_message_count`,
//! `addrman_read_message` and `addrman_write_message`.

ghost use Rattle.std.specs.Prelude.{◌≡◌, ◌≢◌, IfOk};
ghost use Rattle.addrman_c.specs.Calls.{form_of};
ghost use Rattle.addrman_c.specs.Messages.{CountCall, PutKnown, ReadMessageCall, WriteMessageCall, known};

use crate::adding::form_of;
use crate::getaddr_answers::put_answer;
use addr_codecs::{Form, MAX_ENTRIES, MsgFault, read_message};
use c_values::code::{ARGUMENT, MEMORY, OK, REFUSED, SHORT_BUFFER};
use c_values::{AddrmanEntry, AddrmanFault, fault_number, put_entries, read_entries};
use net_addr::{Entry, Memory};
use std::alloc::Global;

/// Counts the entries of a message of this form.
fn count_of(
    alloc: Global,
    form: Form,
    payload: &[u8],
    count: &mut u32,
    fault: &mut AddrmanFault,
) -> u32
    ensures call { CountCall form payload.now result count.new fault.new }
    ensures same { result ≢ OK → count.new ≡ count.old }
    ensures fault { result ≢ REFUSED → fault.new ≡ fault.old }
{
    match read_message(alloc, form, payload) {
        Ok(entries) => {
            *count = entries.items().len() as u32;
            OK
        }
        Err(MsgFault::Memory) => MEMORY,
        Err(why) => {
            *fault = AddrmanFault {
                kind: fault_number(why),
                at: 0,
            };
            REFUSED
        }
    }
}

/// Writes how many entries a message has, or why the payload is not one.
#[unsafe(no_mangle)]
pub extern "C" fn addrman_message_count(
    alloc: Global,
    is_v2: bool,
    payload: &[u8],
    count: &mut u32,
    fault: &mut AddrmanFault,
) -> u32
    ensures call { CountCall (form_of is_v2) payload.now result count.new fault.new }
    ensures same { result ≢ OK → count.new ≡ count.old }
    ensures fault { result ≢ REFUSED → fault.new ≡ fault.old }
{
    count_of(alloc, form_of(is_v2), payload, count, fault)
}

/// Returns the entries that are not skipped.
fn known(alloc: Global, entries: &[Option<Entry>]) -> Result<Vec<Entry>, Memory>
    ensures found { IfOk result (λ es. es.items ≡ known entries.now) }
{
    let mut found = Vec::with_capacity(alloc, entries.len())?;
    for entry in entries {
        if let Some(entry) = entry {
            found.push(*entry)?;
        }
    }
    Ok(found)
}

/// Writes the entries of a message that are not skipped.
fn put_known(
    alloc: Global,
    entries: &[Option<Entry>],
    out: &mut [AddrmanEntry],
    length: &mut usize,
) -> u32
    ensures call { PutKnown entries.now result out.old out.new length.new }
    ensures same { result ≢ OK → out.new ≡ out.old }
    ensures length { result ≢ OK → result ≢ SHORT_BUFFER → length.new ≡ length.old }
{
    match known(alloc, entries) {
        Ok(entries) => put_entries(out, entries.as_slice(), length),
        Err(_) => MEMORY,
    }
}

/// Writes the entries of a message of this form.
fn read_on(
    alloc: Global,
    form: Form,
    payload: &[u8],
    out: &mut [AddrmanEntry],
    length: &mut usize,
    fault: &mut AddrmanFault,
) -> u32
    ensures call { ReadMessageCall form payload.now result out.old out.new length.new fault.new }
    ensures same { result ≢ OK → out.new ≡ out.old }
    ensures length { result ≢ OK → result ≢ SHORT_BUFFER → length.new ≡ length.old }
    ensures fault { result ≢ REFUSED → fault.new ≡ fault.old }
{
    match read_message(alloc, form, payload) {
        Ok(entries) => put_known(alloc, entries.items(), out, length),
        Err(MsgFault::Memory) => MEMORY,
        Err(why) => {
            *fault = AddrmanFault {
                kind: fault_number(why),
                at: 0,
            };
            REFUSED
        }
    }
}

/// Writes the entries of a message, without those that are skipped, or why the payload is not one.
#[unsafe(no_mangle)]
pub extern "C" fn addrman_read_message(
    alloc: Global,
    is_v2: bool,
    payload: &[u8],
    out: &mut [AddrmanEntry],
    length: &mut usize,
    fault: &mut AddrmanFault,
) -> u32
    ensures call { ReadMessageCall (form_of is_v2) payload.now result out.old out.new length.new
        fault.new }
    ensures same { result ≢ OK → out.new ≡ out.old }
    ensures length { result ≢ OK → result ≢ SHORT_BUFFER → length.new ≡ length.old }
    ensures fault { result ≢ REFUSED → fault.new ≡ fault.old }
{
    read_on(alloc, form_of(is_v2), payload, out, length, fault)
}

/// Writes the message of this form of entries.
fn write_on(
    alloc: Global,
    form: Form,
    structs: &[AddrmanEntry],
    payload: &mut [u8],
    length: &mut usize,
) -> u32
    ensures call { WriteMessageCall form structs.now result payload.old payload.new length.new }
    ensures same { result ≢ OK → payload.new ≡ payload.old }
    ensures length { result ≢ OK → result ≢ SHORT_BUFFER → length.new ≡ length.old }
{
    if structs.len() as u64 > MAX_ENTRIES {
        return ARGUMENT;
    }
    let Ok(entries) = read_entries(alloc, structs) else {
        return MEMORY;
    };
    if entries.len() < structs.len() {
        return ARGUMENT;
    }
    put_answer(alloc, form, entries.as_slice(), payload, length)
}

/// Writes the message of entries, those that it has a form for.
#[unsafe(no_mangle)]
pub extern "C" fn addrman_write_message(
    alloc: Global,
    is_v2: bool,
    structs: &[AddrmanEntry],
    payload: &mut [u8],
    length: &mut usize,
) -> u32
    ensures call { WriteMessageCall (form_of is_v2) structs.now result payload.old payload.new
        length.new }
    ensures same { result ≢ OK → payload.new ≡ payload.old }
    ensures length { result ≢ OK → result ≢ SHORT_BUFFER → length.new ≡ length.old }
{
    write_on(alloc, form_of(is_v2), structs, payload, length)
}
