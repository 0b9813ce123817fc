//! Entries of messages from and to C.

ghost use Rattle.std.specs.Prelude.{◌≡◌, ◌≢◌, ◌≤◌, length, drop, IfOk};
ghost use Rattle.c_values.specs.Entries.{AreEntries, EntriesPut, IsEntry, entries_in, entry_in};

use crate::code::{OK, SHORT_BUFFER};
use crate::structs::AddrmanEntry;
use crate::values::{read_peer, write_peer};
use net_addr::{Entry, Memory};
use std::alloc::Global;

/// Writes an entry as C sees it.
fn write_entry(entry: &Entry) -> AddrmanEntry
    ensures { IsEntry result entry.now }
{
    AddrmanEntry {
        services: entry.services,
        peer: write_peer(&entry.peer),
        time: entry.time,
    }
}

/// Writes entries to the start of an output that has room for them.
fn put_start(out: &mut [AddrmanEntry], entries: &[Entry])
    requires { length entries.now ≤ length out.old }
    ensures told { AreEntries out.new entries.now }
    ensures rest { drop (length entries.now) out.new ≡ drop (length entries.now) out.old }
{
    for i in 0..entries.len() {
        out[i] = write_entry(&entries[i]);
    }
}

/// Writes entries, whole or not at all, and how many they are.
pub fn put_entries(out: &mut [AddrmanEntry], entries: &[Entry], length: &mut usize) -> u32
    ensures call { EntriesPut entries.now result out.old out.new length.new }
    ensures same { result ≢ OK → out.new ≡ out.old }
{
    *length = entries.len();
    if entries.len() > out.len() {
        return SHORT_BUFFER;
    }
    put_start(out, entries);
    OK
}

/// Reads an entry, or `None` if its address is not valid.
fn read_entry(entry: &AddrmanEntry) -> Option<Entry>
    ensures { result ≡ entry_in entry.now }
{
    let peer = read_peer(&entry.peer)?;
    Some(Entry {
        time: entry.time,
        services: entry.services,
        peer,
    })
}

/// Reads entries, without those whose address is not valid.
pub fn read_entries(alloc: Global, structs: &[AddrmanEntry]) -> Result<Vec<Entry>, Memory>
    ensures found { IfOk result (λ es. es.items ≡ entries_in structs.now) }
    ensures few { IfOk result (λ es. length es.items ≤ length structs.now) }
{
    let mut entries = Vec::with_capacity(alloc, structs.len())?;
    for i in 0..structs.len() {
        if let Some(entry) = read_entry(&structs[i]) {
            entries.push(entry)?;
        }
    }
    Ok(entries)
}
