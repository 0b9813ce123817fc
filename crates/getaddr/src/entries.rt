//! The entries of sampled peers, without banned ones.

ghost use Rattle.std.specs.Prelude.{◌≡◌, ◌≤◌, IfOk, length, flat_map, option_to_list};
ghost use Rattle.getaddr.specs.Fresh.{entry, entry_of};

use ban_list::Bans;
use net_addr::{Entry, Memory, Peer};
use peer_rec::Rec;
use std::alloc::Global;
use std::hash::BuildHasher;
use std::sync::ledger::Ledger;
use steps::Steps;
use tables::Tables;

/// Returns what is said of a record, with the time of all entries if there is one.
fn entry(rec: &Rec, time: Option<u32>) -> Entry
    ensures { result ≡ entry time rec.now }
{
    let time = match time {
        Some(time) => time,
        None => rec.time,
    };
    Entry {
        time,
        services: rec.services,
        peer: rec.peer,
    }
}

/// Returns the entry of a peer, unless it has no record or is banned now.
fn entry_of<H: BuildHasher, L: Ledger>(
    tables: &Tables<'_, H>,
    bans: &Bans,
    peer: &Peer,
    time: Option<u32>,
    now: u32,
    steps: &mut Steps<L>,
) -> Option<Entry>
    ensures { result ≡ entry_of tables.now bans.now time now peer.now }
{
    if bans.covering(&peer.addr, now).is_some() {
        return None;
    }
    match tables.find(peer, steps) {
        Some(rec) => Some(entry(rec, time)),
        None => None,
    }
}

/// Returns the entries of some peers, without those that have no record or are banned now.
pub(crate) fn entries_of<H: BuildHasher, L: Ledger>(
    alloc: Global,
    tables: &Tables<'_, H>,
    bans: &Bans,
    peers: &[Peer],
    time: Option<u32>,
    now: u32,
    steps: &mut Steps<L>,
) -> Result<Vec<Entry>, Memory>
    ensures found { IfOk result (λ es. es.items
        ≡ flat_map (λ p. option_to_list (entry_of tables.now bans.now time now p)) peers.now) }
    ensures few { IfOk result (λ es. length es.items ≤ length peers.now) }
{
    let mut entries = Vec::with_capacity(alloc, peers.len())?;
    for i in 0..peers.len() {
        if let Some(entry) = entry_of(tables, bans, &peers[i], time, now, steps) {
            entries.push(entry)?;
        }
    }
    Ok(entries)
}
