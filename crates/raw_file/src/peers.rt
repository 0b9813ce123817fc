//! Each peer once: the records of both tables and the peers that are repeated; `Spot` is a bucket
//! with a peer.

ghost use Rattle.std.specs.Prelude.{◌≡◌, ◌≢◌, ◌≤◌, ◌++◌, length, ◌∷◌, ◌||◌, List, [], false, true, not, IfOk, IfErr, OnOk, map, None, Some};
ghost use Rattle.std.specs.List.{list_any};
ghost use Rattle.net_addr.specs.Same.{same_peer};
ghost use Rattle.peer_rec.specs.declared.file_rec.FileRec.{FileRec};
ghost use Rattle.raw_file.specs.Listing.{again_at, differs, first_again, first_twice, firsts, known_rec, pair_of, peers_of, reached, recs_of, says_same, same_spot, spot_of, tried_of, with_rec};
ghost use Rattle.raw_file.specs.declared.fault.ListingFault.TheVariants as faults;
ghost use Rattle.raw_read.specs.declared.raw.RawTable.TheVariants.{New, Tried};

use crate::ListingFault;
use indexmap::IndexSet;
use net_addr::{Memory, Peer};
use peer_rec::FileRec;
use raw_read::{RawRow, RawTable};
use std::alloc::Global;

/// A bucket of the new table, and a peer in it.
#[derive(Clone, Copy, Debug, PartialEq, Eq, Hash)]
pub struct Spot {
    pub bucket: u16,
    pub peer: Peer,
}

/// Returns `true` if two records say the same of their peer.
fn says_same(a: &FileRec, b: &FileRec) -> bool
    ensures { result ≡ says_same a.now b.now }
{
    a.source == b.source && a.time == b.time && a.services == b.services
}

/// Adds a peer and its bucket, and returns whether they are new.
fn add_spot(spots: &mut IndexSet<Spot>, spot: Spot) -> Result<bool, Memory>
    ensures new { IfOk result (λ new. new ≡ not (list_any (same_spot spot) spots.old.keys)) }
    ensures keys { IfOk result (λ new.
        new ≡ true → spots.new.keys ≡ spots.old.keys ++ spot ∷ []) }
{
    let (_, is_new) = spots.insert_full(spot)?;
    Ok(is_new)
}

/// Adds a record, unless its peer has one. Returns `true` if that one says something else.
fn add_rec(
    peers: &mut IndexSet<Peer>,
    recs: &mut Vec<FileRec>,
    rec: FileRec,
) -> Result<bool, Memory>
    requires { peers.old.keys ≡ peers_of recs.old.items }
    ensures differs { IfOk result (λ it. it ≡ differs rec (known_rec recs.old.items rec.peer)) }
    ensures recs { OnOk result (recs.new.items ≡ with_rec recs.old.items rec) }
    ensures peers { OnOk result (peers.new.keys ≡ peers_of recs.new.items) }
{
    let (at, is_new) = peers.insert_full(rec.peer)?;
    if is_new {
        recs.push(rec)?;
        return Ok(false);
    }
    Ok(!says_same(&recs[at], &rec))
}

/// Adds a row, and returns whether its peer is there again.
fn add_row(
    spots: &mut IndexSet<Spot>,
    peers: &mut IndexSet<Peer>,
    recs: &mut Vec<FileRec>,
    row: &RawRow,
) -> Result<bool, Memory>
    requires { peers.old.keys ≡ peers_of recs.old.items }
    ensures again { IfOk result (λ again.
        again ≡ (list_any (same_spot (spot_of row.now)) spots.old.keys
        || differs row.now.rec (known_rec recs.old.items row.now.rec.peer))) }
    ensures spots { IfOk result (λ again.
        again ≡ false → spots.new.keys ≡ spots.old.keys ++ spot_of row.now ∷ []) }
    ensures recs { OnOk result (recs.new.items ≡ with_rec recs.old.items row.now.rec) }
    ensures peers { OnOk result (peers.new.keys ≡ peers_of recs.new.items) }
{
    let bucket = row.bucket;
    let peer = row.rec.peer;
    let is_new = add_spot(spots, Spot { bucket, peer })?;
    let differs = add_rec(peers, recs, row.rec)?;
    Ok(!is_new || differs)
}

/// Returns the first record of each peer of the new table. The set, which is empty, gets the peers.
pub(crate) fn read_new(
    alloc: Global,
    rows: &[RawRow],
    peers: &mut IndexSet<Peer>,
) -> Result<Vec<FileRec>, ListingFault>
    requires { peers.old.keys ≡ [] }
    ensures none { OnOk result (first_again [] rows.now ≡ None) }
    ensures recs { IfOk result (λ recs. recs.items ≡ firsts (recs_of rows.now)) }
    ensures peers { IfOk result (λ recs. peers.new.keys ≡ peers_of recs.items) }
    ensures cause { IfErr result (λ fault. fault ≢ faults.Memory →
        again_at New (first_again [] rows.now) ≡ Some fault) }
{
    let mut spots = IndexSet::new(alloc);
    let mut recs = Vec::new(alloc);
    for row in rows {
        if add_row(&mut spots, peers, &mut recs, row)? {
            return Err(ListingFault::Again {
                table: RawTable::New,
                bucket: row.bucket,
                position: row.position,
            });
        }
    }
    Ok(recs)
}

/// Adds the peers of the tried table, if each is there for the first time.
pub(crate) fn check_tried(rows: &[RawRow], peers: &mut IndexSet<Peer>) -> Result<(), ListingFault>
    ensures none { OnOk result (first_twice peers.old.keys rows.now ≡ None) }
    ensures cause { IfErr result (λ fault. fault ≢ faults.Memory →
        again_at Tried (first_twice peers.old.keys rows.now) ≡ Some fault) }
{
    for row in rows {
        if add_peer(peers, row.rec.peer)? {
            return Err(ListingFault::Again {
                table: RawTable::Tried,
                bucket: row.bucket,
                position: row.position,
            });
        }
    }
    Ok(())
}

/// Adds a peer, and returns whether it was there.
fn add_peer(peers: &mut IndexSet<Peer>, peer: Peer) -> Result<bool, Memory>
    ensures there { IfOk result (λ there. there ≡ list_any (same_peer peer) peers.old.keys) }
    ensures keys { IfOk result (λ there.
        there ≡ false → peers.new.keys ≡ peers.old.keys ++ peer ∷ []) }
{
    let (_, is_new) = peers.insert_full(peer)?;
    Ok(!is_new)
}

/// Returns a tried record with a success: at its time, or at 1 if that is 0.
fn reached(rec: &FileRec) -> FileRec
    ensures { result ≡ reached rec.now }
{
    FileRec {
        last_success: rec.time.max(1),
        ..*rec
    }
}

/// Returns the records of rows of the tried table.
pub(crate) fn tried_of(alloc: Global, rows: &[RawRow]) -> Result<Vec<FileRec>, Memory>
    ensures { IfOk result (λ recs. recs.items ≡ tried_of rows.now) }
{
    let mut recs = Vec::with_capacity(alloc, rows.len())?;
    for row in rows {
        recs.push(reached(&row.rec))?;
    }
    Ok(recs)
}

/// Returns the bucket of a row, and the index of its record.
fn pair_of(row: &RawRow, peers: &IndexSet<Peer>) -> (u32, u32)
    requires { length peers.now.keys ≤ 65536 }
    ensures { (recs : List FileRec) → peers.now.keys ≡ peers_of recs →
        result ≡ pair_of recs row.now }
{
    let at = peers.get_index_of(&row.rec.peer).unwrap_or(0);
    (u32::from(row.bucket), at as u32)
}

/// Returns the pairs that the buckets of the new table list.
pub(crate) fn pairs_of(
    alloc: Global,
    rows: &[RawRow],
    peers: &IndexSet<Peer>,
) -> Result<Vec<(u32, u32)>, Memory>
    requires { length peers.now.keys ≤ 65536 }
    ensures { (recs : List FileRec) → peers.now.keys ≡ peers_of recs →
        IfOk result (λ pairs. pairs.items ≡ map (pair_of recs) rows.now) }
{
    let mut pairs = Vec::with_capacity(alloc, rows.len())?;
    for row in rows {
        pairs.push(pair_of(row, peers))?;
    }
    Ok(pairs)
}
