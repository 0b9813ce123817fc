//! `duplicate` finds the first valid record of a file that has the peer of an earlier one.

ghost use Rattle.std.specs.Prelude.{◌≡◌, ◌≤◌, ◌+◌, ◌*◌, ◌^◌, ◌++◌, ◌∷◌, [], length, List, All, None, IfOk, false};
ghost use Rattle.peer_rec.specs.Snapshot.{IsFileRec};
ghost use Rattle.peer_rec.specs.declared.file_rec.FileRec.{FileRec};
ghost use Rattle.table_machine.specs.Restoring.{duplicate, duplicate_from, is_repeated};
ghost use Rattle.tables.specs.Duplicates.{AreIn, AreFileRecs};

use crate::Memory;
use peer_index::PeerSet;
use peer_rec::{FileRec, Snapshot};
use std::hash::BuildHasher;
use std::sync::ledger::Ledger;
use steps::Steps;

/// Returns the index of the first valid record that has the peer of an earlier valid one, where
/// records are counted from 0, the new ones first. The set, which is empty, gets the peers of the
/// valid records.
pub(crate) fn duplicate<H: BuildHasher, L: Ledger>(
    snap: &Snapshot,
    peers: &mut PeerSet<H>,
    steps: &mut Steps<L>,
) -> Result<Option<u32>, Memory>
    requires { peers.old ≡ [] }
    ensures found { IfOk result (λ at. at ≡ duplicate snap.now) }
    ensures fit { IfOk result (λ at. at ≡ None → AreFileRecs snap.now) }
    ensures steps { steps.new
        ≤ steps.old + length snap.now.new_recs + length snap.now.tried_recs }
{
    let new_recs = snap.new_recs();
    let count = new_recs.len() as u32;
    let found = duplicate_from(new_recs, 0, peers, steps)?;
    if found.is_some() {
        return Ok(found);
    }
    duplicate_from(snap.tried_recs(), count, peers, steps)
}

/// Does the same for a list whose first record has the index `start`, after the records whose peers
/// are in the set.
fn duplicate_from<H: BuildHasher, L: Ledger>(
    recs: &[FileRec],
    start: u32,
    peers: &mut PeerSet<H>,
    steps: &mut Steps<L>,
) -> Result<Option<u32>, Memory>
    requires few { start + length recs.now ≤ 2 ^ 31 }
    requires attempts { All (λ r. r.attempts ≤ 2147483647) recs.now }
    ensures found { (earlier : List FileRec) → AreIn earlier peers.old
        → IfOk result (λ at. at ≡ duplicate_from earlier start recs.now) }
    ensures all { (earlier : List FileRec) → AreIn earlier peers.old
        → IfOk result (λ at. at ≡ None → AreIn (earlier ++ recs.now) peers.new) }
    ensures fit { IfOk result (λ at. at ≡ None → All IsFileRec recs.now) }
    ensures steps { steps.new ≤ steps.old + length recs.now }
{
    let mut at = start;
    for rec in recs {
        if is_repeated(*rec, peers, steps)? {
            return Ok(Some(at));
        }
        at += 1;
    }
    Ok(None)
}

/// Returns `true` if a record is valid and its peer is in the set. If it isn't, the peer of a valid
/// record is added.
fn is_repeated<H: BuildHasher, L: Ledger>(
    rec: FileRec,
    peers: &mut PeerSet<H>,
    steps: &mut Steps<L>,
) -> Result<bool, Memory>
    requires attempts { rec.attempts ≤ 2147483647 }
    ensures repeated { (earlier : List FileRec) → AreIn earlier peers.old
        → IfOk result (λ repeated. repeated ≡ is_repeated earlier rec) }
    ensures all { (earlier : List FileRec) → AreIn earlier peers.old
        → IfOk result (λ repeated. repeated ≡ false
        → AreIn (earlier ++ rec ∷ []) peers.new) }
    ensures fit { IsFileRec rec }
    ensures steps { steps.new ≤ steps.old + 1 }
{
    if !rec.peer.addr.is_valid() {
        return Ok(false);
    }
    let is_new = peers.add(&rec.peer, steps)?;
    Ok(!is_new)
}
