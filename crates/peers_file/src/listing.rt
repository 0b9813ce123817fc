//! `snapshot_text`, the output of `show`: a line for the file and one for each record.

ghost use Rattle.std.specs.Prelude.{◌≡◌, ◌++◌, IfOk, OnOk};
ghost use Rattle.peers_file.specs.Listing.{totals_text, key_text, summary_line, origin_text, history_text, record_line, record_lines, snapshot_text};

use net_addr::{Memory, put_addr, put_hex, put_number, put_peer, put_text};
use peer_rec::{FileRec, Snapshot};
use std::alloc::Global;

/// Room for a line in bytes: those of IPv4 peers have less, and the text grows if others need more.
const LINE_ROOM: usize = 120;

/// Returns the text that lists a snapshot: a line with its counts, its key if that is listed, and
/// its checksum, then one for each record. The new records come first; each table counts its own
/// from 0.
///
/// Key and checksum are in hexadecimal, in the order of the file's bytes. Bitcoin Core prints such
/// numbers with the last byte first.
#[tactic(auto, unfolding(crate::specs::Listing::snapshot_text))]
pub fn snapshot_text(alloc: Global, keyed: bool, snap: &Snapshot) -> Result<Vec<u8>, Memory>
    ensures { IfOk result (λ text. text.items ≡ snapshot_text keyed snap.now) }
{
    let lines = 2 + snap.new_recs().len() + snap.tried_recs().len();
    let mut text = Vec::with_capacity(alloc, LINE_ROOM * lines)?;
    put_summary(keyed, snap, &mut text)?;
    put_lines(b"new ", snap.new_recs(), &mut text)?;
    put_lines(b"tried ", snap.tried_recs(), &mut text)?;
    Ok(text)
}

/// Appends the first line: the counts, the key if it is listed, and the checksum.
fn put_summary(keyed: bool, snap: &Snapshot, out: &mut Vec<u8>) -> Result<(), Memory>
    ensures { OnOk result (out.new.items ≡ out.old.items ++ summary_line keyed snap.now) }
{
    put_totals(snap, out)?;
    put_key(keyed, snap, out)?;
    put_hex(b" sum ", &snap.sum(), out)?;
    put_text(b"\n", out)
}

/// Appends the key, if it is listed.
fn put_key(keyed: bool, snap: &Snapshot, out: &mut Vec<u8>) -> Result<(), Memory>
    ensures { OnOk result (out.new.items ≡ out.old.items ++ key_text keyed snap.now) }
{
    if !keyed {
        return Ok(());
    }
    put_hex(b" key ", &snap.key(), out)
}

/// Appends the numbers of records and of buckets.
fn put_totals(snap: &Snapshot, out: &mut Vec<u8>) -> Result<(), Memory>
    ensures { OnOk result (out.new.items ≡ out.old.items ++ totals_text snap.now) }
{
    put_number(b"file new ", snap.new_recs().len() as u64, out)?;
    put_number(b" tried ", snap.tried_recs().len() as u64, out)?;
    put_number(b" buckets ", u64::from(snap.bucket_count()), out)
}

/// Appends the records of a table, a line each, counted from 0.
fn put_lines(table: &[u8], recs: &[FileRec], out: &mut Vec<u8>) -> Result<(), Memory>
    ensures { OnOk result (out.new.items ≡ out.old.items ++ record_lines table.now recs.now) }
{
    for (index, rec) in recs.iter().enumerate() {
        put_line(table, index as u64, rec, out)?;
    }
    Ok(())
}

/// Appends a record, on one line: its table and index, and what the file has of it.
fn put_line(table: &[u8], index: u64, rec: &FileRec, out: &mut Vec<u8>) -> Result<(), Memory>
    ensures { OnOk result (out.new.items ≡ out.old.items ++ record_line table.now index rec.now) }
{
    put_number(table, index, out)?;
    put_origin(rec, out)?;
    put_history(rec, out)?;
    put_text(b"\n", out)
}

/// Appends a record's peer and its source.
fn put_origin(rec: &FileRec, out: &mut Vec<u8>) -> Result<(), Memory>
    ensures { OnOk result (out.new.items ≡ out.old.items ++ origin_text rec.now) }
{
    put_text(b" ", out)?;
    put_peer(&rec.peer, out)?;
    put_text(b" source ", out)?;
    put_addr(&rec.source, out)?;
    Ok(())
}

/// Appends when a record's peer was last seen and last reached, in seconds since 1970, its
/// services, and how often it failed since.
fn put_history(rec: &FileRec, out: &mut Vec<u8>) -> Result<(), Memory>
    ensures { OnOk result (out.new.items ≡ out.old.items ++ history_text rec.now) }
{
    put_number(b" time ", u64::from(rec.time), out)?;
    put_number(b" services ", rec.services, out)?;
    put_number(b" success ", u64::from(rec.last_success), out)?;
    put_number(b" attempts ", u64::from(rec.attempts), out)
}
