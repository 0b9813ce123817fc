//! `put_reply` and `reply_text`: the text of each reply, of records (`dump`, `find`), of picks and
//! of samples.
//!
//! The functions append in place, and cut off what they appended when memory runs out: a second
//! list for each reply took a sixth of the instructions of a line.

ghost use Rattle.std.specs.Prelude.{◌≡◌, ◌++◌, codes, take, vec_len, IfOk, OnOk, OnErr};
ghost use Rattle.std.specs.List.{flat_map};
ghost use Rattle.net_addr.specs.Text.{peer_text};
ghost use Rattle.log_lines.specs.Replies.{numbers_text, place_text, origin_text, seen_text, tries_text, rec_text, found_text, fault_text, good_text, timed_text, picked_text, size_text, resolved_text, sample_text, clash_text, dump_text, reply_line, reply_text};

use crate::{Memory, Reply};
use addr_codecs::MsgFault;
use host_io::LINE_FEED;
use net_addr::{Peer, put_addr, put_number, put_peer, put_text};
use peer_rec::{Counts, Good, Picked, Place, Rec, Resolved};
use std::alloc::Global;

/// Room for the text of most replies, so that it seldom grows.
const REPLY_ROOM: usize = 128;

/// Returns the text of a reply, which ends with a line feed.
pub fn reply_text(alloc: Global, reply: &Reply) -> Result<Vec<u8>, Memory>
    ensures { IfOk result (λ text. text.items ≡ reply_text reply.now) }
{
    let mut text = Vec::with_capacity(alloc, REPLY_ROOM)?;
    append_reply(reply, &mut text)?;
    Ok(text)
}

/// Appends the text of a reply, which ends with a line feed. If memory runs out, nothing changes.
pub fn put_reply(reply: &Reply, out: &mut Vec<u8>) -> Result<(), Memory>
    ensures ok { OnOk result (out.new.items ≡ out.old.items ++ reply_text reply.now) }
    ensures err { OnErr result (out.new.items ≡ out.old.items) }
{
    let length = out.len();
    match append_reply(reply, out) {
        Ok(()) => Ok(()),
        Err(fault) => {
            out.truncate(length);
            Err(fault)
        }
    }
}

// After `Memory` each of the functions below may leave a part of its text in the list.

/// Appends the text of a reply, which ends with a line feed.
#[tactic(auto, unfolding(crate::specs::Replies::reply_text))]
fn append_reply(reply: &Reply, out: &mut Vec<u8>) -> Result<(), Memory>
    ensures text { OnOk result (out.new.items ≡ out.old.items ++ reply_text reply.now) }
    ensures kept { take (vec_len out.old) out.new.items ≡ out.old.items }
{
    put_line(reply, out)?;
    put_text(&[LINE_FEED], out)
}

/// Appends the text of a reply without its line feed.
fn put_line(reply: &Reply, out: &mut Vec<u8>) -> Result<(), Memory>
    ensures text { OnOk result (out.new.items ≡ out.old.items ++ reply_line reply.now) }
    ensures kept { take (vec_len out.old) out.new.items ≡ out.old.items }
{
    match reply {
        Reply::Now { time } => put_number(b"now ", u64::from(*time), out),
        Reply::Added { accepted, total } => {
            put_number(b"added ", u64::from(*accepted), out)?;
            put_number(b" of ", u64::from(*total), out)
        }
        Reply::Refused(fault) => {
            put_text(b"refused ", out)?;
            put_text(fault_word(fault), out)
        }
        Reply::Short { need, have } => {
            put_number(b"short ", u64::from(*need), out)?;
            put_number(b" ", u64::from(*have), out)
        }
        Reply::Good(good) => put_text(good_word(good), out),
        Reply::Known(known) => put_text(if *known { b"ok" } else { b"unknown" }, out),
        Reply::Found(found) => put_found(found, out),
        Reply::Size(counts) => put_size(counts, out),
        Reply::Picked(picked) => put_picked(picked, out),
        Reply::Sample(peers) => put_sample(peers.items(), out),
        Reply::Resolved(resolved) => put_resolved(resolved, out),
        Reply::Clash(found) => put_clash(found, out),
        Reply::Dump(recs) => put_dump(recs.items(), out),
        Reply::Saved => put_text(b"saved", out),
        Reply::NotSaved => put_text(b"not saved", out),
        Reply::Busy => put_text(b"busy", out),
        Reply::NoSave => put_text(b"no save", out),
        Reply::Begun { size } => put_number(b"begun ", *size, out),
        Reply::Stepped { left } => put_number(b"stepped ", *left, out),
    }
}

/// Returns the text of a fault of a message.
fn fault_word(fault: &MsgFault) -> &'static [u8]
    ensures { result.now ≡ fault_text fault.now }
{
    match fault {
        MsgFault::Truncated => b"truncated",
        MsgFault::NonCanonical => b"non-canonical",
        MsgFault::TooMany => b"too-many",
        MsgFault::BadLength => b"bad-length",
        MsgFault::TooLong => b"too-long",
        MsgFault::Trailing => b"trailing",
        MsgFault::Memory => b"out of memory",
    }
}

/// Returns the text of the result of a connection to a peer.
fn good_word(good: &Good) -> &'static [u8]
    ensures { result.now ≡ good_text good.now }
{
    match good {
        Good::Unknown => b"unknown",
        Good::Already => b"already",
        Good::Clash => b"clash",
        Good::Moved => b"moved",
    }
}

/// Appends the peer's record, if there is one.
fn put_found(found: &Option<Rec>, out: &mut Vec<u8>) -> Result<(), Memory>
    ensures text { OnOk result (out.new.items ≡ out.old.items ++ found_text found.now) }
    ensures kept { take (vec_len out.old) out.new.items ≡ out.old.items }
{
    match found {
        Some(rec) => put_rec(rec, out),
        None => put_text(b"unknown", out),
    }
}

/// Appends the three counts.
fn put_size(counts: &Counts, out: &mut Vec<u8>) -> Result<(), Memory>
    ensures text { OnOk result (out.new.items ≡ out.old.items ++ size_text counts.now) }
    ensures kept { take (vec_len out.old) out.new.items ≡ out.old.items }
{
    put_number(b"size new ", u64::from(counts.new_count), out)?;
    put_number(b" tried ", u64::from(counts.tried_count), out)?;
    put_number(b" clashes ", u64::from(counts.clashes), out)
}

/// Appends the result of `select`.
fn put_picked(picked: &Picked, out: &mut Vec<u8>) -> Result<(), Memory>
    ensures text { OnOk result (out.new.items ≡ out.old.items ++ picked_text picked.now) }
    ensures kept { take (vec_len out.old) out.new.items ≡ out.old.items }
{
    match picked {
        Picked::One(peer, last_try) => put_timed(b"one ", peer, *last_try, out),
        Picked::Nothing => put_text(b"nothing", out),
        Picked::Exhausted => put_text(b"exhausted", out),
    }
}

/// Appends a text, a peer and a time in seconds since 1970.
fn put_timed(word: &[u8], peer: &Peer, time: u32, out: &mut Vec<u8>) -> Result<(), Memory>
    ensures text { OnOk result (out.new.items
        ≡ out.old.items ++ timed_text word.now peer.now time) }
    ensures kept { take (vec_len out.old) out.new.items ≡ out.old.items }
{
    put_text(word, out)?;
    put_peer(peer, out)?;
    put_number(b" ", u64::from(time), out)
}

/// Appends the peers of a sample.
#[tactic(auto, using(crate::proofs::Kept::kept_after))]
fn put_sample(peers: &[Peer], out: &mut Vec<u8>) -> Result<(), Memory>
    ensures text { OnOk result (out.new.items ≡ out.old.items ++ sample_text peers.now) }
    ensures kept { take (vec_len out.old) out.new.items ≡ out.old.items }
{
    put_number(b"sample ", peers.len() as u64, out)?;
    put_peers(peers, out)
}

/// Appends each peer after a space.
fn put_peers(peers: &[Peer], out: &mut Vec<u8>) -> Result<(), Memory>
    ensures text { OnOk result (out.new.items ≡ out.old.items ++ flat_map (λ p.
        codes " " ++ peer_text p) peers.now) }
    ensures kept { take (vec_len out.old) out.new.items ≡ out.old.items }
{
    for peer in peers {
        put_text(b" ", out)?;
        put_peer(peer, out)?;
    }
    Ok(())
}

/// Appends how many collisions had which result.
fn put_resolved(resolved: &Resolved, out: &mut Vec<u8>) -> Result<(), Memory>
    ensures text { OnOk result (out.new.items ≡ out.old.items ++ resolved_text resolved.now) }
    ensures kept { take (vec_len out.old) out.new.items ≡ out.old.items }
{
    put_number(b"resolved erased ", u64::from(resolved.erased), out)?;
    put_number(b" moved ", u64::from(resolved.moved), out)?;
    put_number(b" kept ", u64::from(resolved.kept), out)
}

/// Appends the occupant of a collision's slot, and when it was last tried.
fn put_clash(found: &Option<(Peer, u32)>, out: &mut Vec<u8>) -> Result<(), Memory>
    ensures text { OnOk result (out.new.items ≡ out.old.items ++ clash_text found.now) }
    ensures kept { take (vec_len out.old) out.new.items ≡ out.old.items }
{
    match found {
        Some((peer, last_try)) => put_timed(b"clash ", peer, *last_try, out),
        None => put_text(b"none", out),
    }
}

/// Appends all records, each on a line, and how many there are.
fn put_dump(recs: &[Rec], out: &mut Vec<u8>) -> Result<(), Memory>
    ensures text { OnOk result (out.new.items ≡ out.old.items ++ dump_text recs.now) }
    ensures kept { take (vec_len out.old) out.new.items ≡ out.old.items }
{
    put_rec_lines(recs, out)?;
    put_number(b"end ", recs.len() as u64, out)
}

/// Appends each record on a line.
#[tactic(auto, using(crate::proofs::Kept::kept_after))]
fn put_rec_lines(recs: &[Rec], out: &mut Vec<u8>) -> Result<(), Memory>
    ensures text { OnOk result (out.new.items ≡ out.old.items ++ flat_map (λ r.
        rec_text r ++ codes "\n") recs.now) }
    ensures kept { take (vec_len out.old) out.new.items ≡ out.old.items }
{
    for rec in recs {
        put_rec(rec, out)?;
        put_text(b"\n", out)?;
    }
    Ok(())
}

/// Appends a record, on one line.
#[tactic(auto, using(crate::proofs::Kept::kept_after))]
fn put_rec(rec: &Rec, out: &mut Vec<u8>) -> Result<(), Memory>
    ensures text { OnOk result (out.new.items ≡ out.old.items ++ rec_text rec.now) }
    ensures kept { take (vec_len out.old) out.new.items ≡ out.old.items }
{
    put_origin(rec, out)?;
    put_seen(rec, out)?;
    put_tries(rec, out)?;
    put_place(&rec.place, out)
}

/// Appends a record's peer and its source.
fn put_origin(rec: &Rec, out: &mut Vec<u8>) -> Result<(), Memory>
    ensures text { OnOk result (out.new.items ≡ out.old.items ++ origin_text rec.now) }
    ensures kept { take (vec_len out.old) out.new.items ≡ out.old.items }
{
    put_text(b"peer ", out)?;
    put_peer(&rec.peer, out)?;
    put_text(b" source ", out)?;
    put_addr(&rec.source, out)
}

/// Appends when a record's peer was last seen, in seconds since 1970, and its services.
fn put_seen(rec: &Rec, out: &mut Vec<u8>) -> Result<(), Memory>
    ensures text { OnOk result (out.new.items ≡ out.old.items ++ seen_text rec.now) }
    ensures kept { take (vec_len out.old) out.new.items ≡ out.old.items }
{
    put_number(b" time ", u64::from(rec.time), out)?;
    put_number(b" services ", rec.services, out)
}

/// Appends when a record's peer was reached and tried, in seconds since 1970, and how often it
/// failed since.
fn put_tries(rec: &Rec, out: &mut Vec<u8>) -> Result<(), Memory>
    ensures text { OnOk result (out.new.items ≡ out.old.items ++ tries_text rec.now) }
    ensures kept { take (vec_len out.old) out.new.items ≡ out.old.items }
{
    put_number(b" success ", u64::from(rec.last_success), out)?;
    put_number(b" try ", u64::from(rec.last_try), out)?;
    put_number(b" attempts ", u64::from(rec.attempts), out)
}

/// Appends the table of a record, and its buckets in the new table.
#[tactic(auto, using(crate::proofs::Kept::kept_after))]
fn put_place(place: &Place, out: &mut Vec<u8>) -> Result<(), Memory>
    ensures text { OnOk result (out.new.items ≡ out.old.items ++ place_text place.now) }
    ensures kept { take (vec_len out.old) out.new.items ≡ out.old.items }
{
    match place {
        Place::Tried => put_text(b" tried", out),
        Place::New(buckets) => {
            put_text(b" new ", out)?;
            put_numbers(buckets.items(), out)
        }
    }
}

/// Appends numbers with commas between them.
fn put_numbers(numbers: &[u16], out: &mut Vec<u8>) -> Result<(), Memory>
    ensures text { OnOk result (out.new.items ≡ out.old.items ++ numbers_text numbers.now) }
    ensures kept { take (vec_len out.old) out.new.items ≡ out.old.items }
{
    for (i, number) in numbers.iter().enumerate() {
        let comma: &[u8] = if i == 0 { b"" } else { b"," };
        put_number(comma, u64::from(*number), out)?;
    }
    Ok(())
}
