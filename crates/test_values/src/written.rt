//! The call `written WHAT`: messages, faults, copies and comparisons.

ghost use Rattle.std.specs.Prelude.{◌≡◌, IfOk};

use crate::records::record;
use crate::text::{bool_text, bytes_of, hex_text};
use crate::unread::Unread;
use addr_codecs::{AddressFault, MsgFault, write_addr};
use arrayvec::ArrayVec;
use log_lines::LineFault;
use net_addr::{Entry, Net, NetAddr, Peer};
use peer_rec::{Buckets, Counts, Good, Peers, Picked, Place, Rec, Recs, Resolved};
use std::alloc::Global;

/// The address `::` in hexadecimal.
const ZEROS: &str = "00000000000000000000000000000000";

/// Returns an entry of the time 1700000000 and the port 8333, for the address of the network with
/// these bytes in hexadecimal.
fn entry(alloc: Global, net: Net, text: &str, services: u64) -> Result<Entry, Unread>
    ensures { IfOk result (λ e. e.peer.addr.net ≡ net) }
{
    let bytes = bytes_of(alloc, text)?;
    match NetAddr::of(net, bytes.as_slice()) {
        Some(addr) => Ok(Entry {
            time: 1_700_000_000,
            services,
            peer: Peer { addr, port: 8333 },
        }),
        None => Err(Unread::Form),
    }
}

/// `written addr`: messages of one and of two entries, with an address in 4 and in 16 bytes.
fn addr_messages(alloc: Global) -> Result<String, Unread> {
    let ipv4 = entry(alloc, Net::Ipv4, "08080808", 1)?;
    let mut ipv6 = entry(alloc, Net::Ipv6, ZEROS, 253)?;
    ipv6.peer.port = 1;
    let Ok(one) = write_addr(alloc, &[ipv4]) else {
        return Err(Unread::Memory);
    };
    let Ok(two) = write_addr(alloc, &[ipv4, ipv6]) else {
        return Err(Unread::Memory);
    };
    let one = hex_text(alloc, one.items())?;
    let two = hex_text(alloc, two.items())?;
    Ok(format!(in alloc; "{one} {two}")?)
}

/// `written address-faults`: the text of each fault of an address.
fn address_faults(alloc: Global) -> Result<String, Unread> {
    let (truncated, non_canonical) = (AddressFault::Truncated, AddressFault::NonCanonical);
    let (too_long, bad_length) = (AddressFault::TooLong, AddressFault::BadLength);
    Ok(format!(in alloc; "{truncated} {non_canonical} {too_long} {bad_length}")?)
}

/// Returns two buckets of the new table.
fn two_buckets() -> Place {
    let mut items = ArrayVec::new();
    let _ = items.try_extend_from_slice(&[87, 803]);
    Place::New(Buckets::of(items))
}

/// Whether the numbers of the record are those of `record`.
fn has_numbers(rec: &Rec) -> bool {
    (rec.number, rec.peer.port, rec.source) == (1, 8333, NetAddr::ipv4([1, 2, 3, 4]))
        && (rec.time, rec.services, rec.last_success) == (2, 3, 4)
        && (rec.last_try, rec.last_count, rec.attempts) == (5, 6, 7)
}

/// Whether copies in either table have the numbers and the place.
fn are_copied() -> bool {
    let copy = record(two_buckets()).copy();
    let tried = record(Place::Tried).copy();
    has_numbers(&copy)
        && matches!(&copy.place, Place::New(buckets) if buckets.items() == [87, 803].as_slice())
        && matches!(&tried.place, Place::Tried)
        && Buckets::one(87).copy().items() == [87].as_slice()
}

/// Whether lists have the items that they are made of.
fn are_listed(alloc: Global) -> Result<bool, Unread> {
    let peer = record(Place::Tried).peer;
    let peers = Peers::of(vec![in alloc; peer]?);
    let recs = Recs::of(vec![in alloc; record(Place::Tried)]?);
    Ok(peers.items() == [peer].as_slice() && matches!(recs.items(), [rec] if has_numbers(rec)))
}

/// Whether equal answers are equal, copies among them, and others are not.
fn are_compared() -> Result<bool, Unread> {
    let peer = record(Place::Tried).peer;
    Ok(
        Picked::One(peer, 5).clone()? == Picked::One(peer, 5)
            && Picked::Nothing != Picked::Exhausted
            && Good::Moved.clone()? == Good::Moved
            && Good::Unknown != Good::Already
            && Good::Already != Good::Clash,
    )
}

/// Whether counts have the numbers that they are made of.
fn are_counted() -> bool {
    let counts = Counts {
        new_count: 1,
        tried_count: 2,
        clashes: 3,
    };
    let resolved = Resolved {
        erased: 1,
        moved: 2,
        kept: 3,
    };
    (counts.new_count, counts.tried_count, counts.clashes) == (1, 2, 3)
        && (resolved.erased, resolved.moved, resolved.kept) == (1, 2, 3)
}

/// `written memory-faults`: the texts of the faults for which no bytes are to blame.
fn memory_faults(alloc: Global) -> Result<String, Unread> {
    let (message, line) = (MsgFault::Memory, LineFault::Memory);
    Ok(format!(in alloc; "{message}, {line}")?)
}

/// `written WHAT`.
pub(crate) fn answer(alloc: Global, what: &str) -> Result<String, Unread> {
    match what {
        "addr" => addr_messages(alloc),
        "copies" => bool_text(alloc, are_copied()),
        "lists" => bool_text(alloc, are_listed(alloc)?),
        "answers" => bool_text(alloc, are_compared()?),
        "counts" => bool_text(alloc, are_counted()),
        "memory-faults" => memory_faults(alloc),
        "address-faults" => address_faults(alloc),
        _ => Err(Unread::Form),
    }
}
