//! `read_file`: magic, checksum and one anchor after another; with `Anchors`, `MAX_ANCHORS` and
//! `MAX_FILE`.

ghost use Rattle.std.specs.Prelude.{◌≡◌, ◌≢◌, ◌≤◌, List, length, vec_len, bytes_eq, IfOk, IfErr, Ok, Err, MatchResult, None, Some};
ghost use Rattle.std.specs.Int.{w16, w32};
ghost use Rattle.net_addr.specs.OldForm.{from_v1};
ghost use Rattle.net_addr.specs.declared.peer.Entry.{Entry};
ghost use Rattle.wire_num.specs.Readings.{Gives, all_of, be_at, compact_at, le_at, map_fault_at, times_at};
ghost use Rattle.addr_codecs.specs.Readings.{address_at};
ghost use Rattle.anchors.specs.Faults.{UnlessMemory, of_address, of_number};
ghost use Rattle.anchors.specs.Layout.{HasFileFault, IsFile, between, or_zero, whole_fault};
ghost use Rattle.anchors.specs.Readings.{GivesUnlessMemory, anchor_at, body_at, count_at, layout_at};
ghost use Rattle.anchors.specs.declared.fault.AnchorsFault.{AnchorsFault};
ghost use Rattle.anchors.specs.declared.fault.AnchorsFault.TheVariants.{Memory, Trailing};
ghost use Rattle.anchors.specs.declared.read.TheConstants.{MAX_ANCHORS};

use crate::fault::{AnchorCause, AnchorsFault};
use addr_codecs::take_address;
use host_io::ListOf;
use net_addr::{Entry, NetAddr, Peer};
use placing::double_sha256;
use std::alloc::Global;
use wire_num::{take_be16, take_compact, take_le32};

/// The anchors of a file in their order: each peer, when it was last seen, and its services.
pub type Anchors = ListOf<Entry>;

/// Anchors of a file, at most. Bitcoin Core writes two (`MAX_BLOCK_RELAY_ONLY_ANCHORS` in net.h),
/// and takes the first two of a file.
pub const MAX_ANCHORS: u64 = 1000;

/// Bytes of a file, at most.
pub const MAX_FILE: usize = 1_048_576;

/// Takes a number of four bytes of an anchor.
fn take_number(index: u32, bytes: &[u8]) -> Result<(u32, &[u8]), AnchorsFault>
    ensures { Gives (λ x. (x.0, x.1.now)) result
        (map_fault_at (of_number index) (le_at w32) bytes.now) }
{
    match take_le32(bytes) {
        Ok(found) => Ok(found),
        Err(fault) => Err(AnchorsFault::of_number(index, fault)),
    }
}

/// Takes the first field of an anchor, of which all but the low 19 bits say that its address is
/// laid out as in `addrv2`.
#[tactic(auto, unfolding(crate::specs::Readings::layout_at))]
fn take_layout(index: u32, bytes: &[u8]) -> Result<(u32, &[u8]), AnchorsFault>
    ensures { Gives (λ x. (x.0, x.1.now)) result (layout_at index bytes.now) }
{
    let (number, rest) = take_number(index, bytes)?;
    if number / 0x8_0000 != 1024 {
        return Err(AnchorsFault::Anchor {
            index,
            cause: AnchorCause::Version,
        });
    }
    Ok((number, rest))
}

/// Takes the services of an anchor as a CompactSize.
fn take_services(index: u32, bytes: &[u8]) -> Result<(u64, &[u8]), AnchorsFault>
    ensures { Gives (λ x. (x.0, x.1.now)) result
        (map_fault_at (of_number index) compact_at bytes.now) }
{
    match take_compact(bytes) {
        Ok(found) => Ok(found),
        Err(fault) => Err(AnchorsFault::of_number(index, fault)),
    }
}

/// Takes an address of `addrv2`, or `None` if a node has no such address.
fn take_addr(index: u32, bytes: &[u8]) -> Result<(Option<NetAddr>, &[u8]), AnchorsFault>
    ensures { Gives (λ x. (x.0, x.1.now)) result
        (map_fault_at (of_address index) address_at bytes.now) }
{
    match take_address(bytes) {
        Ok(found) => Ok(found),
        Err(fault) => Err(AnchorsFault::of_address(index, fault)),
    }
}

/// Takes the port of an anchor.
fn take_port(index: u32, bytes: &[u8]) -> Result<(u16, &[u8]), AnchorsFault>
    ensures { Gives (λ x. (x.0, x.1.now)) result
        (map_fault_at (of_number index) (be_at w16) bytes.now) }
{
    match take_be16(bytes) {
        Ok(found) => Ok(found),
        Err(fault) => Err(AnchorsFault::of_number(index, fault)),
    }
}

/// Returns the address, or IPv6 all zero if a node has no such address.
fn or_zero(addr: Option<NetAddr>) -> NetAddr
    ensures { result ≡ or_zero addr }
{
    match addr {
        Some(addr) => addr,
        None => NetAddr::from_v1(&[0; 16]),
    }
}

/// Takes an anchor: a first field that says how it is laid out, the time, the services, the address
/// and the port (`CAddress` in protocol.h of Bitcoin Core).
#[tactic(auto, unfolding(crate::specs::Readings::anchor_at))]
fn take_anchor(index: u32, bytes: &[u8]) -> Result<(Entry, &[u8]), AnchorsFault>
    ensures { Gives (λ x. (x.0, x.1.now)) result (anchor_at index bytes.now) }
{
    let (_, rest) = take_layout(index, bytes)?;
    let (time, rest) = take_number(index, rest)?;
    let (services, rest) = take_services(index, rest)?;
    let (addr, rest) = match take_addr(index, rest) {
        Ok(found) => found,
        Err(fault) => return Err(fault),
    };
    let (port, rest) = take_port(index, rest)?;
    let addr = or_zero(addr);
    let anchor = Entry {
        time,
        services,
        peer: Peer { addr, port },
    };
    Ok((anchor, rest))
}

/// Takes the number of anchors.
#[tactic(auto, unfolding(crate::specs::Readings::count_at))]
fn take_count(bytes: &[u8]) -> Result<(u64, &[u8]), AnchorsFault>
    ensures found { Gives (λ x. (x.0, x.1.now)) result (count_at bytes.now) }
    ensures few { IfOk result (λ x. x.0 ≤ MAX_ANCHORS) }
{
    let (count, rest) = match take_compact(bytes) {
        Ok(found) => found,
        Err(fault) => return Err(AnchorsFault::of_count(fault)),
    };
    if count > MAX_ANCHORS {
        return Err(AnchorsFault::TooMany { count });
    }
    Ok((count, rest))
}

/// Takes this many anchors.
fn take_anchors(
    alloc: Global,
    count: u32,
    bytes: &[u8],
) -> Result<(Vec<Entry>, &[u8]), AnchorsFault>
    ensures found { GivesUnlessMemory (λ x. (x.0.items, x.1.now)) result
        (times_at 0 count anchor_at bytes.now) }
    ensures count { IfOk result (λ x. vec_len x.0 ≡ count) }
{
    let mut anchors = Vec::new(alloc);
    let mut rest = bytes;
    for index in 0..count {
        let (anchor, after) = match take_anchor(index, rest) {
            Ok(found) => found,
            Err(fault) => return Err(fault),
        };
        anchors.push(anchor)?;
        rest = after;
    }
    Ok((anchors, rest))
}

/// Reads what is between the magic and the sum of a file.
#[tactic(auto, unfolding(crate::specs::Readings::body_at))]
fn read_body(alloc: Global, bytes: &[u8]) -> Result<Anchors, AnchorsFault>
    ensures found { GivesUnlessMemory (λ anchors. anchors) result
        (all_of body_at Trailing bytes.now) }
    ensures few { IfOk result (λ anchors. length anchors ≤ MAX_ANCHORS) }
{
    let (count, rest) = take_count(bytes)?;
    match take_anchors(alloc, count as u32, rest) {
        Ok((anchors, [])) => Ok(Anchors::of(anchors)),
        Ok(_) => Err(AnchorsFault::Trailing),
        Err(fault) => Err(fault),
    }
}

/// Returns `true` if both are the same bytes.
fn are_same(bytes: &[u8], others: &[u8]) -> bool
    ensures { result ≡ bytes_eq bytes.now others.now }
{
    bytes == others
}

/// Returns the bytes between the magic and the sum of a file that passes the tests of the file as a
/// whole, or the first fault.
#[tactic(auto, unfolding(crate::specs::Layout::whole_fault))]
fn check_whole(bytes: &[u8], magic: [u8; 4]) -> Result<&[u8], AnchorsFault>
    ensures { MatchResult result
        (λ middle. (whole_fault magic bytes.now ≡ None) × (middle.now ≡ between bytes.now))
        (λ fault. whole_fault magic bytes.now ≡ Some fault) }
{
    let length = bytes.len();
    if length > MAX_FILE {
        return Err(AnchorsFault::TooLarge {
            size: length as u64,
        });
    }
    if length < 36 {
        return Err(AnchorsFault::Truncated);
    }
    if !are_same(&bytes[..4], &magic) {
        return Err(AnchorsFault::BadMagic);
    }
    let (before_sum, sum) = bytes.split_at(length - 32);
    if !are_same(sum, &double_sha256(before_sum)) {
        return Err(AnchorsFault::BadSum);
    }
    Ok(&before_sum[4..])
}

/// Reads the file of a node's anchors, of the chain whose files begin with these four bytes
/// (`ReadAnchors` and `DeserializeDB` in addrdb.cpp of Bitcoin Core, which removes the file then).
///
/// An error is the first fault: of the file as a whole, and then from its start; `Memory` is
/// possible instead of any result.
pub fn read_file(alloc: Global, bytes: &[u8], magic: [u8; 4]) -> Result<Anchors, AnchorsFault>
    ensures found { IfOk result (λ anchors. IsFile magic bytes.now anchors) }
    ensures few { IfOk result (λ anchors. length anchors ≤ MAX_ANCHORS) }
    ensures only { (anchors : List Entry) → IsFile magic bytes.now anchors →
        UnlessMemory result (Ok anchors) }
    ensures cause { IfErr result (λ fault. fault ≢ Memory → HasFileFault magic bytes.now fault) }
    ensures first { (fault : AnchorsFault) → HasFileFault magic bytes.now fault →
        UnlessMemory result (Err fault) }
{
    match check_whole(bytes, magic) {
        Ok(middle) => read_body(alloc, middle),
        Err(fault) => Err(fault),
    }
}
