//! Reads one record: layout, addresses in either form, source, times and attempts.

ghost use Rattle.std.specs.Prelude.{◌≡◌, ◌≤◌, ◌/◌, IfOk};
ghost use Rattle.std.specs.Int.{w16};
ghost use Rattle.net_addr.specs.OldForm.{from_v1};
ghost use Rattle.wire_num.specs.Readings.{Gives, then_at, value_at, map_fault_at, bytes_at, be_at, compact_at};
ghost use Rattle.addr_codecs.specs.Readings.{address_at};
ghost use Rattle.peer_rec.specs.declared.file_rec.TheConstants.{MAX_ATTEMPTS};
ghost use Rattle.peers_file.specs.Layout.{or_zero, file_rec};
ghost use Rattle.peers_file.specs.Faults.{of_number, of_address};
ghost use Rattle.peers_file.specs.Readings.{field_at, layout_at, success_at, attempts_at, record_at, old_record_at, record_in_at};

use crate::fault::{FileFault, RecordCause};
use addr_codecs::take_address;
use net_addr::{NetAddr, Peer};
use peer_rec::{FileRec, MAX_ATTEMPTS};
use wire_num::{take_be16, take_compact, take_le32, take_le64};

/// Takes the first field of a record, of which all but the low 19 bits say how the record is laid
/// out.
#[tactic(auto, unfolding(crate::specs::Readings::layout_at))]
fn take_layout(index: u32, high: u32, bytes: &[u8]) -> Result<(u32, &[u8]), FileFault>
    ensures { Gives (λ x. (x.0, x.1.now)) result (layout_at index high bytes.now) }
{
    let (number, rest) = take_le32(bytes)?;
    if number / 0x8_0000 != high {
        return Err(FileFault::Record {
            index,
            cause: RecordCause::Version,
        });
    }
    Ok((number, rest))
}

/// Takes the last success, in seconds since 1970.
#[tactic(auto, unfolding(crate::specs::Readings::success_at))]
fn take_success(index: u32, bytes: &[u8]) -> Result<(u32, &[u8]), FileFault>
    ensures { Gives (λ x. (x.0, x.1.now)) result (success_at index bytes.now) }
{
    let (time, rest) = take_le64(bytes)?;
    if time >= 0x1_0000_0000 {
        return Err(FileFault::Time { index });
    }
    Ok((time as u32, rest))
}

/// Takes the attempts since the last success.
#[tactic(auto, unfolding(crate::specs::Readings::attempts_at))]
fn take_attempts(index: u32, bytes: &[u8]) -> Result<(u32, &[u8]), FileFault>
    ensures found { Gives (λ x. (x.0, x.1.now)) result (attempts_at index bytes.now) }
    ensures few { IfOk result (λ x. x.0 ≤ MAX_ATTEMPTS) }
{
    let (attempts, rest) = take_le32(bytes)?;
    if attempts > MAX_ATTEMPTS {
        return Err(FileFault::Attempts { index });
    }
    Ok((attempts, rest))
}

/// Returns the address, or IPv6 all zero if a node has no such address.
fn or_zero(addr: Option<NetAddr>) -> NetAddr
    ensures { result ≡ or_zero addr }
{
    match addr {
        Some(addr) => addr,
        None => NetAddr::from_v1(&[0; 16]),
    }
}

/// Takes the services of a node as a CompactSize.
fn take_services(index: u32, bytes: &[u8]) -> Result<(u64, &[u8]), FileFault>
    ensures { Gives (λ x. (x.0, x.1.now)) result
        (map_fault_at (of_number index) compact_at bytes.now) }
{
    match take_compact(bytes) {
        Ok(found) => Ok(found),
        Err(fault) => Err(FileFault::of_number(index, fault)),
    }
}

/// Takes an address of `addrv2`, or `None` if a node has no such address.
fn take_addr(index: u32, bytes: &[u8]) -> Result<(Option<NetAddr>, &[u8]), FileFault>
    ensures { Gives (λ x. (x.0, x.1.now)) result
        (map_fault_at (of_address index) address_at bytes.now) }
{
    match take_address(bytes) {
        Ok(found) => Ok(found),
        Err(fault) => Err(FileFault::of_address(index, fault)),
    }
}

/// Takes the sixteen bytes of an address of formats 1 and 2.
fn take_sixteen(bytes: &[u8]) -> Result<([u8; 16], &[u8]), FileFault>
    ensures { Gives (λ x. (x.0, x.1.now)) result (field_at (bytes_at 16) bytes.now) }
{
    match bytes.split_first_chunk::<16>() {
        Some((addr, rest)) => Ok((*addr, rest)),
        None => Err(FileFault::Truncated),
    }
}

/// Takes the last two fields of a record, which all formats share, and makes the record of them and
/// of the fields before.
fn take_end(
    index: u32,
    peer: Peer,
    source: NetAddr,
    time: u32,
    services: u64,
    bytes: &[u8],
) -> Result<(FileRec, &[u8]), FileFault>
    ensures found { Gives (λ x. (x.0, x.1.now)) result
        (then_at (success_at index) (λ success.
        then_at (attempts_at index) (λ attempts.
        value_at (file_rec peer.addr peer.port source time services success attempts)))
        bytes.now) }
    ensures attempts { IfOk result (λ x. x.0.attempts ≤ MAX_ATTEMPTS) }
{
    let (last_success, rest) = take_success(index, bytes)?;
    let (attempts, rest) = take_attempts(index, rest)?;
    let rec = FileRec {
        peer,
        source,
        time,
        services,
        last_success,
        attempts,
    };
    Ok((rec, rest))
}

/// Takes the peer of a record of formats 3 and 4 and what comes after it, and makes the record.
fn take_new_peer(
    index: u32,
    time: u32,
    services: u64,
    bytes: &[u8],
) -> Result<(FileRec, &[u8]), FileFault>
    ensures found { Gives (λ x. (x.0, x.1.now)) result
        (then_at (map_fault_at (of_address index) address_at) (λ peer.
        then_at (field_at (be_at w16)) (λ port.
        then_at (map_fault_at (of_address index) address_at) (λ source.
        then_at (success_at index) (λ success.
        then_at (attempts_at index) (λ attempts.
        value_at (file_rec (or_zero peer) port (or_zero source) time services success
        attempts)))))) bytes.now) }
    ensures attempts { IfOk result (λ x. x.0.attempts ≤ MAX_ATTEMPTS) }
{
    let (peer, rest) = match take_addr(index, bytes) {
        Ok(found) => found,
        Err(fault) => return Err(fault),
    };
    let (port, rest) = take_be16(rest)?;
    let (source, rest) = match take_addr(index, rest) {
        Ok(found) => found,
        Err(fault) => return Err(fault),
    };
    let peer = Peer {
        addr: or_zero(peer),
        port,
    };
    take_end(index, peer, or_zero(source), time, services, rest)
}

/// Takes a record of formats 3 and 4, with addresses as `addrv2` has them.
#[tactic(auto, unfolding(crate::specs::Readings::record_at))]
fn take_new_form(index: u32, bytes: &[u8]) -> Result<(FileRec, &[u8]), FileFault>
    ensures found { Gives (λ x. (x.0, x.1.now)) result (record_at index bytes.now) }
    ensures attempts { IfOk result (λ x. x.0.attempts ≤ MAX_ATTEMPTS) }
{
    let (_, rest) = take_layout(index, 1024, bytes)?;
    let (time, rest) = take_le32(rest)?;
    let (services, rest) = take_services(index, rest)?;
    take_new_peer(index, time, services, rest)
}

/// Takes the peer of a record of formats 1 and 2 and what comes after it, and makes the record.
fn take_old_peer(
    index: u32,
    time: u32,
    services: u64,
    bytes: &[u8],
) -> Result<(FileRec, &[u8]), FileFault>
    ensures found { Gives (λ x. (x.0, x.1.now)) result
        (then_at (field_at (bytes_at 16)) (λ peer.
        then_at (field_at (be_at w16)) (λ port.
        then_at (field_at (bytes_at 16)) (λ source.
        then_at (success_at index) (λ success.
        then_at (attempts_at index) (λ attempts.
        value_at (file_rec (from_v1 peer) port (from_v1 source) time services success
        attempts)))))) bytes.now) }
    ensures attempts { IfOk result (λ x. x.0.attempts ≤ MAX_ATTEMPTS) }
{
    let (peer, rest) = take_sixteen(bytes)?;
    let (port, rest) = take_be16(rest)?;
    let (source, rest) = take_sixteen(rest)?;
    let peer = Peer {
        addr: NetAddr::from_v1(&peer),
        port,
    };
    let source = NetAddr::from_v1(&source);
    take_end(index, peer, source, time, services, rest)
}

/// Takes a record of formats 1 and 2, with addresses of sixteen bytes.
#[tactic(auto, unfolding(crate::specs::Readings::old_record_at))]
fn take_old_form(index: u32, bytes: &[u8]) -> Result<(FileRec, &[u8]), FileFault>
    ensures found { Gives (λ x. (x.0, x.1.now)) result (old_record_at index bytes.now) }
    ensures attempts { IfOk result (λ x. x.0.attempts ≤ MAX_ATTEMPTS) }
{
    let (_, rest) = take_layout(index, 0, bytes)?;
    let (time, rest) = take_le32(rest)?;
    let (services, rest) = take_le64(rest)?;
    take_old_peer(index, time, services, rest)
}

/// Takes a record of a file's format.
pub(crate) fn take_record(
    format: u8,
    index: u32,
    bytes: &[u8],
) -> Result<(FileRec, &[u8]), FileFault>
    ensures found { Gives (λ x. (x.0, x.1.now)) result (record_in_at format index bytes.now) }
    ensures attempts { IfOk result (λ x. x.0.attempts ≤ MAX_ATTEMPTS) }
{
    if format < 3 {
        take_old_form(index, bytes)
    } else {
        take_new_form(index, bytes)
    }
}
