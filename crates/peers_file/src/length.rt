//! The length of a file before it is written: `record_length`, `EMPTY_FILE` and `RECORD_ROOM`.

ghost use Rattle.std.specs.Prelude.{◌≡◌, ◌≤◌, length};
ghost use Rattle.wire_num.specs.CompactSize.{compact_size};
ghost use Rattle.addr_codecs.specs.Texts.{address_text, prefix_of};
ghost use Rattle.peer_rec.specs.declared.file_rec.FileRec.{FileRec};
ghost use Rattle.peers_file.specs.Texts.{record_text};

use net_addr::{Net, NetAddr};
use slot_grid::NEW_BUCKETS;

/// The length in bytes of the file of tables without records: what comes before the records, the
/// number of pairs of each bucket, and both sums.
pub const EMPTY_FILE: usize = 50 + 4 * NEW_BUCKETS as usize + 64;

/// The maximum length of a record in bytes: two addresses have at most 34 each.
pub const RECORD_ROOM: usize = 99;

/// Returns the length in bytes of a number as a CompactSize.
#[tactic(auto, unfolding(wire_num::specs::CompactSize::compact_size))]
fn compact_length(number: u64) -> usize
    ensures exact { result ≡ length (compact_size number) }
    ensures short { result ≤ 9 }
{
    if number < 253 {
        1
    } else if number < 65_536 {
        3
    } else if number < 4_294_967_296 {
        5
    } else {
        9
    }
}

/// Returns how many bytes are written before those of an address: an internal name is written in
/// the old form.
fn prefix_length(net: Net) -> usize
    ensures exact { result ≡ length (prefix_of net) }
    ensures short { result ≤ 6 }
{
    match net {
        Net::Internal => 6,
        _ => 0,
    }
}

/// Returns the length in bytes of an address as `addrv2` has it. One below 253 is its own
/// CompactSize.
fn address_length(addr: &NetAddr) -> usize
    ensures exact { result ≡ length (address_text addr.now) }
    ensures short { result ≤ 34 }
{
    2 + prefix_length(addr.net()) + addr.bytes().len()
}

/// Returns the length in bytes of a record in a file: its peer's address, its source and its
/// services decide on it.
pub fn record_length(addr: &NetAddr, source: &NetAddr, services: u64) -> usize
    ensures exact { (rec : FileRec) → rec.peer.addr ≡ addr.now → rec.source ≡ source.now
        → rec.services ≡ services → result ≡ length (record_text rec) }
    ensures short { result ≤ RECORD_ROOM }
{
    22 + compact_length(services) + address_length(addr) + address_length(source)
}
