//! The text of a line: `now`, peers, `select`, `clash`, and `addr` with its payload.

ghost use Rattle.std.specs.Prelude.{◌≡◌, ◌≤◌, ◌+◌, ◌++◌, length, take, All, OnOk, vec_len};
ghost use Rattle.net_addr.specs.declared.net.Net.TheVariants.{Ipv4};
ghost use Rattle.addr_codecs.specs.Texts.{addr_entry_text, message_text};
ghost use Rattle.gen_load.specs.Inside.{payload_text};
ghost use Rattle.gen_load.specs.declared.line.TheConstants.{MAX_MESSAGE};
ghost use Rattle.gen_load.specs.Log.{clock_line, addr_line, message_line, peer_line, select_line, clash_line, line_of, drawn_line, draw_entries, past_entries};

use crate::kind::{Kind, kind_of};
use crate::position::{Position, peer_of};
use crate::print::put_peer_between;
use addr_codecs::write_addr;
use net_addr::{Entry, Memory, NetAddr, put_addr, put_number, put_text};

/// The number of random words that a `select` line gives.
const SELECT_WORDS: u64 = 300;

/// The seeds, and the words of `clash` lines, are below this.
const SEEDS: u64 = 1 << 32;

/// The maximum number of entries of a message.
const MAX_ENTRIES: usize = 4;

/// The maximum length of a message in bytes: the number of entries takes one, each entry 30.
const MAX_MESSAGE: usize = 1 + 30 * MAX_ENTRIES;

// After `Memory` each of the functions below may leave a part of its text in the list.

/// Appends the next line without its line feed.
pub fn put_line(position: &mut Position, out: &mut Vec<u8>) -> Result<(), Memory>
    requires past_day { 86400 ≤ position.old.time }
    requires room { position.old.time + 600 ≤ 4294967295 }
    ensures text { OnOk result (out.new.items ≡ out.old.items ++ (drawn_line position.old).text) }
    ensures after { OnOk result (position.new ≡ (drawn_line position.old).after) }
    ensures kept { take (vec_len out.old) out.new.items ≡ out.old.items }
{
    let number = position.draw(16);
    put_by_kind(kind_of(number), position, out)
}

/// Appends a line of this kind without its line feed.
fn put_by_kind(kind: Kind, position: &mut Position, out: &mut Vec<u8>) -> Result<(), Memory>
    requires past_day { 86400 ≤ position.old.time }
    requires room { position.old.time + 600 ≤ 4294967295 }
    ensures text { OnOk result (out.new.items ≡
        out.old.items ++ (line_of kind position.old).text) }
    ensures after { OnOk result (position.new ≡ (line_of kind position.old).after) }
    ensures kept { take (vec_len out.old) out.new.items ≡ out.old.items }
{
    match kind {
        Kind::Now => put_now(position, out),
        Kind::Addr => put_message(position, out),
        Kind::Good => put_peer_line(b"good ", position, b" test", out),
        Kind::Attempt => put_peer_line(b"attempt ", position, b" count", out),
        Kind::Connected => put_peer_line(b"connected ", position, b"", out),
        Kind::Select => put_select(position, out),
        Kind::Clash => put_clash(position, out),
        Kind::Resolve => put_text(b"resolve", out),
    }
}

/// Lets the clock go on by up to ten minutes, and appends the line that sets it.
fn put_now(position: &mut Position, out: &mut Vec<u8>) -> Result<(), Memory>
    requires { position.old.time + 600 ≤ 4294967295 }
    ensures text { OnOk result (out.new.items ≡ out.old.items ++ (clock_line position.old).text) }
    ensures after { OnOk result (position.new ≡ (clock_line position.old).after) }
    ensures kept { take (vec_len out.old) out.new.items ≡ out.old.items }
{
    let growth = 1 + position.draw(600) as u32;
    position.time += growth;
    put_number(b"now ", u64::from(position.time), out)
}

/// Appends a line with a peer.
fn put_peer_line(
    word: &[u8],
    position: &mut Position,
    after: &[u8],
    out: &mut Vec<u8>,
) -> Result<(), Memory>
    ensures text { OnOk result (out.new.items ≡
        out.old.items ++ (peer_line word.now after.now position.old).text) }
    ensures after { OnOk result (position.new ≡
        (peer_line word.now after.now position.old).after) }
    ensures kept { take (vec_len out.old) out.new.items ≡ out.old.items }
{
    let peer = position.draw_peer();
    put_peer_between(word, &peer, after, out)
}

/// Appends a `select` line.
fn put_select(position: &mut Position, out: &mut Vec<u8>) -> Result<(), Memory>
    ensures text { OnOk result (out.new.items ≡ out.old.items ++ (select_line position.old).text) }
    ensures after { OnOk result (position.new ≡ (select_line position.old).after) }
    ensures kept { take (vec_len out.old) out.new.items ≡ out.old.items }
{
    let seed = position.draw(SEEDS);
    put_number(b"select any all @", seed, out)?;
    put_number(b":", SELECT_WORDS, out)
}

/// Appends a `clash` line.
fn put_clash(position: &mut Position, out: &mut Vec<u8>) -> Result<(), Memory>
    ensures text { OnOk result (out.new.items ≡ out.old.items ++ (clash_line position.old).text) }
    ensures after { OnOk result (position.new ≡ (clash_line position.old).after) }
    ensures kept { take (vec_len out.old) out.new.items ≡ out.old.items }
{
    let word = position.draw(SEEDS);
    put_number(b"clash ", word, out)
}

/// Appends an `addr` line: its source, one to four entries, and a seed for a word each.
fn put_message(position: &mut Position, out: &mut Vec<u8>) -> Result<(), Memory>
    requires { 86400 ≤ position.old.time }
    ensures text { OnOk result (out.new.items ≡ out.old.items ++ (addr_line position.old).text) }
    ensures after { OnOk result (position.new ≡ (addr_line position.old).after) }
    ensures kept { take (vec_len out.old) out.new.items ≡ out.old.items }
{
    let source = position.draw_peer();
    let count = 1 + position.draw(4) as usize;
    let entries = draw_entries(position, count);
    let seed = position.draw(SEEDS);
    put_addr_line(&source.addr, &entries[..count], seed, out)
}

/// Returns the entries of a message at the beginning of an array, so that they take no memory. What
/// is after the first `count` of them is no part of the message.
fn draw_entries(position: &mut Position, count: usize) -> [Entry; MAX_ENTRIES]
    requires past_day { 86400 ≤ position.old.time }
    requires room { count ≤ 4 }
    ensures entries { take count result ≡ draw_entries count position.old }
    ensures after { position.new ≡ past_entries count position.old }
{
    let blank = Entry {
        time: 0,
        services: 0,
        peer: peer_of(0),
    };
    let mut entries = [blank; MAX_ENTRIES];
    for i in 0..count {
        entries[i] = position.draw_entry();
    }
    entries
}

/// Appends an `addr` line of these entries.
fn put_addr_line(
    source: &NetAddr,
    entries: &[Entry],
    seed: u64,
    out: &mut Vec<u8>,
) -> Result<(), Memory>
    requires count { length entries.now ≤ 4 }
    requires networks { All (λ e. e.peer.addr.net ≡ Ipv4) entries.now }
    requires short { length (message_text addr_entry_text entries.now) ≤ MAX_MESSAGE }
    ensures text { OnOk result (out.new.items ≡
        out.old.items ++ message_line source.now entries.now seed) }
    ensures kept { take (vec_len out.old) out.new.items ≡ out.old.items }
{
    put_text(b"addr ", out)?;
    put_addr(source, out)?;
    put_text(b" ", out)?;
    put_payload(entries, out)?;
    put_number(b" @", seed, out)?;
    put_number(b":", entries.len() as u64, out)
}

/// Appends the `addr` message of the entries, in hexadecimal digits.
fn put_payload(entries: &[Entry], out: &mut Vec<u8>) -> Result<(), Memory>
    requires count { length entries.now ≤ 4 }
    requires networks { All (λ e. e.peer.addr.net ≡ Ipv4) entries.now }
    requires short { length (message_text addr_entry_text entries.now) ≤ MAX_MESSAGE }
    ensures text { OnOk result (out.new.items ≡ out.old.items ++ payload_text entries.now) }
    ensures kept { take (vec_len out.old) out.new.items ≡ out.old.items }
{
    let payload = write_addr(*out.allocator(), entries)?;
    let mut digits = [0; 2 * MAX_MESSAGE];
    let digits = &mut digits[..2 * payload.items().len()];
    let Ok(()) = hex::encode_to_slice(payload.items(), digits) else {
        unreachable!()
    };
    put_text(digits, out)
}
