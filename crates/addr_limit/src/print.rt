//! Prints output lines: `stat`, `getaddr`, comments, and the `addrv2` line of the entries passed
//! on.

ghost use Rattle.std.specs.Prelude.{◌≡◌, ◌++◌, [], ◌∷◌, codes, map, ℕ, List, if◌then◌else◌, IfOk, OnOk};
ghost use Rattle.net_addr.specs.declared.peer.Entry.{Entry};
ghost use Rattle.log_lines.specs.Replies.{reply_line, numbers_text};
ghost use Rattle.addr_limit.specs.Steps.{comment, stat_text, addrv2_line, message_line, limit_message, serve_none, serve_conn};
ghost use Rattle.addr_limit.specs.Inside.{IsShort, IsShortRead, ArePassing};

use crate::LimitCommand;
use crate::requests::{Passing, count_of, passing_entries};
use addr_codecs::{Entries, MsgFault, write_addrv2};
use grammar::Words;
use host_io::LINE_FEED;
use limiter::{Conn, Memory, admitted};
use log_lines::{Reply, reply_text};
use net_addr::{Entry, NetAddr, put_addr, put_number, put_text};
use std::alloc::Global;

/// The room that a line gets at first, in bytes: enough for a message of one entry.
const LINE_ROOM: usize = 160;

/// Returns the output line of a request about a number that has no connection, at any time.
pub(crate) fn unknown_line(
    alloc: Global,
    number: u32,
    request: &LimitCommand,
) -> Result<Vec<u8>, Memory>
    ensures { (clock : ℕ) → IfOk result (λ text. text.items
        ≡ (serve_none clock number request.now).text ++ 10 ∷ []) }
{
    match request {
        LimitCommand::Open { .. } => comment_line(alloc, b"open", number, b""),
        LimitCommand::Close => comment_line(alloc, b"close", number, b" unknown"),
        LimitCommand::GetAddr => comment_line(alloc, b"getaddr", number, b" unknown"),
        LimitCommand::Message { .. } => comment_line(alloc, b"from", number, b" unknown"),
        LimitCommand::Stat => comment_line(alloc, b"stat", number, b" unknown"),
    }
}

/// Returns the output line of a request about a connection.
pub(crate) fn known_line(
    alloc: Global,
    clock: u32,
    conn: &Conn,
    request: &LimitCommand,
) -> Result<Vec<u8>, Memory>
    requires { IsShort request.now }
    ensures { IfOk result (λ text. text.items
        ≡ (serve_conn clock conn.now request.now).text ++ 10 ∷ []) }
{
    match request {
        LimitCommand::Open { .. } => comment_line(alloc, b"open", conn.number, b" already"),
        LimitCommand::Close => comment_line(alloc, b"close", conn.number, b""),
        LimitCommand::GetAddr => getaddr_line(alloc, conn),
        LimitCommand::Message { read, words } => read_line(alloc, clock, conn, read, words),
        LimitCommand::Stat => stat_line(alloc, conn),
    }
}

/// Returns the output line of `getaddr`.
fn getaddr_line(alloc: Global, conn: &Conn) -> Result<Vec<u8>, Memory>
    ensures { IfOk result (λ text. text.items
        ≡ comment (codes "getaddr") conn.now.number
        (if conn.now.asked then codes " already" else []) ++ 10 ∷ []) }
{
    if conn.asked {
        comment_line(alloc, b"getaddr", conn.number, b" already")
    } else {
        comment_line(alloc, b"getaddr", conn.number, b"")
    }
}

/// Returns the output line of `stat`.
fn stat_line(alloc: Global, conn: &Conn) -> Result<Vec<u8>, Memory>
    ensures { IfOk result (λ text. text.items
        ≡ comment (codes "stat") conn.now.number (stat_text conn.now) ++ 10 ∷ []) }
{
    let said = counts_text(alloc, conn)?;
    comment_line(alloc, b"stat", conn.number, said.as_slice())
}

/// Returns the text of a connection's counts and tokens.
fn counts_text(alloc: Global, conn: &Conn) -> Result<Vec<u8>, Memory>
    ensures { IfOk result (λ text. text.items ≡ stat_text conn.now) }
{
    let mut text = Vec::new(alloc);
    put_number(b" processed ", u64::from(conn.processed), &mut text)?;
    put_number(b" limited ", u64::from(conn.limited), &mut text)?;
    put_number(b" tenths ", u64::from(conn.tenths), &mut text)?;
    Ok(text)
}

/// Returns the output line of a message, which was read or has a fault.
fn read_line(
    alloc: Global,
    clock: u32,
    conn: &Conn,
    read: &Result<Entries, MsgFault>,
    words: &Words,
) -> Result<Vec<u8>, Memory>
    requires { IsShortRead read.now }
    ensures { IfOk result (λ text. text.items
        ≡ (limit_message clock conn.now read.now words.now).text ++ 10 ∷ []) }
{
    let entries = match read {
        Ok(entries) => entries.items(),
        Err(fault) => return reply_line(alloc, conn.number, &Reply::Refused(*fault)),
    };
    let words = words.items();
    if words.len() < entries.len() {
        let (need, have) = (entries.len() as u32, words.len() as u32);
        return reply_line(alloc, conn.number, &Reply::Short { need, have });
    }
    let taken = admitted(conn, count_of(entries), clock);
    let passing = passing_entries(alloc, entries, words, taken as usize)?;
    entries_line(alloc, conn, &passing)
}

/// Returns a comment line of a message with the text of a reply.
fn reply_line(alloc: Global, number: u32, reply: &Reply) -> Result<Vec<u8>, Memory>
    ensures { IfOk result (λ text. text.items
        ≡ comment (codes "from") number (codes " " ++ reply_line reply.now) ++ 10 ∷ []) }
{
    let mut text = comment(alloc, b"from", number, b" ")?;
    let said = reply_text(alloc, reply)?;
    put_text(said.as_slice(), &mut text)?;
    Ok(text)
}

/// Returns the line for the entries of a message that are passed on.
fn entries_line(alloc: Global, conn: &Conn, passing: &Passing) -> Result<Vec<u8>, Memory>
    requires { ArePassing passing.now.entries.items }
    ensures { (pairs : List (Entry × ℕ)) → passing.now.entries.items ≡ map (λ p. p.0) pairs →
        passing.now.words.items ≡ map (λ p. p.1) pairs →
        IfOk result (λ text. text.items ≡ message_line conn.now pairs ++ 10 ∷ []) }
{
    if passing.entries.is_empty() {
        return comment_line(alloc, b"from", conn.number, b" none");
    }
    addrv2_line(
        alloc,
        &conn.addr,
        passing.entries.as_slice(),
        passing.words.as_slice(),
    )
}

/// Returns the line of a log that adds the entries, which come from the address.
fn addrv2_line(
    alloc: Global,
    addr: &NetAddr,
    entries: &[Entry],
    words: &[u64],
) -> Result<Vec<u8>, Memory>
    requires { ArePassing entries.now }
    ensures { IfOk result (λ text. text.items
        ≡ addrv2_line addr.now entries.now words.now ++ 10 ∷ []) }
{
    let payload = write_addrv2(alloc, entries)?;
    let digits = hex::encode(alloc, payload.items())?;
    let mut text = Vec::with_capacity(alloc, LINE_ROOM)?;
    put_text(b"addrv2 ", &mut text)?;
    put_addr(addr, &mut text)?;
    put_text(b" ", &mut text)?;
    put_text(digits.as_bytes(), &mut text)?;
    put_text(b" ", &mut text)?;
    put_numbers(words, &mut text)?;
    put_text(&[LINE_FEED], &mut text)?;
    Ok(text)
}

/// Returns a comment line.
fn comment_line(alloc: Global, word: &[u8], number: u32, said: &[u8]) -> Result<Vec<u8>, Memory>
    ensures { IfOk result (λ text. text.items
        ≡ comment word.now number said.now ++ 10 ∷ []) }
{
    let mut text = comment(alloc, word, number, said)?;
    put_text(&[LINE_FEED], &mut text)?;
    Ok(text)
}

/// Returns a comment: a word, a number, and the rest.
fn comment(alloc: Global, word: &[u8], number: u32, said: &[u8]) -> Result<Vec<u8>, Memory>
    ensures { IfOk result (λ text. text.items ≡ comment word.now number said.now) }
{
    let mut text = Vec::with_capacity(alloc, LINE_ROOM)?;
    put_text(b"# ", &mut text)?;
    put_text(word, &mut text)?;
    put_number(b" ", u64::from(number), &mut text)?;
    put_text(said, &mut text)?;
    Ok(text)
}

/// Appends numbers with commas between them.
fn put_numbers(numbers: &[u64], out: &mut Vec<u8>) -> Result<(), Memory>
    ensures { OnOk result (out.new.items ≡ out.old.items ++ numbers_text numbers.now) }
{
    for (i, number) in numbers.iter().enumerate() {
        let comma: &[u8] = if i == 0 { b"" } else { b"," };
        put_number(comma, *number, out)?;
    }
    Ok(())
}
