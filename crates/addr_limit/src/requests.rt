//! `serve` carries out a request about a connection; `Passing` has the entries that are admitted,
//! with their random words.

ghost use Rattle.std.specs.Prelude.{◌≡◌, ◌++◌, [], ◌∷◌, IfOk, OnOk, OnErr, ◌≤◌, length, map, take};
ghost use Rattle.limiter.specs.State.{find_conn, set_conn, AreRising};
ghost use Rattle.addr_limit.specs.Steps.{serve, is_internal, unless_hidden, for_output};
ghost use Rattle.addr_limit.specs.Inside.{IsShort, IsShortRead, ArePassing};
ghost use Rattle.addr_limit.specs.declared.command.LimitCommand.TheVariants.{Message};
ghost use Rattle.std.specs.List.{zip, filter_map};

use crate::LimitCommand;
use crate::print::{known_line, unknown_line};
use addr_codecs::{Entries, MsgFault};
use grammar::Words;
use limiter::{Limiter, Memory};
use net_addr::{Entry, Net, NetAddr, put_text};
use std::alloc::{AllocError, Global};
use std::hash::BuildHasher;

/// Carries out a request about the connection of the number, at a time in seconds since 1970, and
/// appends its output line and a line feed. If memory runs out, nothing changes.
pub(crate) fn serve<H: BuildHasher>(
    limiter: &mut Limiter<H>,
    alloc: Global,
    clock: u32,
    number: u32,
    request: &LimitCommand,
    out: &mut Vec<u8>,
) -> Result<(), Memory>
    requires { IsShort request.now }
    ensures conns { OnOk result (limiter.new ≡ set_conn number
        (serve clock number (find_conn number limiter.old) request.now).conn limiter.old) }
    ensures text { OnOk result (out.new.items ≡ out.old.items
        ++ ((serve clock number (find_conn number limiter.old) request.now).text ++ 10 ∷ [])) }
    ensures err { OnErr result (limiter.new ≡ limiter.old) }
    ensures list { OnErr result (out.new.items ≡ out.old.items) }
{
    let text = line_of(limiter, alloc, clock, number, request)?;
    let length = out.len();
    put_text(text.as_slice(), out)?;
    match change(limiter, clock, number, request) {
        Ok(()) => Ok(()),
        Err(fault) => {
            out.truncate(length);
            Err(fault)
        }
    }
}

/// Returns the output line of a request about the number, and a line feed.
fn line_of<H: BuildHasher>(
    limiter: &Limiter<H>,
    alloc: Global,
    clock: u32,
    number: u32,
    request: &LimitCommand,
) -> Result<Vec<u8>, Memory>
    requires { IsShort request.now }
    ensures text { IfOk result (λ text. text.items
        ≡ (serve clock number (find_conn number limiter.now) request.now).text ++ 10 ∷ []) }
    ensures rising { AreRising limiter.now }
{
    match limiter.find(number) {
        Some(conn) => known_line(alloc, clock, conn, request),
        None => unknown_line(alloc, number, request),
    }
}

/// Changes the connections as the request says.
fn change<H: BuildHasher>(
    limiter: &mut Limiter<H>,
    clock: u32,
    number: u32,
    request: &LimitCommand,
) -> Result<(), Memory>
    requires short { IsShort request.now }
    requires rising { AreRising limiter.old }
    ensures conns { OnOk result (limiter.new ≡ set_conn number
        (serve clock number (find_conn number limiter.old) request.now).conn limiter.old) }
    ensures err { OnErr result (limiter.new ≡ limiter.old) }
{
    match request {
        LimitCommand::Open { addr, unlimited } => {
            limiter.add_conn(number, *addr, *unlimited, clock)?;
        }
        LimitCommand::Close => {
            limiter.close_conn(number);
        }
        LimitCommand::GetAddr => {
            limiter.getaddr(number);
        }
        LimitCommand::Message { read, words } => take_message(limiter, clock, number, read, words),
        LimitCommand::Stat => {}
    }
    Ok(())
}

/// Takes a message, unless it was refused or has too few random words.
fn take_message<H: BuildHasher>(
    limiter: &mut Limiter<H>,
    clock: u32,
    number: u32,
    read: &Result<Entries, MsgFault>,
    words: &Words,
)
    requires short { IsShortRead read.now }
    requires rising { AreRising limiter.old }
    ensures { limiter.new ≡ set_conn number (serve clock number (find_conn number limiter.old)
        (Message read.now words.now)).conn limiter.old }
{
    let Ok(entries) = read else {
        return;
    };
    let entries = entries.items();
    if entries.len() <= words.items().len() {
        limiter.admit(number, count_of(entries), clock);
    }
}

/// The entries of a message that are passed on, and their random words.
#[derive(Drop)]
pub(crate) struct Passing {
    pub(crate) entries: Vec<Entry>,
    pub(crate) words: Vec<u64>,
}

/// Returns how many entries a message has. Those that are skipped or internal count too, and cost
/// a token as others do.
pub(crate) fn count_of(entries: &[Option<Entry>]) -> u32
    requires { length entries.now ≤ 1000 }
    ensures { result ≡ length entries.now }
{
    entries.len() as u32
}

/// Returns those of the first `taken` entries that are passed on, with their words.
pub(crate) fn passing_entries(
    alloc: Global,
    entries: &[Option<Entry>],
    words: &[u64],
    taken: usize,
) -> Result<Passing, AllocError>
    requires few { taken ≤ length entries.now }
    requires words { length entries.now ≤ length words.now }
    requires short { length entries.now ≤ 1000 }
    ensures entries { IfOk result (λ s. s.entries.items
        ≡ map (λ p. p.0) (filter_map for_output (take taken (zip entries.now words.now)))) }
    ensures words { IfOk result (λ s. s.words.items
        ≡ map (λ p. p.1) (filter_map for_output (take taken (zip entries.now words.now)))) }
    ensures passing { IfOk result (λ s. ArePassing s.entries.items) }
{
    let mut passing = Passing {
        entries: Vec::with_capacity(alloc, taken)?,
        words: Vec::with_capacity(alloc, taken)?,
    };
    for i in 0..taken {
        if let Some(entry) = unless_hidden(&entries[i]) {
            passing.entries.push(entry)?;
            passing.words.push(words[i])?;
        }
    }
    Ok(passing)
}

/// Returns the entry, unless it is skipped or internal.
fn unless_hidden(entry: &Option<Entry>) -> Option<Entry>
    ensures { result ≡ unless_hidden entry.now }
{
    let Some(entry) = entry else {
        return None;
    };
    if is_internal(&entry.peer.addr) {
        None
    } else {
        Some(*entry)
    }
}

/// Returns `true` if the address is internal.
fn is_internal(addr: &NetAddr) -> bool
    ensures { result ≡ is_internal addr.now.net }
{
    match addr.net() {
        Net::Internal => true,
        Net::Unroutable | Net::Ipv4 | Net::Ipv6 | Net::Onion | Net::I2p | Net::Cjdns => false,
    }
}
