//! Finds, puts and removes a connection by its number in the map.

ghost use Rattle.std.specs.Prelude.{◌≡◌, is_some, IfSome, OnOk, OnErr, option_map, option_copied};
ghost use Rattle.limiter.specs.State.{new_conn, find_conn, with_conn, without_conn};
ghost use Rattle.limiter.specs.Tokens.{refill, intake_count};
ghost use Rattle.limiter.specs.Calls.{asked_of, after_asking, after_taking};
ghost use Rattle.limiter.specs.Inside.{conns_of, AreEntries, IsConn};

use crate::spending::{TOKEN, ask, spend};
use crate::{Asked, Conn, Memory};
use indexmap::IndexMap;
use net_addr::NetAddr;
use std::hash::BuildHasher;

/// Returns the connection of the number.
pub(crate) fn find_in<H: BuildHasher>(conns: &IndexMap<u32, Conn, H>, number: u32) -> Option<&Conn>
    requires { AreEntries conns.now.entries }
    ensures found { option_copied result ≡ find_conn number (conns_of conns.now.entries) }
    ensures conn { IfSome result (λ c. IsConn c.now) }
{
    conns.get(&number)
}

/// Puts a new connection, with one token, at its position.
pub(crate) fn put_in<H: BuildHasher>(
    conns: &mut IndexMap<u32, Conn, H>,
    number: u32,
    addr: NetAddr,
    unlimited: bool,
    now: u32,
) -> Result<(), Memory>
    requires { AreEntries conns.old.entries }
    ensures put { OnOk result (conns_of conns.new.entries
        ≡ with_conn (new_conn number addr unlimited now) (conns_of conns.old.entries)) }
    ensures err { OnErr result (conns_of conns.new.entries ≡ conns_of conns.old.entries) }
    ensures entries { AreEntries conns.new.entries }
{
    let conn = Conn {
        number,
        addr,
        tenths: TOKEN,
        moment: now,
        asked: false,
        unlimited,
        processed: 0,
        limited: 0,
    };
    match conns.insert(number, conn) {
        Ok(_) => Ok(()),
        Err(_) => Err(Memory),
    }
}

/// Removes the connection of the number. Returns `true` if there was one.
pub(crate) fn remove_in<H: BuildHasher>(conns: &mut IndexMap<u32, Conn, H>, number: u32) -> bool
    requires { AreEntries conns.old.entries }
    ensures answer { result ≡ is_some (find_conn number (conns_of conns.old.entries)) }
    ensures out { conns_of conns.new.entries ≡ without_conn number (conns_of conns.old.entries) }
    ensures entries { AreEntries conns.new.entries }
{
    conns.swap_remove(&number).is_some()
}

/// Gives the connection of the number a thousand tokens, once.
pub(crate) fn getaddr_in<H: BuildHasher>(conns: &mut IndexMap<u32, Conn, H>, number: u32) -> Asked
    requires { AreEntries conns.old.entries }
    ensures answer { result ≡ asked_of (find_conn number (conns_of conns.old.entries)) }
    ensures conns { conns_of conns.new.entries
        ≡ after_asking (find_conn number (conns_of conns.old.entries))
        (conns_of conns.old.entries) }
    ensures entries { AreEntries conns.new.entries }
{
    match conns.get_mut(&number) {
        Some(conn) => ask(conn),
        None => Asked::Unknown,
    }
}

/// Takes a message of this many entries from the connection of the number.
pub(crate) fn admit_in<H: BuildHasher>(
    conns: &mut IndexMap<u32, Conn, H>,
    number: u32,
    count: u32,
    now: u32,
) -> Option<u32>
    requires { AreEntries conns.old.entries }
    ensures answer { result ≡ option_map (λ c. intake_count (refill now c) count)
        (find_conn number (conns_of conns.old.entries)) }
    ensures conns { conns_of conns.new.entries
        ≡ after_taking now count (find_conn number (conns_of conns.old.entries))
        (conns_of conns.old.entries) }
    ensures entries { AreEntries conns.new.entries }
{
    match conns.get_mut(&number) {
        Some(conn) => Some(spend(now, conn, count)),
        None => None,
    }
}
