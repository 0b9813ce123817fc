//! `Limiter`, `Conn` and `Asked`: `add_conn`, `close_conn`, `getaddr`, `admit` and `find`.

use crate::Memory;
use crate::connections::{admit_in, find_in, getaddr_in, put_in, remove_in};
use indexmap::IndexMap;
use net_addr::NetAddr;
use std::alloc::Global;
use std::hash::BuildHasher;
use std::marker::Model;

/// A connection: the other node's address, and how many of the addresses that it sends are taken
/// (`Peer` in net_processing.cpp of Bitcoin Core). Tokens are counted in tenths.
#[derive(Clone, Copy, Debug)]
pub struct Conn {
    pub number: u32,
    pub addr: NetAddr,
    /// Tenths of a token.
    pub tenths: u32,
    /// The clock at the last message that was neither refused nor short, or when the connection was
    /// opened, in seconds since 1970.
    pub moment: u32,
    /// Whether getaddr was sent.
    pub asked: bool,
    /// Whether entries are admitted without a token too.
    pub unlimited: bool,
    /// How many entries were admitted; a count at its maximum stays there.
    pub processed: u32,
    /// How many entries were dropped; a count at its maximum stays there.
    pub limited: u32,
}

/// What `getaddr` found.
#[derive(Clone, Copy, Debug, PartialEq, Eq)]
pub enum Asked {
    /// The number has no connection.
    Unknown,
    /// The connection was sent getaddr before.
    Already,
    /// The connection has its thousand tokens now.
    Granted,
}

/// The connections by number. A number is found by one look-up under the caller's hasher.
#[derive(Drop)]
pub struct Limiter<H: BuildHasher> {
    conns: IndexMap<u32, Conn, H>,
}

impl<H: BuildHasher> Model for Limiter<H> {
    ghost use Rattle.std.specs.Coded.{codes};
    ghost use Rattle.std.specs.Prelude.{List};
    ghost use Rattle.limiter.specs.declared.limiter.Conn.{Conn};
    ghost use Rattle.limiter.specs.Inside.{conns_of, AreEntries};

    ghost Value = { List Conn };

    ghost coded = { Prim.hlevel codes };

    ghost view = { λ l. conns_of l.conns.entries };

    ghost invariant = { λ l. AreEntries l.conns.entries };
}

impl<H: BuildHasher> Limiter<H> {
    ghost use Rattle.std.specs.Prelude.{◌≡◌, ◌≤◌, [], Option, Some, List, length, take, is_some, is_none, IfSome, IfOk, OnOk, OnErr, option_map, option_copied};
    ghost use Rattle.net_addr.specs.declared.peer.Entry.{Entry};
    ghost use Rattle.limiter.specs.declared.limiter.Conn.{Conn};
    ghost use Rattle.limiter.specs.State.{new_conn, find_conn, without_conn, IsBounded, AreRising};
    ghost use Rattle.limiter.specs.Tokens.{refill, intake, intake_count};
    ghost use Rattle.limiter.specs.Calls.{asked_of, after_open, after_asking, after_taking, after_message};

    /// Makes the limit, with no connections.
    pub fn make(alloc: Global, hasher: H) -> Limiter<H>
        ensures { result ≡ [] }
    {
        Limiter {
            conns: IndexMap::with_hasher(alloc, hasher),
        }
    }

    /// Returns the connection of the number.
    pub fn find(&self, number: u32) -> Option<&Conn>
        ensures found { option_copied result ≡ find_conn number self.now }
        ensures bounded { IfSome result (λ c. IsBounded c.now) }
        ensures rising { AreRising self.now }
    {
        find_in(&self.conns, number)
    }

    /// Opens a connection, with one token. Returns `false` if the number has one already. If memory
    /// runs out, nothing changes.
    pub fn add_conn(
        &mut self,
        number: u32,
        addr: NetAddr,
        unlimited: bool,
        now: u32,
    ) -> Result<bool, Memory>
        ensures answer { IfOk result (λ b. b ≡ is_none (find_conn number self.old)) }
        ensures conns { OnOk result (self.new
            ≡ after_open (new_conn number addr unlimited now) self.old) }
        ensures err { OnErr result (self.new ≡ self.old) }
    {
        if find_in(&self.conns, number).is_some() {
            return Ok(false);
        }
        put_in(&mut self.conns, number, addr, unlimited, now)?;
        Ok(true)
    }

    /// Closes the connection of the number. Returns `true` if there was one.
    pub fn close_conn(&mut self, number: u32) -> bool
        ensures answer { result ≡ is_some (find_conn number self.old) }
        ensures without { self.new ≡ without_conn number self.old }
    {
        remove_in(&mut self.conns, number)
    }

    /// Gives the connection of the number a thousand tokens, since getaddr was sent to it. A
    /// connection gets them once.
    pub fn getaddr(&mut self, number: u32) -> Asked
        ensures answer { result ≡ asked_of (find_conn number self.old) }
        ensures conns { self.new ≡ after_asking (find_conn number self.old) self.old }
    {
        getaddr_in(&mut self.conns, number)
    }

    /// Takes a message of this many entries from the number's connection, at the time `now` in
    /// seconds since 1970: adds the tokens of the time that passed, and spends one for each entry
    /// while there is one. Returns how many entries are admitted, the first ones: all of an
    /// unlimited connection, else those with a token. Returns `None` if the number has no
    /// connection.
    pub fn admit(&mut self, number: u32, count: u32, now: u32) -> Option<u32>
        requires { count ≤ 1000 }
        ensures answer { result ≡ option_map (λ c. intake_count (refill now c) count)
            (find_conn number self.old) }
        ensures conns { self.new ≡ after_taking now count (find_conn number self.old) self.old }
        ensures entries { (entries : List (Option Entry)) → length entries ≡ count →
            self.new ≡ after_message now entries (find_conn number self.old) self.old }
        ensures first { (entries : List (Option Entry)) → length entries ≡ count →
            (c : Conn) → find_conn number self.old ≡ Some c →
            IfSome result (λ n. intake (refill now c) entries ≡ take n entries) }
    {
        admit_in(&mut self.conns, number, count, now)
    }
}
