//! `Kept`, an answer with its key and end, and `key_of`; with `KEPT_SECONDS` and `FEW_RECORDS`.

ghost use Rattle.std.specs.Prelude.{◌≡◌, ◌<◌, ◌^◌, not, ◌==◌, ◌&&◌};
ghost use Rattle.addr_answers.specs.Answers.{key_of, answer, is_of, is_current, least_of, more_of};

use net_addr::{Entry, Net};
use std::marker::Model;

/// Returns the key of the connections of a network class that came in on a local socket. The node
/// numbers its sockets.
pub fn key_of(net: Net, socket: u32) -> u64
    ensures { result ≡ key_of net socket }
{
    u64::from(socket) * 8 + u64::from(net.number())
}

/// Seconds for which an answer is kept at least: 21 hours (`CConnman::GetAddresses` in net.cpp of
/// Bitcoin Core).
pub const KEPT_SECONDS: u32 = 75_600;

/// Seconds for which an answer is kept longer at most: 6 hours.
pub const EXTRA_SECONDS: u32 = 21_600;

/// An answer that was made of fewer records is kept for `FEW_SECONDS` only. This limit is our own.
pub const FEW_RECORDS: usize = 1000;

/// Seconds for which an answer of few records is kept: an hour.
pub const FEW_SECONDS: u32 = 3_600;

/// An answer that is kept.
#[derive(Drop)]
pub(crate) struct Kept {
    key: u64,
    made: u32,
    least: u32,
    until: u64,
    entries: Vec<Entry>,
}

impl Model for Kept {
    ghost use Rattle.addr_answers.specs.Answers.{Answer};

    ghost Value = { Answer };

    ghost view = { λ k. record {
      key = k.key;
      made = k.made;
      least = k.least;
      until = k.until;
      entries = k.entries.items;
    } };
}

impl Kept {
    /// Makes an answer at a time in seconds since 1970, of so many records. The random word selects
    /// when it ends.
    pub(crate) fn of(key: u64, now: u32, records: usize, word: u64, entries: Vec<Entry>) -> Kept
        ensures { result ≡ answer key now records word entries.items }
    {
        let least = least_of(records);
        Kept {
            key,
            made: now,
            least,
            until: u64::from(now) + u64::from(least) + u64::from(more_of(records, word)),
            entries,
        }
    }

    /// Returns the entries.
    pub(crate) fn entries(&self) -> &[Entry]
        ensures { result.now ≡ self.now.entries }
    {
        &self.entries
    }

    /// Returns `true` if the answer is of the key, and current.
    pub(crate) fn answers(&self, key: u64, now: u32) -> bool
        ensures { result ≡ is_of key self.now && is_current now self.now }
    {
        self.key == key
            && u64::from(now) < self.until
            && u64::from(self.made) < u64::from(now) + u64::from(self.least)
    }

    /// Returns `true` unless the answer is of the key.
    pub(crate) fn is_other(&self, key: u64) -> bool
        ensures { result ≡ not (is_of key self.now) }
    {
        self.key != key
    }
}

/// Returns for how many seconds an answer of so many records is kept at least.
fn least_of(records: usize) -> u32
    ensures { result ≡ least_of records }
{
    if records < FEW_RECORDS {
        FEW_SECONDS
    } else {
        KEPT_SECONDS
    }
}

/// Returns for how many seconds more the random word keeps it.
fn more_of(records: usize, word: u64) -> u32
    ensures { result ≡ more_of records word }
{
    if records < FEW_RECORDS {
        0
    } else {
        (word % u64::from(EXTRA_SECONDS + 1)) as u32
    }
}
