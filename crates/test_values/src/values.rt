//! `Values` and `CALLS`: which call belongs to which file, and what the calls of a block leave.

use crate::index_calls::Hasher;
use crate::limiter_calls::limiter_call;
use crate::prefixes::Prefixes;
use crate::unread::Unread;
use crate::{addresses, codes, index_calls, numbers, places, records, vectors, written};
use limiter::Limiter;
use peer_index::PeerIndex;
use std::alloc::Global;
use std::hash::BuildHasherDefault;

/// What a call is about.
#[derive(Clone, Copy)]
enum Subject {
    Addresses,
    Numbers,
    Records,
    Written,
    Connections,
    Places,
    Index,
    Prefixes,
    Codes,
    Vectors,
}

/// The names of the calls about each subject, with a space between two of them.
static CALLS: [(Subject, &str); 10] = [
    (Subject::Addresses, "address peer class bytes v1 ipv4 ipv6"),
    (Subject::Numbers, "number le32 le64 be16"),
    (Subject::Records, "chance terrible"),
    (Subject::Written, "written"),
    (Subject::Connections, "open close getaddr admit repeat conn"),
    (
        Subject::Places,
        "places group mapped-group asmap-sum core-sum key source-buckets group-buckets choice \
new-slot next-port hash cheap",
    ),
    (
        Subject::Index,
        "index-add index-remove index-swap index-order index-find",
    ),
    (Subject::Prefixes, "prefix best rows"),
    (Subject::Vectors, "facts places-by"),
    (Subject::Codes, "coded coded-many coded-at coded-bits"),
];

/// Whether the word is one of these.
fn has_word(words: &str, word: &str) -> bool {
    for other in words.split(" ") {
        if other == word {
            return true;
        }
    }
    false
}

/// Returns what the call of this name is about.
fn subject_of(name: &str) -> Result<Subject, Unread> {
    for (subject, names) in &CALLS {
        if has_word(*names, name) {
            return Ok(*subject);
        }
    }
    Err(Unread::Form)
}

/// What the calls of a block leave: connections, an index and a table of prefixes.
#[derive(Drop)]
pub(crate) struct Values {
    limiter: Limiter<Hasher>,
    index: PeerIndex<Hasher>,
    prefixes: Prefixes,
}

impl Values {
    /// Returns what the first call of a block finds.
    pub fn make(alloc: Global) -> Values {
        Values {
            limiter: Limiter::make(alloc, BuildHasherDefault::new()),
            index: PeerIndex::make(alloc, BuildHasherDefault::new()),
            prefixes: Prefixes::make(alloc),
        }
    }

    /// Makes the call with its arguments, and returns the answer.
    pub fn call(&mut self, alloc: Global, name: &str, arguments: &str) -> Result<String, Unread> {
        match subject_of(name)? {
            Subject::Addresses => addresses::answer(alloc, name, arguments),
            Subject::Numbers => numbers::answer(alloc, name, arguments),
            Subject::Records => records::answer(alloc, name, arguments),
            Subject::Written => written::answer(alloc, arguments),
            Subject::Connections => limiter_call(alloc, &mut self.limiter, name, arguments),
            Subject::Places => places::answer(alloc, name, arguments),
            Subject::Index => index_calls::answer(alloc, &mut self.index, name, arguments),
            Subject::Prefixes => self.prefixes.answer(alloc, name, arguments),
            Subject::Vectors => vectors::answer(alloc, name, arguments),
            Subject::Codes => codes::answer(alloc, name, arguments),
        }
    }
}
