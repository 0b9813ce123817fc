//! `Answers`: `find`, `put` and `forget` by key, with `MAX_KEYS` and `MAX_TOLD`.

ghost use Rattle.std.specs.Prelude.{◌≡◌, ◌≤◌, option_map, length};
ghost use Rattle.std.specs.Vec.{vec_len, vec_capacity};
ghost use Rattle.addr_answers.specs.Answers.{answer_at, without};

use crate::Memory;
use crate::kept::Kept;
use net_addr::Entry;
use std::alloc::Global;
use std::marker::Model;

/// The maximum number of keys with an answer. This limit is our own.
pub const MAX_KEYS: usize = 64;

/// The maximum number of entries of an answer: those of one message (`MAX_ADDR_TO_SEND` in
/// net_processing.cpp of Bitcoin Core).
pub const MAX_TOLD: usize = 1000;

/// The answers that are kept, one a key at most. A new one goes last.
#[derive(Drop)]
pub struct Answers {
    kept: Vec<Kept>,
}

impl Model for Answers {
    ghost use Rattle.std.specs.Prelude.{List};
    ghost use Rattle.addr_answers.specs.Answers.{Answer, AreAnswers};

    ghost Value = { List Answer };

    ghost view = { λ a. a.kept.items };

    ghost invariant = { λ a. AreAnswers a.kept.items };
}

impl Answers {
    ghost use Rattle.std.specs.Prelude.{◌≡◌, [], IfOk, OnOk, OnErr, option_map, length, ◌≤◌};
    ghost use Rattle.addr_answers.specs.Answers.{answer_at, answer, has_room, after_put, AreAnswers};
    ghost use Rattle.addr_answers.specs.Runs.{entries_of};
    ghost use Rattle.addr_answers.specs.declared.answers.TheConstants.{MAX_KEYS, MAX_TOLD};

    /// Makes the answers of a node that was not asked yet.
    pub fn make(alloc: Global) -> Answers
        ensures { result ≡ [] }
    {
        Answers {
            kept: Vec::new(alloc),
        }
    }

    /// Returns the answer of the key that is current at a time in seconds since 1970.
    pub fn find(&self, key: u64, now: u32) -> Option<&[Entry]>
        ensures found { option_map (λ es. es.now) result
            ≡ option_map (λ a. a.entries) (answer_at key now self.now) }
        ensures sound { AreAnswers self.now }
    {
        match self.kept.iter().find(|one| one.answers(key, now)) {
            Some(kept) => Some(kept.entries()),
            None => None,
        }
    }

    /// Returns the entries of that answer, or none if the key has no answer then.
    pub fn told(&self, key: u64, now: u32) -> &[Entry]
        ensures told { result.now ≡ entries_of (answer_at key now self.now) }
        ensures few { length result.now ≤ MAX_TOLD }
    {
        match self.find(key, now) {
            Some(entries) => entries,
            None => &[],
        }
    }

    /// Returns `true` unless `MAX_KEYS` other keys have an answer.
    pub fn has_room(&self, key: u64) -> bool
        ensures { result ≡ has_room key self.now }
    {
        count_others(&self.kept, key) < MAX_KEYS
    }

    /// Keeps an answer of the key, made now of so many records; the one that the key had is
    /// dropped. The random word selects when it ends. Returns `false` if there is no room, and
    /// keeps nothing then. If memory runs out, nothing changes.
    pub fn put(
        &mut self,
        key: u64,
        now: u32,
        records: usize,
        word: u64,
        entries: Vec<Entry>,
    ) -> Result<bool, Memory>
        requires few { length entries.items ≤ MAX_TOLD }
        ensures room { IfOk result (λ b. b ≡ has_room key self.old) }
        ensures kept { OnOk result (self.new
            ≡ after_put (answer key now records word entries.items) self.old) }
        ensures err { OnErr result (self.new ≡ self.old) }
    {
        self.kept.reserve(1)?;
        if count_others(&self.kept, key) >= MAX_KEYS {
            return Ok(false);
        }
        drop_key(&mut self.kept, key);
        self.kept
            .push_reserved(Kept::of(key, now, records, word, entries));
        Ok(true)
    }

    /// Drops all answers.
    pub fn forget(&mut self)
        ensures { self.new ≡ [] }
    {
        self.kept.clear();
    }
}

/// Returns the number of answers of other keys.
fn count_others(kept: &[Kept], key: u64) -> usize
    ensures { result ≡ length (without key kept.now) }
{
    let mut others = 0;
    for one in kept {
        if one.is_other(key) {
            others += 1;
        }
    }
    others
}

/// Drops the answers of a key.
fn drop_key(kept: &mut Vec<Kept>, key: u64)
    ensures items { kept.new.items ≡ without key kept.old.items }
    ensures len { vec_len kept.new ≤ vec_len kept.old }
    ensures capacity { vec_capacity kept.new ≡ vec_capacity kept.old }
{
    kept.retain(|one| one.is_other(key));
}
