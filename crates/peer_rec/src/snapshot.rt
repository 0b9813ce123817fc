//! `Snapshot`: key, records, listed pairs and checksum, with `MAX_NEW`, `MAX_TRIED` and
//! `MAX_BUCKETS`.

ghost use Rattle.std.specs.Prelude.{◌≡◌, ◌≤◌, ◌<◌, length, All, AllPairs};
ghost use Rattle.peer_rec.specs.declared.file_rec.TheConstants.{MAX_ATTEMPTS};
ghost use Rattle.peer_rec.specs.declared.snapshot.TheConstants.{MAX_NEW, MAX_TRIED, MAX_BUCKETS};

use crate::{FileRec, FileRecs};
use host_io::ListOf;
use std::marker::Model;

/// New records of a file, at most.
pub const MAX_NEW: u32 = 65_536;
/// Tried records of a file, at most.
pub const MAX_TRIED: u32 = 16_384;
/// Buckets of the new table in a file, at most.
pub const MAX_BUCKETS: u32 = 65_536;

/// What a file of peers has: the key, the new records and the tried ones, how many buckets the new
/// table has and which new records each of them lists, and the checksum of the asmap that placed
/// them.
#[derive(Drop)]
pub struct Snapshot {
    key: [u8; 32],
    new_recs: FileRecs,
    tried_recs: FileRecs,
    bucket_count: u32,
    listed: Pairs,
    sum: [u8; 32],
}

impl Model for Snapshot {
    ghost use Rattle.peer_rec.specs.Snapshot as words;
    ghost use Rattle.peer_rec.specs.Snapshot.{IsSnapshot, snapshot};

    ghost Value = { words.Snapshot };

    ghost view = { λ s. snapshot s.key s.new_recs s.tried_recs s.bucket_count s.listed s.sum };

    ghost invariant = { λ s.
        IsSnapshot (snapshot s.key s.new_recs s.tried_recs s.bucket_count s.listed s.sum) };
}

impl Snapshot {
    ghost use Rattle.peer_rec.specs.Snapshot.{IsSnapshot, snapshot};

    /// Makes a snapshot of its parts. A pair is a bucket and the index of a new record that the
    /// bucket lists; the buckets never fall. Takes no memory.
    pub fn make(
        key: [u8; 32],
        new_recs: FileRecs,
        tried_recs: FileRecs,
        bucket_count: u32,
        listed: Pairs,
        sum: [u8; 32],
    ) -> Snapshot
        requires few_new { length new_recs ≤ MAX_NEW }
        requires few_tried { length tried_recs ≤ MAX_TRIED }
        requires new_attempts { All (λ r. r.attempts ≤ MAX_ATTEMPTS) new_recs }
        requires tried_attempts { All (λ r. r.attempts ≤ MAX_ATTEMPTS) tried_recs }
        requires few_buckets { bucket_count ≤ MAX_BUCKETS }
        requires buckets { All (λ pair. pair.0 < bucket_count) listed }
        requires indexes { All (λ pair. pair.1 < length new_recs) listed }
        requires rising { AllPairs (λ pair later. pair.0 ≤ later.0) listed }
        ensures { result ≡ snapshot key new_recs tried_recs bucket_count listed sum }
    {
        Snapshot {
            key,
            new_recs,
            tried_recs,
            bucket_count,
            listed,
            sum,
        }
    }

    /// Returns the key by which records were placed.
    pub fn key(&self) -> [u8; 32]
        ensures found { result ≡ self.now.key }
        ensures snapshot { IsSnapshot self.now }
    {
        self.key
    }

    /// Returns the new records.
    pub fn new_recs(&self) -> &[FileRec]
        ensures found { result.now ≡ self.now.new_recs }
        ensures few { length result.now ≤ MAX_NEW }
        ensures attempts { All (λ r. r.attempts ≤ MAX_ATTEMPTS) result.now }
    {
        self.new_recs.items()
    }

    /// Returns the tried records.
    pub fn tried_recs(&self) -> &[FileRec]
        ensures found { result.now ≡ self.now.tried_recs }
        ensures few { length result.now ≤ MAX_TRIED }
        ensures attempts { All (λ r. r.attempts ≤ MAX_ATTEMPTS) result.now }
    {
        self.tried_recs.items()
    }

    /// Returns how many buckets the new table has.
    pub fn bucket_count(&self) -> u32
        ensures found { result ≡ self.now.bucket_count }
        ensures few { result ≤ MAX_BUCKETS }
    {
        self.bucket_count
    }

    /// Returns the listed pairs: a bucket and the index of a new record each.
    pub fn listed(&self) -> &[(u32, u32)]
        ensures found { result.now ≡ self.now.listed }
        ensures buckets { All (λ pair. pair.0 < self.now.bucket_count) result.now }
        ensures indexes { All (λ pair. pair.1 < length self.now.new_recs) result.now }
        ensures rising { AllPairs (λ pair later. pair.0 ≤ later.0) result.now }
    {
        self.listed.items()
    }

    /// Returns the checksum of the asmap by which records were placed, 32 zero bytes if there was
    /// none.
    pub fn sum(&self) -> [u8; 32]
        ensures { result ≡ self.now.sum }
    {
        self.sum
    }
}

/// Buckets of the new table, each with the index of a new record that it lists.
pub type Pairs = ListOf<(u32, u32)>;
