//! `Buckets`: the buckets of the new table that list a record, at most `MAX_LISTS`.

ghost use Rattle.std.specs.Prelude.{◌≡◌, ◌+◌, ◌≤◌, ◌<◌, ◌∷◌, ◌++◌, [], length, filter, nat_lt, ◌==◌};
ghost use Rattle.arrayvec.specs.ArrayVec.{array_vec_len};
ghost use Rattle.peer_rec.specs.Buckets.{with_bucket, without_bucket};
ghost use Rattle.peer_rec.specs.declared.buckets.TheConstants.{MAX_LISTS};

use arrayvec::ArrayVec;
use std::marker::Model;

/// Buckets of the new table that list a record, at most (`ADDRMAN_NEW_BUCKETS_PER_ADDRESS` in
/// addrman_impl.h of Bitcoin Core).
pub const MAX_LISTS: usize = 8;

/// The buckets of the new table that list a record.
#[derive(Drop)]
pub struct Buckets {
    /// The first `count` are the buckets.
    numbers: [u16; MAX_LISTS],
    count: u8,
}

impl Model for Buckets {
    ghost use Rattle.std.specs.Prelude.{ℕ, List, ◌≤◌, take};
    ghost use Rattle.peer_rec.specs.declared.buckets.TheConstants.{MAX_LISTS};

    ghost Value = { List ℕ };

    ghost view = { λ b. take b.count b.numbers };

    ghost invariant = { λ b. b.count ≤ MAX_LISTS };
}

impl Buckets {
    /// Makes the buckets of a list.
    pub fn of(items: ArrayVec<u16, MAX_LISTS>) -> Buckets
        ensures { result ≡ items.items }
    {
        let mut numbers = [0; MAX_LISTS];
        numbers[..items.len()].copy_from_slice(items.as_slice());
        Buckets {
            numbers,
            count: items.len() as u8,
        }
    }

    /// Returns the empty list.
    pub fn none() -> Buckets
        ensures { result ≡ [] }
    {
        Buckets {
            numbers: [0; MAX_LISTS],
            count: 0,
        }
    }

    /// Returns the list of one bucket.
    pub fn one(bucket: u16) -> Buckets
        ensures { result ≡ bucket ∷ [] }
    {
        let mut items = ArrayVec::new();
        items.push(bucket);
        Buckets::of(items)
    }

    /// Returns the buckets as a slice.
    pub fn items(&self) -> &[u16]
        ensures items { result.now ≡ self.now }
        ensures few { length self.now ≤ MAX_LISTS }
    {
        &self.numbers[..usize::from(self.count)]
    }

    /// Returns a copy of the list. Takes no memory.
    pub fn copy(&self) -> Buckets
        ensures { result ≡ self.now }
    {
        Buckets {
            numbers: self.numbers,
            count: self.count,
        }
    }

    /// Returns `true` if there is no bucket.
    pub fn is_empty(&self) -> bool
        ensures { result ≡ (length self.now == 0) }
    {
        self.count == 0
    }

    /// Adds a bucket to fewer than `MAX_LISTS`.
    pub fn insert(&mut self, bucket: u16)
        requires room { length self.old < MAX_LISTS }
        ensures { self.new ≡ with_bucket bucket self.old }
    {
        let mut items = below(self.items(), bucket);
        let above = above(self.items(), bucket);
        items.push(bucket);
        append(&mut items, above.as_slice());
        *self = Buckets::of(items);
    }

    /// Takes a bucket out, if it is there.
    pub fn remove(&mut self, bucket: u16)
        ensures { self.new ≡ without_bucket bucket self.old }
    {
        let mut items = list_of(self.items());
        items.retain(|item| *item != bucket);
        *self = Buckets::of(items);
    }
}

/// Copies buckets.
fn list_of(buckets: &[u16]) -> ArrayVec<u16, MAX_LISTS>
    requires { length buckets.now ≤ MAX_LISTS }
    ensures { result.items ≡ buckets.now }
{
    let mut items = ArrayVec::new();
    append(&mut items, buckets);
    items
}

/// Appends buckets, for which there is room.
fn append(items: &mut ArrayVec<u16, MAX_LISTS>, more: &[u16])
    requires { array_vec_len items.old + length more.now ≤ MAX_LISTS }
    ensures { items.new.items ≡ items.old.items ++ more.now }
{
    // There is room for all of them.
    let _ = items.try_extend_from_slice(more);
}

/// Returns the buckets below `bucket`.
fn below(buckets: &[u16], bucket: u16) -> ArrayVec<u16, MAX_LISTS>
    requires { length buckets.now ≤ MAX_LISTS }
    ensures { result.items ≡ filter (λ b. nat_lt b bucket) buckets.now }
{
    let mut items = list_of(buckets);
    items.retain(|item| *item < bucket);
    items
}

/// Returns the buckets above `bucket`.
fn above(buckets: &[u16], bucket: u16) -> ArrayVec<u16, MAX_LISTS>
    requires { length buckets.now ≤ MAX_LISTS }
    ensures { result.items ≡ filter (λ b. nat_lt bucket b) buckets.now }
{
    let mut items = list_of(buckets);
    items.retain(|item| bucket < *item);
    items
}
