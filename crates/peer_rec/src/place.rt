//! `Place`: in the new table with its buckets, or in the tried table.

ghost use Rattle.std.specs.Prelude.{◌≡◌, ◌<◌, ◌≤◌, length};
ghost use Rattle.peer_rec.specs.declared.place.Place.TheVariants.{New};
ghost use Rattle.peer_rec.specs.Rec.{buckets_by, tried_by};
ghost use Rattle.peer_rec.specs.Buckets.{with_bucket, without_bucket};
ghost use Rattle.peer_rec.specs.declared.buckets.TheConstants.{MAX_LISTS};

use crate::Buckets;

/// Where a record is: in some buckets of the new table, in rising order, or in the tried table.
#[derive(Drop)]
pub enum Place {
    New(Buckets),
    Tried,
}

impl Place {
    /// Returns a copy of the place. Takes no memory.
    pub fn copy(&self) -> Place
        ensures { result ≡ self.now }
    {
        match self {
            Place::New(buckets) => Place::New(buckets.copy()),
            Place::Tried => Place::Tried,
        }
    }

    /// Returns `true` if the record is in the tried table.
    pub fn is_tried(&self) -> bool
        ensures { result ≡ tried_by self.now }
    {
        matches!(self, Place::Tried)
    }

    /// Returns how many buckets of the new table list the record.
    pub fn bucket_count(&self) -> usize
        ensures count { result ≡ length (buckets_by self.now) }
        ensures few { result ≤ MAX_LISTS }
    {
        match self {
            Place::New(buckets) => buckets.items().len(),
            Place::Tried => 0,
        }
    }

    /// Returns the place in the new table with `bucket` added. There must be fewer than `MAX_LISTS`
    /// buckets.
    pub fn with_bucket(&self, bucket: u16) -> Place
        requires room { length (buckets_by self.now) < MAX_LISTS }
        ensures { result ≡ New (with_bucket bucket (buckets_by self.now)) }
    {
        match self {
            Place::New(buckets) => {
                let mut buckets = buckets.copy();
                buckets.insert(bucket);
                Place::New(buckets)
            }
            Place::Tried => Place::New(Buckets::one(bucket)),
        }
    }

    /// Returns the place in the new table without `bucket`.
    pub fn without_bucket(&self, bucket: u16) -> Place
        ensures { result ≡ New (without_bucket bucket (buckets_by self.now)) }
    {
        match self {
            Place::New(buckets) => {
                let mut buckets = buckets.copy();
                buckets.remove(bucket);
                Place::New(buckets)
            }
            Place::Tried => Place::New(Buckets::none()),
        }
    }
}
