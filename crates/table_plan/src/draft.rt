//! `Draft`: a record of a file before it is made, with the buckets that it is given.

ghost use Rattle.std.specs.Prelude.{◌≡◌};
ghost use Rattle.table_machine.specs.Restoring.{record_of};

use net_addr::{NetAddr, Peer};
use peer_rec::{FileRec, Place, Rec};
use std::marker::Model;

/// A record before it is made: its number, its place, and what the file has of it.
#[derive(Drop)]
pub struct Draft<'s> {
    file_rec: &'s FileRec,
    number: u64,
    place: Place,
}

impl<'s> Model for Draft<'s> {
    ghost use Rattle.table_machine.specs.Restoring.{record_of};
    ghost use Rattle.peer_rec.specs.declared.rec.Rec as words;

    ghost Value = { words.Rec };

    ghost view = { λ d. record_of d.file_rec.now d.number d.place };
}

impl<'s> Draft<'s> {
    ghost use Rattle.std.specs.Prelude.{◌≡◌, ◌<◌, ◌≤◌, length};
    ghost use Rattle.peer_rec.specs.Buckets.{with_bucket};
    ghost use Rattle.peer_rec.specs.Rec.{buckets_of};
    ghost use Rattle.peer_rec.specs.declared.buckets.TheConstants.{MAX_LISTS};
    ghost use Rattle.peer_rec.specs.declared.place.Place.TheVariants.{New};
    ghost use Rattle.table_machine.specs.Restoring.{record_of};

    /// Makes the draft of a file's record.
    pub(crate) fn of(file_rec: &'s FileRec, number: u64, place: Place) -> Draft<'s>
        ensures { result ≡ record_of file_rec.now number place }
    {
        Draft {
            file_rec,
            number,
            place,
        }
    }

    /// Returns the peer of the record.
    pub(crate) fn peer(&self) -> &'s Peer
        ensures { result.now ≡ self.now.peer }
    {
        &self.file_rec.peer
    }

    /// Returns the address that first announced the peer.
    pub(crate) fn source(&self) -> &'s NetAddr
        ensures { result.now ≡ self.now.source }
    {
        &self.file_rec.source
    }

    /// Returns how many buckets of the new table list the record.
    pub(crate) fn bucket_count(&self) -> usize
        ensures count { result ≡ length (buckets_of self.now) }
        ensures few { result ≤ MAX_LISTS }
    {
        self.place.bucket_count()
    }

    /// Puts the record into one more bucket of the new table. Fewer than `MAX_LISTS` must list it.
    pub(crate) fn give_bucket(&mut self, bucket: u16)
        requires room { length (buckets_of self.old) < MAX_LISTS }
        ensures { self.new
            ≡ record self.old { place = New (with_bucket bucket (buckets_of self.old)) } }
    {
        self.place = self.place.with_bucket(bucket);
    }

    /// Makes the record. Takes no memory.
    pub fn to_rec(&self) -> Rec
        ensures { result ≡ self.now }
    {
        record_of(self.file_rec, self.number, self.place.copy())
    }
}

/// Returns the record that is made of a file's record.
fn record_of(rec: &FileRec, number: u64, place: Place) -> Rec
    ensures { result ≡ record_of rec.now number place }
{
    Rec {
        number,
        peer: rec.peer,
        source: rec.source,
        time: rec.time,
        services: rec.services,
        last_success: rec.last_success,
        last_try: 0,
        last_count: 0,
        attempts: rec.attempts,
        place,
    }
}
