//! Writes records with their buckets to an output.

ghost use Rattle.std.specs.Prelude.{◌≡◌, ◌≢◌, ◌≤◌, length, take, drop};
ghost use Rattle.peer_rec.specs.Rec.{buckets_by};
ghost use Rattle.c_values.specs.Records.{IsRecord, AreRecords, RecordsPut};

use crate::code::{OK, SHORT_BUFFER};
use crate::structs::AddrmanRecord;
use crate::values::{write_addr, write_peer};
use peer_rec::{Place, Rec};

/// Writes the buckets of a place to the start of an output, and returns how many they are.
fn put_buckets(place: &Place, out: &mut [u16; 8]) -> u32
    ensures buckets { take result out.new ≡ buckets_by place.now }
    ensures count { result ≡ length (buckets_by place.now) }
{
    match place {
        Place::New(buckets) => {
            let items = buckets.items();
            out[..items.len()].copy_from_slice(items);
            items.len() as u32
        }
        Place::Tried => 0,
    }
}

/// Writes a record as C sees it.
pub fn write_record(rec: &Rec) -> AddrmanRecord
    ensures { IsRecord result rec.now }
{
    let mut buckets = [0; 8];
    let bucket_count = put_buckets(&rec.place, &mut buckets);
    AddrmanRecord {
        number: rec.number,
        services: rec.services,
        peer: write_peer(&rec.peer),
        source: write_addr(&rec.source),
        time: rec.time,
        last_success: rec.last_success,
        last_try: rec.last_try,
        last_counted: rec.last_count,
        attempts: rec.attempts,
        buckets,
        bucket_count,
    }
}

/// Writes records to the start of an output that has room for them.
fn put_start(out: &mut [AddrmanRecord], recs: &[Rec])
    requires { length recs.now ≤ length out.old }
    ensures told { AreRecords out.new recs.now }
    ensures rest { drop (length recs.now) out.new ≡ drop (length recs.now) out.old }
{
    for i in 0..recs.len() {
        out[i] = write_record(&recs[i]);
    }
}

/// Writes records, whole or not at all, and how many they are.
pub fn put_records(out: &mut [AddrmanRecord], recs: &[Rec], length: &mut usize) -> u32
    ensures call { RecordsPut recs.now result out.old out.new length.new }
    ensures same { result ≢ OK → out.new ≡ out.old }
{
    *length = recs.len();
    if recs.len() > out.len() {
        return SHORT_BUFFER;
    }
    put_start(out, recs);
    OK
}
