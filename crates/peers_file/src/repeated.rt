//! Reads what is repeated: the records of a table, and the indexes of buckets.

ghost use Rattle.std.specs.Prelude.{◌≡◌, ◌≤◌, ◌<◌, ◌+◌, vec_len, All, AllPairs, IfOk};
ghost use Rattle.std.specs.Int.{w32};
ghost use Rattle.wire_num.specs.Readings.{Gives, then_at, times_at, value_at, le_at};
ghost use Rattle.peer_rec.specs.declared.file_rec.TheConstants.{MAX_ATTEMPTS};
ghost use Rattle.peer_rec.specs.declared.snapshot.TheConstants.{MAX_NEW, MAX_TRIED};
ghost use Rattle.peers_file.specs.Layout.{entries_of, pairs_with};
ghost use Rattle.peers_file.specs.Readings.{GivesUnlessMemory, AppendsUnlessMemory, field_at, record_in_at, bucket_at, all_buckets_at};

use crate::fault::FileFault;
use crate::record::take_record;
use peer_rec::FileRec;
use std::alloc::Global;
use wire_num::take_le32;

/// Bytes of a record, at least: one of format 3 or 4 whose addresses have no bytes.
const MIN_RECORD: usize = 27;

/// Bytes of an index.
const INDEX: usize = 4;

/// Takes `count` records of a file's format, whose indexes begin with `first`. Room is taken for as
/// many as the bytes may have.
pub(crate) fn take_records(
    alloc: Global,
    format: u8,
    first: u32,
    count: u32,
    bytes: &[u8],
) -> Result<(Vec<FileRec>, &[u8]), FileFault>
    requires { first + count ≤ MAX_NEW + MAX_TRIED }
    ensures found { GivesUnlessMemory (λ x. (x.0.items, x.1.now)) result
        (times_at first count (record_in_at format) bytes.now) }
    ensures count { IfOk result (λ x. vec_len x.0 ≡ count) }
    ensures attempts { IfOk result (λ x. All (λ r. r.attempts ≤ MAX_ATTEMPTS) x.0.items) }
{
    let most = bytes.len() / MIN_RECORD;
    let mut recs = Vec::with_capacity(alloc, most.min(count as usize))?;
    let mut rest = bytes;
    let end = first + count;
    for index in first..end {
        let (rec, after) = match take_record(format, index, rest) {
            Ok(found) => found,
            Err(fault) => return Err(fault),
        };
        recs.push(rec)?;
        rest = after;
    }
    Ok((recs, rest))
}

/// Takes an index.
fn take_index(bytes: &[u8]) -> Result<(u32, &[u8]), FileFault>
    ensures { Gives (λ x. (x.0, x.1.now)) result (field_at (le_at w32) bytes.now) }
{
    let (index, rest) = take_le32(bytes)?;
    Ok((index, rest))
}

/// Returns how many entries are read after this count of them: none if it is negative.
fn entries_of(number: u32) -> u32
    ensures { result ≡ entries_of number }
{
    if number < 0x8000_0000 { number } else { 0 }
}

/// Takes `count` indexes, and appends those below `new_count` to the list as pairs with the bucket.
fn take_pairs<'a>(
    listed: &mut Vec<(u32, u32)>,
    new_count: u32,
    bucket: u32,
    count: u32,
    bytes: &'a [u8],
) -> Result<&'a [u8], FileFault>
    ensures { AppendsUnlessMemory (λ x. x.now) listed.old.items listed.new.items result (then_at
        (times_at 0 count (λ _. field_at (le_at w32)))
        (λ indexes. value_at (pairs_with new_count bucket indexes)) bytes.now) }
{
    let mut rest = bytes;
    for _ in 0..count {
        let (index, after) = match take_index(rest) {
            Ok(found) => found,
            Err(fault) => return Err(fault),
        };
        if index < new_count {
            listed.push((bucket, index))?;
        }
        rest = after;
    }
    Ok(rest)
}

/// Takes a bucket, and appends its pairs to the list.
#[tactic(auto, unfolding(crate::specs::Readings::bucket_at))]
fn take_bucket<'a>(
    listed: &mut Vec<(u32, u32)>,
    new_count: u32,
    bucket: u32,
    bytes: &'a [u8],
) -> Result<&'a [u8], FileFault>
    ensures { AppendsUnlessMemory (λ x. x.now) listed.old.items listed.new.items result
        (bucket_at new_count bucket bytes.now) }
{
    let (number, rest) = take_le32(bytes)?;
    take_pairs(listed, new_count, bucket, entries_of(number), rest)
}

/// Takes the pairs of the buckets from 0 on. Room is taken for as many as the bytes may have.
pub(crate) fn take_buckets(
    alloc: Global,
    new_count: u32,
    bucket_count: u32,
    bytes: &[u8],
) -> Result<(Vec<(u32, u32)>, &[u8]), FileFault>
    ensures found { GivesUnlessMemory (λ x. (x.0.items, x.1.now)) result
        (all_buckets_at new_count bucket_count bytes.now) }
    ensures buckets { IfOk result (λ x. All (λ pair. pair.0 < bucket_count) x.0.items) }
    ensures indexes { IfOk result (λ x. All (λ pair. pair.1 < new_count) x.0.items) }
    ensures rising { IfOk result (λ x. AllPairs (λ pair later. pair.0 ≤ later.0) x.0.items) }
{
    let mut listed = Vec::with_capacity(alloc, bytes.len() / INDEX)?;
    let mut rest = bytes;
    for bucket in 0..bucket_count {
        rest = match take_bucket(&mut listed, new_count, bucket, rest) {
            Ok(after) => after,
            Err(fault) => return Err(fault),
        };
    }
    Ok((listed, rest))
}
