//! `read_file`: magic, checksum and body, of at most `MAX_FILE` (32 MiB).

ghost use Rattle.std.specs.Prelude.{◌≡◌, ◌≢◌, ◌≤◌, ◌<◌, length, vec_len, All, IfOk, IfErr, Ok, Err, MatchResult, None, Some, bytes_eq};
ghost use Rattle.wire_num.specs.Readings.{Gives, all_of, then_at, times_at, value_at};
ghost use Rattle.peer_rec.specs.Snapshot.{snapshot};
ghost use Rattle.peer_rec.specs.declared.file_rec.TheConstants.{MAX_ATTEMPTS};
ghost use Rattle.peer_rec.specs.declared.snapshot.TheConstants.{MAX_NEW, MAX_TRIED, MAX_BUCKETS};
ghost use Rattle.peer_rec.specs.declared.snapshot.Snapshot.{Snapshot};
ghost use Rattle.peers_file.specs.Faults.{UnlessMemory};
ghost use Rattle.peers_file.specs.Layout.{between, whole_fault, IsFile, HasFileFault};
ghost use Rattle.peers_file.specs.Readings.{GivesUnlessMemory, sum_in_at, body_at, record_in_at, all_buckets_at};
ghost use Rattle.peers_file.specs.declared.fault.FileFault.{FileFault};
ghost use Rattle.peers_file.specs.declared.fault.FileFault.TheVariants.{Memory, Trailing};

use crate::chain::Chain;
use crate::fault::FileFault;
use crate::head::{Head, take_32, take_head};
use crate::repeated::{take_buckets, take_records};
use peer_rec::{FileRec, FileRecs, Pairs, Snapshot};
use placing::double_sha256;
use std::alloc::Global;

/// Bytes of a file, at most.
pub const MAX_FILE: usize = 33_554_432;

/// Returns `true` if both are the same bytes.
fn are_same(bytes: &[u8], others: &[u8]) -> bool
    ensures { result ≡ bytes_eq bytes.now others.now }
{
    bytes == others
}

/// Returns the bytes between the magic and the sum of a file that passes the tests of the file as a
/// whole, or the first fault.
#[tactic(auto, unfolding(crate::specs::Layout::whole_fault))]
fn check_whole(bytes: &[u8], chain: Chain) -> Result<&[u8], FileFault>
    ensures { MatchResult result
        (λ middle. (whole_fault chain bytes.now ≡ None) × (middle.now ≡ between bytes.now))
        (λ fault. whole_fault chain bytes.now ≡ Some fault) }
{
    let length = bytes.len();
    if length > MAX_FILE {
        return Err(FileFault::TooLarge {
            size: length as u64,
        });
    }
    if length < 36 {
        return Err(FileFault::Truncated);
    }
    if !are_same(&bytes[..4], &chain.magic()) {
        return Err(FileFault::BadMagic);
    }
    let (before_sum, sum) = bytes.split_at(length - 32);
    if !are_same(sum, &double_sha256(before_sum)) {
        return Err(FileFault::BadSum);
    }
    Ok(&before_sum[4..])
}

/// Takes the checksum of an asmap, which format 1 does not have.
fn take_sum(format: u8, bytes: &[u8]) -> Result<([u8; 32], &[u8]), FileFault>
    ensures { Gives (λ x. (x.0, x.1.now)) result (sum_in_at format bytes.now) }
{
    if format == 1 {
        return Ok(([0; 32], bytes));
    }
    take_32(bytes)
}

/// Reads what comes after the records, and makes the snapshot of it, the head and the records.
fn read_rest(
    alloc: Global,
    head: &Head,
    new_recs: Vec<FileRec>,
    tried_recs: Vec<FileRec>,
    bytes: &[u8],
) -> Result<Snapshot, FileFault>
    requires new_count { vec_len new_recs ≡ head.now.new_count }
    requires few_new { head.now.new_count ≤ MAX_NEW }
    requires few_tried { vec_len tried_recs ≤ MAX_TRIED }
    requires few_buckets { head.now.bucket_count ≤ MAX_BUCKETS }
    requires new_attempts { All (λ r. r.attempts ≤ MAX_ATTEMPTS) new_recs.items }
    requires tried_attempts { All (λ r. r.attempts ≤ MAX_ATTEMPTS) tried_recs.items }
    ensures { GivesUnlessMemory (λ snap. snap) result (all_of
        (then_at (all_buckets_at head.now.new_count head.now.bucket_count) (λ listed.
        then_at (sum_in_at head.now.format) (λ sum.
        value_at (snapshot head.now.key new_recs.items tried_recs.items head.now.bucket_count
        listed sum)))) Trailing bytes.now) }
{
    let (listed, rest) = match take_buckets(alloc, head.new_count, head.bucket_count, bytes) {
        Ok(found) => found,
        Err(fault) => return Err(fault),
    };
    let (sum, rest) = take_sum(head.format, rest)?;
    let [] = rest else {
        return Err(FileFault::Trailing);
    };
    let (new_recs, tried_recs) = (FileRecs::of(new_recs), FileRecs::of(tried_recs));
    let listed = Pairs::of(listed);
    Ok(Snapshot::make(
        head.key,
        new_recs,
        tried_recs,
        head.bucket_count,
        listed,
        sum,
    ))
}

/// Reads the records and what comes after them.
fn read_records(alloc: Global, head: &Head, bytes: &[u8]) -> Result<Snapshot, FileFault>
    requires few_new { head.now.new_count ≤ MAX_NEW }
    requires few_tried { head.now.tried_count ≤ MAX_TRIED }
    requires few_buckets { head.now.bucket_count ≤ MAX_BUCKETS }
    ensures { GivesUnlessMemory (λ snap. snap) result (all_of
        (then_at (times_at 0 head.now.new_count (record_in_at head.now.format)) (λ new_recs.
        then_at (times_at head.now.new_count head.now.tried_count
        (record_in_at head.now.format)) (λ tried_recs.
        then_at (all_buckets_at head.now.new_count head.now.bucket_count) (λ listed.
        then_at (sum_in_at head.now.format) (λ sum.
        value_at (snapshot head.now.key new_recs tried_recs head.now.bucket_count
        listed sum)))))) Trailing bytes.now) }
{
    let (new_recs, rest) = match take_records(alloc, head.format, 0, head.new_count, bytes) {
        Ok(found) => found,
        Err(fault) => return Err(fault),
    };
    let (tried_recs, rest) = match take_records(
        alloc,
        head.format,
        head.new_count,
        head.tried_count,
        rest,
    ) {
        Ok(found) => found,
        Err(fault) => return Err(fault),
    };
    read_rest(alloc, head, new_recs, tried_recs, rest)
}

/// Reads what is between the magic and the sum of a file.
#[tactic(auto, unfolding(crate::specs::Readings::body_at))]
fn read_body(alloc: Global, bytes: &[u8]) -> Result<Snapshot, FileFault>
    ensures { GivesUnlessMemory (λ snap. snap) result (all_of body_at Trailing bytes.now) }
{
    let (head, rest) = take_head(bytes)?;
    read_records(alloc, &head, rest)
}

/// Reads a file of peers in format 1 to 4 (`AddrManImpl::Unserialize` in addrman.cpp of Bitcoin
/// Core, which also checks the numbers of records).
///
/// An error is the first fault: of the file as a whole, and then from its start; `Memory` is
/// possible instead of any result.
pub fn read_file(alloc: Global, bytes: &[u8], chain: Chain) -> Result<Snapshot, FileFault>
    ensures found { IfOk result (λ snap. IsFile chain bytes.now snap) }
    ensures only { (snap : Snapshot) → IsFile chain bytes.now snap → UnlessMemory result (Ok snap) }
    ensures cause { IfErr result (λ fault. fault ≢ Memory → HasFileFault chain bytes.now fault) }
    ensures first { (fault : FileFault) → HasFileFault chain bytes.now fault →
        UnlessMemory result (Err fault) }
{
    match check_whole(bytes, chain) {
        Ok(middle) => read_body(alloc, middle),
        Err(fault) => Err(fault),
    }
}
