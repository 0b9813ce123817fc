//! `Head`, what comes before the records: format, key, counts, and the number of buckets (with bit
//! 30).

ghost use Rattle.std.specs.Prelude.{◌≤◌, ◌^◌, IfOk};
ghost use Rattle.std.specs.Int.Bits.{bit_xor};
ghost use Rattle.wire_num.specs.Readings.{Gives, then_at, value_at, bytes_at};
ghost use Rattle.peers_file.specs.Layout.{head_with};
ghost use Rattle.peers_file.specs.Readings.{field_at, count_at, buckets_at, head_at};
ghost use Rattle.peers_file.specs.declared.fault.Which.TheVariants.{New, Tried};
ghost use Rattle.peer_rec.specs.declared.snapshot.TheConstants.{MAX_NEW, MAX_TRIED, MAX_BUCKETS};

use crate::fault::{FileFault, Which};
use peer_rec::{MAX_BUCKETS, MAX_NEW, MAX_TRIED};
use wire_num::{take_byte, take_le32};

/// What comes before the records.
#[derive(Drop)]
pub(crate) struct Head {
    /// 1 to 4.
    pub format: u8,
    pub key: [u8; 32],
    pub new_count: u32,
    pub tried_count: u32,
    pub bucket_count: u32,
}

/// Takes a number of records, at most `limit`.
#[tactic(auto, unfolding(crate::specs::Readings::count_at))]
fn take_count(which: Which, limit: u32, bytes: &[u8]) -> Result<(u32, &[u8]), FileFault>
    ensures found { Gives (λ x. (x.0, x.1.now)) result (count_at which limit bytes.now) }
    ensures few { IfOk result (λ x. x.0 ≤ limit) }
{
    let (count, rest) = take_le32(bytes)?;
    if count > limit {
        return Err(FileFault::Count {
            which,
            value: count.cast_signed(),
        });
    }
    Ok((count, rest))
}

/// Takes the number of buckets, whose bit 30 is turned so that the first format of a file without
/// such a number is not read.
#[tactic(auto, unfolding(crate::specs::Readings::buckets_at))]
fn take_bucket_count(bytes: &[u8]) -> Result<(u32, &[u8]), FileFault>
    ensures found { Gives (λ x. (x.0, x.1.now)) result (buckets_at bytes.now) }
    ensures few { IfOk result (λ x. x.0 ≤ MAX_BUCKETS) }
{
    let (coded, rest) = take_le32(bytes)?;
    let count = coded ^ 0x4000_0000;
    if count > MAX_BUCKETS {
        return Err(FileFault::Buckets {
            value: count.cast_signed(),
        });
    }
    Ok((count, rest))
}

/// Takes a key or a checksum.
pub(crate) fn take_32(bytes: &[u8]) -> Result<([u8; 32], &[u8]), FileFault>
    ensures { Gives (λ x. (x.0, x.1.now)) result (field_at (bytes_at 32) bytes.now) }
{
    match bytes.split_first_chunk::<32>() {
        Some((taken, rest)) => Ok((*taken, rest)),
        None => Err(FileFault::Truncated),
    }
}

/// Takes the numbers of records and of buckets, and makes the head of them and of what is before.
fn take_counts(format: u8, key: [u8; 32], bytes: &[u8]) -> Result<(Head, &[u8]), FileFault>
    ensures found { Gives (λ x. (x.0, x.1.now)) result
        (then_at (count_at New MAX_NEW) (λ new_count.
        then_at (count_at Tried MAX_TRIED) (λ tried_count.
        then_at buckets_at (λ bucket_count.
        value_at (head_with format key new_count tried_count bucket_count)))) bytes.now) }
    ensures few_new { IfOk result (λ x. x.0.new_count ≤ MAX_NEW) }
    ensures few_tried { IfOk result (λ x. x.0.tried_count ≤ MAX_TRIED) }
    ensures few_buckets { IfOk result (λ x. x.0.bucket_count ≤ MAX_BUCKETS) }
{
    let (new_count, rest) = take_count(Which::New, MAX_NEW, bytes)?;
    let (tried_count, rest) = take_count(Which::Tried, MAX_TRIED, rest)?;
    let (bucket_count, rest) = take_bucket_count(rest)?;
    let head = Head {
        format,
        key,
        new_count,
        tried_count,
        bucket_count,
    };
    Ok((head, rest))
}

/// Takes what comes before the records.
#[tactic(auto, unfolding(crate::specs::Readings::head_at))]
pub(crate) fn take_head(bytes: &[u8]) -> Result<(Head, &[u8]), FileFault>
    ensures found { Gives (λ x. (x.0, x.1.now)) result (head_at bytes.now) }
    ensures few_new { IfOk result (λ x. x.0.new_count ≤ MAX_NEW) }
    ensures few_tried { IfOk result (λ x. x.0.tried_count ≤ MAX_TRIED) }
    ensures few_buckets { IfOk result (λ x. x.0.bucket_count ≤ MAX_BUCKETS) }
{
    let (format, rest) = take_byte(bytes)?;
    let (compat, rest) = take_byte(rest)?;
    if !(32 <= compat && compat <= 36) {
        return Err(FileFault::Compat { byte: compat });
    }
    if !(1 <= format && format <= 4) {
        return Err(FileFault::Version { byte: format });
    }
    let (key, rest) = take_32(rest)?;
    take_counts(format, key, rest)
}
