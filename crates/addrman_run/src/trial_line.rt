//! The line that `trial` prints.

ghost use Rattle.std.specs.Prelude.{◌≡◌, IfOk, OnOk};
ghost use Rattle.peer_rec.specs.declared.answers.Counts.{Counts};
ghost use Rattle.addrman_run.specs.Trial.{sizes_text, with_counts, with_sum};

use crate::Memory;
use net_addr::{put_hex, put_number, put_text};
use peer_rec::Counts;
use std::alloc::Global;

/// Appends the counts of the tables.
fn put_counts(counts: Counts, out: &mut Vec<u8>) -> Result<(), Memory>
    ensures { OnOk result (out.new.items ≡ with_counts out.old.items counts) }
{
    put_number(b" new ", u64::from(counts.new_count), out)?;
    put_number(b" tried ", u64::from(counts.tried_count), out)?;
    put_number(b" clashes ", u64::from(counts.clashes), out)
}

/// Appends the SHA-256 of the replies, and a line feed.
fn put_sum(sum: &[u8], out: &mut Vec<u8>) -> Result<(), Memory>
    ensures { OnOk result (out.new.items ≡ with_sum out.old.items sum.now) }
{
    put_hex(b" sum ", sum, out)?;
    put_text(b"\n", out)
}

/// Returns the line about a trial: how many lines its log has and how many bytes its replies, the
/// counts of the tables after it, and the SHA-256 of the replies.
pub(crate) fn line_of(
    alloc: Global,
    lines: u32,
    bytes: u64,
    counts: Counts,
    sum: &[u8],
) -> Result<Vec<u8>, Memory>
    ensures { IfOk result (λ line. line.items ≡
        with_sum (with_counts (sizes_text lines bytes) counts) sum.now) }
{
    let mut line = Vec::new(alloc);
    put_number(b"trial lines ", u64::from(lines), &mut line)?;
    put_number(b" replies ", bytes, &mut line)?;
    put_counts(counts, &mut line)?;
    put_sum(sum, &mut line)?;
    Ok(line)
}
