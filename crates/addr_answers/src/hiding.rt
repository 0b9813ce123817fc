//! `told_time`: one time for all entries, 8 to 12 days back.

ghost use Rattle.std.specs.Prelude.{◌≡◌};
ghost use Rattle.addr_answers.specs.Answers.{told_time};

use crate::EXTRA_SECONDS;

/// Seconds by which a time that hides the records' own comes before the answer was made at least:
/// 8 days.
pub const MIN_AGE: u32 = 691_200;

/// Seconds by which it comes earlier at most: 4 days.
pub const EXTRA_AGE: u32 = 345_600;

/// Returns the time, in seconds since 1970, that hides the times of the records in an answer made
/// at a time by a random word. All entries of the answer have it, so two answers of a node have no
/// times in common by which somebody could tell that they are of one node.
pub fn told_time(made: u32, word: u64) -> u32
    ensures { result ≡ told_time made word }
{
    let extra = word / u64::from(EXTRA_SECONDS + 1) % u64::from(EXTRA_AGE + 1);
    made.saturating_sub(MIN_AGE + extra as u32)
}
