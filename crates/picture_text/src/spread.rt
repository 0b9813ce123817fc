//! `is_spread`: whether a group reaches more buckets than an honest one of its size would, by a
//! mean and a root.

ghost use Rattle.std.specs.Prelude.{◌≡◌, ◌<◌, ◌≤◌, ◌*◌, length};
ghost use Rattle.picture_text.specs.Spread.{is_spread, reached, reaches_beyond, spread_of, unlisted_in};

use crate::By;
use table_groups::Source;

/// Parts of which so many are a bucket.
const PARTS: u64 = 65_536;

/// Returns the mean number of buckets that are reached by slots of which each is in any of some
/// buckets alike, in parts of a bucket.
#[tactic(auto, using(crate::proofs::Reached::reached_none, crate::proofs::Reached::reached_more))]
fn reached(buckets: u32, slots: u32) -> u64
    requires { 0 < buckets }
    ensures is { result ≡ reached buckets slots }
    ensures few { result ≤ 65536 * buckets }
{
    let mut parts = 0;
    for _ in 0..slots {
        parts += (PARTS * u64::from(buckets) - parts) / u64::from(buckets);
    }
    parts
}

/// Returns `true` if a group is in more buckets than that, by more than the root of all of them.
fn reaches_beyond(buckets: u32, root: u32, slots: u32, own: u32) -> bool
    requires { 0 < buckets }
    ensures { result ≡ reaches_beyond buckets root slots own }
{
    reached(buckets, slots) + PARTS * u64::from(root) < PARTS * u64::from(own)
}

/// Returns `true` if a group reaches more buckets of the new table than an honest one of its size
/// would. Takes time for each of its slots.
pub fn is_spread(by: By, source: &Source) -> bool
    ensures { result ≡ is_spread by source.now }
{
    match by {
        By::Source => reaches_beyond(64, 8, source.new, source.buckets),
        By::Group => reaches_beyond(1024, 32, source.new, source.buckets),
        By::Network => false,
        By::Age => false,
    }
}

/// Returns the groups that are not listed: those after the first six.
pub fn unlisted_in(sources: &[Source]) -> &[Source]
    ensures { result.now ≡ unlisted_in sources.now }
{
    if 6 < sources.len() {
        &sources[6..]
    } else {
        &[]
    }
}

/// Returns how many groups that are not listed spread.
#[tactic(auto, unfolding(crate::specs::Spread::spread_of))]
pub fn spread_of(by: By, sources: &[Source]) -> usize
    ensures { result ≡ spread_of by sources.now }
{
    let unlisted = unlisted_in(sources);
    let mut count = 0;
    for source in unlisted {
        if is_spread(by, source) {
            count += 1;
        }
    }
    count
}
