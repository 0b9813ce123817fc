//! `Kind` and `most`: a sum over rounds and refusals in 128-bit integers, with each quotient
//! rounded up.

ghost use Rattle.std.specs.Prelude.{◌≡◌, ◌+◌, ◌-◌, ◌*◌, ◌^◌, ◌≤◌, ◌<◌, All, length};
ghost use Rattle.risk_sum.specs.Kinds.{AreKinds, starts_of, accepting, most_by, refused_by, rounded_up, taken_by};

use peer_rec::next_factor;

/// The records of one chance in a table.
#[derive(Clone, Copy, Default)]
pub struct Kind {
    /// the chance, in parts of 2^30
    pub chance: u32,
    /// how many starts (a bucket, and a slot of it to begin at) lead to them
    pub all: u32,
    /// how many of these lead to records of the set that is asked about
    pub theirs: u32,
}

/// Returns how many of the 2^30 residues of a word accept a record of the chance.
fn accepting(chance: u32, factor: u64) -> u64
    requires factor { factor ≤ 2 ^ 60 }
    ensures is { result ≡ accepting chance factor }
    ensures most { result ≤ 2 ^ 30 }
{
    let words = (u128::from(chance) * u128::from(factor) + 1_073_741_823) / 1_073_741_824;
    if words < 1_073_741_824 {
        words as u64
    } else {
        1_073_741_824
    }
}

/// Returns how many of the 2^30 residues of a word refuse a record of the chance.
fn refusing(chance: u32, factor: u64) -> u64
    requires factor { factor ≤ 2 ^ 60 }
    ensures is { result ≡ 2 ^ 30 - accepting chance factor }
    ensures most { result ≤ 2 ^ 30 }
{
    1_073_741_824 - accepting(chance, factor)
}

/// Returns how many rounds, each a start and a residue, select a record of the set.
fn taken(kinds: &[Kind], factor: u64) -> u128
    requires factor { factor ≤ 2 ^ 60 }
    requires few { length kinds.now ≤ 18 }
    ensures is { result ≡ taken_by kinds.now factor }
    ensures most { result ≤ 18 * 2 ^ 62 }
{
    let mut sum: u128 = 0;
    for kind in kinds {
        sum += u128::from(kind.theirs) * u128::from(accepting(kind.chance, factor));
    }
    sum
}

/// Returns how many rounds refuse their candidate.
fn refused(kinds: &[Kind], factor: u64) -> u128
    requires factor { factor ≤ 2 ^ 60 }
    requires few { length kinds.now ≤ 18 }
    ensures is { result ≡ refused_by kinds.now factor }
    ensures most { result ≤ 18 * 2 ^ 62 }
{
    let mut sum: u128 = 0;
    for kind in kinds {
        sum += u128::from(kind.all) * u128::from(refusing(kind.chance, factor));
    }
    sum
}

/// Returns how many starts lead to a candidate.
fn starts(kinds: &[Kind]) -> u128
    requires few { length kinds.now ≤ 18 }
    ensures is { result ≡ starts_of kinds.now }
{
    let mut sum: u128 = 0;
    for kind in kinds {
        sum += u128::from(kind.all);
    }
    sum
}

/// Returns a / b, rounded up.
fn rounded_up(a: u128, b: u128) -> u128
    requires some { 0 < b }
    requires low { a ≤ 2 ^ 120 }
    requires few { b ≤ 2 ^ 64 }
    ensures is { result ≡ rounded_up a b }
{
    (a + (b - 1)) / b
}

/// Returns the part of the searches that are left, in parts of 2^64, which falls to `of` of the
/// `busy` rounds, rounded up.
#[tactic(auto, using(crate::proofs::Bounds::rounded_few, crate::proofs::Bounds::product_low))]
fn part(left: u128, of: u128, busy: u128) -> u128
    requires left { left ≤ 2 ^ 64 }
    requires of { of ≤ busy }
    requires some { 0 < busy }
    requires few { busy ≤ 2 ^ 46 }
    ensures is { result ≡ rounded_up (left * of) busy }
    ensures most { result ≤ left }
{
    rounded_up(left * of, busy)
}

/// Returns which part of the searches ends at records of the set, at most, in parts of 2^64.
///
/// It adds up what ends after each of the first `ahead` refusals, and all that is left after these.
/// With 48 refusals ahead nothing is left but what rounding up adds: from the 45th factor on each
/// candidate is accepted, whatever its chance.
#[tactic(auto, using(crate::proofs::Bounds::taken_few, crate::proofs::Bounds::refused_few))]
pub fn most(kinds: &[Kind], ahead: u32) -> u128
    requires ahead { ahead ≤ 64 }
    requires few { length kinds.now ≤ 18 }
    requires kinds { AreKinds kinds.now }
    ensures { result ≡ most_by kinds.now (starts_of kinds.now * 2 ^ 30) (2 ^ 64) ahead (2 ^ 30) }
{
    let busy = starts(kinds) * 1_073_741_824;
    let mut left: u128 = 18_446_744_073_709_551_616;
    let mut sum: u128 = 0;
    let mut factor: u64 = 1_073_741_824;
    for _ in 0..ahead {
        sum += part(left, taken(kinds, factor), busy);
        left = part(left, refused(kinds, factor), busy);
        factor = next_factor(factor);
    }
    sum + left
}
