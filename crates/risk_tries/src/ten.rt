//! `ten_bound`: an upper bound, from the shares of groups, on the lists of tries that open all
//! connections to them; with the least sums and `TRY_LISTS`.
//!
//! The open peers rule out their groups with all peers in them, so the bound needs the part of the
//! picks of each group that the set reaches, and no more. Its product is 1.00 to 1.40 times the
//! exact chance. Taking i times the least part instead of the least sum of i of them would need no
//! sums, and be up to 1.6 times larger. It is computed of 2^62 lists of tries, so that the product
//! of what is left with a share, at most 2^65, fits 128 bits.

ghost use Rattle.std.specs.Prelude.{◌≡◌, ◌<◌, ◌≤◌, ◌^◌, All, IfSome, IfNone, fold, map, sum};
ghost use Rattle.std.specs.List.{range_with_len};
ghost use Rattle.risk_tries.specs.Inside.{after_one, least_sums, with_share};
ghost use Rattle.risk_tries.specs.TenBound.{ten_bound};

use peer_open::MAX_OUTBOUND;

/// The lists of tries that the bound is a part of.
pub const TRY_LISTS: u128 = 4_611_686_018_427_387_904;

/// Returns the sum of the shares if it is below the whole.
fn sum_below(shares: &[u128], whole: u128) -> Option<u128>
    requires each { All (λ s. s ≤ 2 ^ 65) shares.now }
    requires some { 0 < whole }
    requires few { whole ≤ 2 ^ 65 }
    ensures found { IfSome result (λ total. total ≡ sum shares.now) }
    ensures below { IfSome result (λ total. total < whole) }
    ensures none { IfNone result (whole ≤ sum shares.now) }
{
    let mut total = 0;
    for share in shares {
        total += *share;
        if whole <= total {
            return None;
        }
    }
    Some(total)
}

/// Returns the least sums of none of some numbers, of one of them, and so on, once one number is
/// added, from those without it.
fn with_share(least: [u128; MAX_OUTBOUND], share: u128) -> [u128; MAX_OUTBOUND]
    requires each { All (λ s. s ≤ 2 ^ 65) least }
    requires share { share ≤ 2 ^ 65 }
    ensures { result ≡ map (with_share share least) (range_with_len 0 MAX_OUTBOUND) }
{
    let mut more = [0; MAX_OUTBOUND];
    for count in 1..MAX_OUTBOUND {
        more[count] = (share + least[count - 1]).min(least[count]);
    }
    more
}

/// Returns the least sums of none of the shares, of one of them, and so on; `none` if there are
/// fewer.
fn least_sums(shares: &[u128], none: u128) -> [u128; MAX_OUTBOUND]
    requires each { All (λ s. s ≤ 2 ^ 65) shares.now }
    requires none { none ≤ 2 ^ 65 }
    ensures { result ≡ least_sums none shares.now }
{
    let mut least = [none; MAX_OUTBOUND];
    least[0] = 0;
    let mut from = shares.len();
    while 0 < from {
        from -= 1;
        least = with_share(least, shares[from]);
    }
    least
}

/// Returns how many of the lists that are left open one connection more, at most: the quotient is
/// rounded up.
fn after_one(total: u128, whole: u128, left: u128, opened: u128) -> u128
    requires left { left ≤ TRY_LISTS }
    requires total { total < whole }
    requires opened { opened ≤ total }
    requires whole { whole ≤ 2 ^ 65 }
    ensures is { result ≡ after_one total whole left opened }
    ensures few { result ≤ TRY_LISTS }
{
    let all = whole - opened;
    (left * (total - opened) + (all - 1)) / all
}

/// Returns how many of the lists open all connections, at most, by the least sums.
fn product(opened: &[u128], total: u128, whole: u128) -> u128
    requires opened { All (λ s. s ≤ total) opened.now }
    requires total { total < whole }
    requires whole { whole ≤ 2 ^ 65 }
    ensures is { result ≡ fold (after_one total whole) TRY_LISTS opened.now }
    ensures few { result ≤ TRY_LISTS }
{
    let mut left = TRY_LISTS;
    for low in opened {
        left = after_one(total, whole, left, *low);
    }
    left
}

/// Returns how many of `TRY_LISTS` lists of tries open all connections to peers of some groups, at
/// most. Of `whole` picks, each group has so many.
pub fn ten_bound(shares: &[u128], whole: u128) -> u128
    requires each { All (λ s. s ≤ 2 ^ 65) shares.now }
    requires some { 0 < whole }
    requires whole { whole ≤ 2 ^ 65 }
    ensures is { result ≡ ten_bound shares.now whole TRY_LISTS }
    ensures few { result ≤ TRY_LISTS }
{
    match sum_below(shares, whole) {
        Some(total) => product(&least_sums(shares, total), total, whole),
        None => TRY_LISTS,
    }
}
