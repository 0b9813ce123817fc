//! The address ranges of RFCs: which bytes are invalid, local, reserved or CJDNS, or embed an IPv4
//! address (NAT64, 6to4, Teredo).

ghost use Rattle.std.specs.Prelude.{◌≡◌, ◌-◌, ◌*◌, ◌≤◌, ◌==◌, ◌||◌, length, map};
ghost use Rattle.std.specs.List.{starts_with};
ghost use Rattle.net_addr.specs.Ranges.{range, in_range, in_some, ipv4_invalid, ipv6_invalid, ipv4_local, ipv6_local, ipv4_reserved, ipv6_reserved, cjdns_range, nat64, siit, carried};

use crate::old_form::array_of;

/// Returns `true` if the bytes begin with the first `bits` bits of the base.
pub(crate) fn in_range(bytes: &[u8], base: &[u8], bits: usize) -> bool
    requires base_holds { bits ≤ 8 * length base.now }
    requires bytes_hold { length base.now ≤ length bytes.now }
    ensures { result ≡ in_range (range base.now bits) bytes.now }
{
    let whole = bits / 8;
    let rest = bits % 8;
    if !begins_with(bytes, &base[..whole]) {
        return false;
    }
    rest == 0 || base[whole] >> (8 - rest) == bytes[whole] >> (8 - rest)
}

/// Returns `true` if the bytes begin with others. It stops at the first byte that differs, so for a
/// few bytes it takes less time than the call of a slice, which compares bytes in groups.
fn begins_with(bytes: &[u8], others: &[u8]) -> bool
    ensures { result ≡ starts_with ◌==◌ bytes.now others.now }
{
    let mut left = bytes;
    let mut right = others;
    while let [y, ys @ ..] = right {
        let [x, xs @ ..] = left else {
            return false;
        };
        if *x != *y {
            return false;
        }
        left = xs;
        right = ys;
    }
    true
}

/// Returns `true` if the bytes are 0.0.0.0 or 255.255.255.255.
pub(crate) fn is_ipv4_invalid(bytes: &[u8]) -> bool
    requires { length bytes.now ≡ 4 }
    ensures { result ≡ in_some ipv4_invalid bytes.now }
{
    in_range(bytes, &[0, 0, 0, 0], 32) || in_range(bytes, &[255, 255, 255, 255], 32)
}

/// Returns `true` if the bytes are `::` or in 2001:db8::/32.
pub(crate) fn is_ipv6_invalid(bytes: &[u8]) -> bool
    requires { length bytes.now ≡ 16 }
    ensures { result ≡ in_some ipv6_invalid bytes.now }
{
    in_range(
        bytes,
        &[0, 0, 0, 0, 0, 0, 0, 0, 0, 0, 0, 0, 0, 0, 0, 0],
        128,
    ) || in_range(bytes, &[0x20, 0x01, 0x0d, 0xb8], 32)
}

/// Returns `true` if the bytes are in 127.0.0.0/8 or 0.0.0.0/8.
pub(crate) fn is_ipv4_local(bytes: &[u8]) -> bool
    requires { length bytes.now ≡ 4 }
    ensures { result ≡ in_some ipv4_local bytes.now }
{
    in_range(bytes, &[127, 0, 0, 0], 8) || in_range(bytes, &[0, 0, 0, 0], 8)
}

/// Returns `true` if the bytes are `::1`.
pub(crate) fn is_ipv6_local(bytes: &[u8]) -> bool
    requires { length bytes.now ≡ 16 }
    ensures { result ≡ in_some ipv6_local bytes.now }
{
    in_range(
        bytes,
        &[0, 0, 0, 0, 0, 0, 0, 0, 0, 0, 0, 0, 0, 0, 0, 1],
        128,
    )
}

/// Returns `true` if the bytes are in a range of RFC 1918, 2544, 3927, 6598 or 5737.
pub(crate) fn is_ipv4_reserved(bytes: &[u8]) -> bool
    requires { length bytes.now ≡ 4 }
    ensures { result ≡ in_some ipv4_reserved bytes.now }
{
    in_range(bytes, &[10, 0, 0, 0], 8)
        || in_range(bytes, &[172, 16, 0, 0], 12)
        || in_range(bytes, &[192, 168, 0, 0], 16)
        || in_range(bytes, &[198, 18, 0, 0], 15)
        || in_range(bytes, &[169, 254, 0, 0], 16)
        || in_range(bytes, &[100, 64, 0, 0], 10)
        || in_range(bytes, &[192, 0, 2, 0], 24)
        || in_range(bytes, &[198, 51, 100, 0], 24)
        || in_range(bytes, &[203, 0, 113, 0], 24)
}

/// Returns `true` if the bytes are in a range of RFC 4862, 4193, 4843 or 7343.
pub(crate) fn is_ipv6_reserved(bytes: &[u8]) -> bool
    requires { length bytes.now ≡ 16 }
    ensures { result ≡ in_some ipv6_reserved bytes.now }
{
    in_range(bytes, &[0xfe, 0x80, 0, 0, 0, 0, 0, 0], 64)
        || in_range(bytes, &[0xfc], 7)
        || in_range(bytes, &[0x20, 0x01, 0, 0x10], 28)
        || in_range(bytes, &[0x20, 0x01, 0, 0x20], 28)
}

/// Returns `true` if the bytes begin with fc, as the addresses of CJDNS do.
pub(crate) fn is_cjdns(bytes: &[u8]) -> bool
    requires { length bytes.now ≡ 16 }
    ensures { result ≡ in_range cjdns_range bytes.now }
{
    in_range(bytes, &[0xfc], 8)
}

/// Returns `true` if the bytes are in NAT64's 64:ff9b::/96 or SIIT's `::ffff:0:0:0/96`, which end
/// in an IPv4 address.
fn ends_in_ipv4(bytes: &[u8]) -> bool
    requires { length bytes.now ≡ 16 }
    ensures { result ≡ (in_range nat64 bytes.now || in_range siit bytes.now) }
{
    in_range(bytes, &[0, 0x64, 0xff, 0x9b, 0, 0, 0, 0, 0, 0, 0, 0], 96)
        || in_range(bytes, &[0, 0, 0, 0, 0, 0, 0, 0, 0xff, 0xff, 0, 0], 96)
}

/// Returns the four bytes of the IPv4 address that an IPv6 address embeds, or `None` if there is
/// none.
pub(crate) fn carried(bytes: &[u8]) -> Option<[u8; 4]>
    requires { length bytes.now ≡ 16 }
    ensures { result ≡ carried bytes.now }
{
    if ends_in_ipv4(bytes) {
        Some(array_of(&bytes[12..]))
    } else if in_range(bytes, &[0x20, 0x02], 16) {
        Some(array_of(&bytes[2..6]))
    } else if in_range(bytes, &[0x20, 0x01, 0, 0], 32) {
        Some(complement(array_of(&bytes[12..])))
    } else {
        None
    }
}

/// Returns the complement of each byte.
fn complement(bytes: [u8; 4]) -> [u8; 4]
    ensures { result ≡ map (λ b. 255 - b) bytes }
{
    let [a, b, c, d] = bytes;
    [255 - a, 255 - b, 255 - c, 255 - d]
}
