//! The sixteen bytes that stood for an address before BIP 155: `MAPPED_PREFIX`, `INTERNAL_PREFIX`
//! and `TORV2_PREFIX`.

ghost use Rattle.std.specs.Prelude.{◌≡◌, ◌++◌, length};
ghost use Rattle.net_addr.specs.Address.{is_old_form, mapped_prefix, internal_prefix};

/// The prefix of an IPv4 address in the old form of sixteen bytes (`IPV4_IN_IPV6_PREFIX` in
/// netaddress.h of Bitcoin Core).
pub const MAPPED_PREFIX: [u8; 12] = [0, 0, 0, 0, 0, 0, 0, 0, 0, 0, 0xff, 0xff];

/// The prefix of an internal name in the old form (`INTERNAL_IN_IPV6_PREFIX`).
pub const INTERNAL_PREFIX: [u8; 6] = [0xfd, 0x6b, 0x88, 0xc0, 0x87, 0x24];

/// The prefix of a Tor v2 address in the old form (`TORV2_IN_IPV6_PREFIX`).
pub const TORV2_PREFIX: [u8; 6] = [0xfd, 0x87, 0xd8, 0x7e, 0xeb, 0x43];

/// Returns `true` if sixteen bytes are the old form of something other than an IPv6 address.
pub(crate) fn is_old_form(bytes: &[u8]) -> bool
    ensures { result ≡ is_old_form bytes.now }
{
    bytes.starts_with(&MAPPED_PREFIX)
        || bytes.starts_with(&INTERNAL_PREFIX)
        || bytes.starts_with(&TORV2_PREFIX)
}

/// Returns the old form of an IPv4 address.
pub(crate) fn mapped(bytes: &[u8; 4]) -> [u8; 16]
    ensures { result ≡ mapped_prefix ++ bytes.now }
{
    let [a, b, c, d] = *bytes;
    [0, 0, 0, 0, 0, 0, 0, 0, 0, 0, 0xff, 0xff, a, b, c, d]
}

/// Returns the old form of an internal name.
pub(crate) fn internal(bytes: &[u8; 10]) -> [u8; 16]
    ensures { result ≡ internal_prefix ++ bytes.now }
{
    let mut all = [0; 16];
    all[..6].copy_from_slice(&INTERNAL_PREFIX);
    all[6..].copy_from_slice(bytes);
    all
}

/// Returns the bytes as an array of their number.
pub fn array_of<const N: usize>(bytes: &[u8]) -> [u8; N]
    requires { length bytes.now ≡ N }
    ensures { result ≡ bytes.now }
{
    let mut all = [0; N];
    all.copy_from_slice(bytes);
    all
}
