//! `Subnet`, an address and a length in bits: `covers`, and the bits that are cleared.

ghost use Rattle.std.specs.Prelude.{◌≡◌, ◌<◌, ◌≤◌, length};
ghost use Rattle.ban_list.specs.Subnet.{clear, kept};

use arrayvec::ArrayVec;
use net_addr::NetAddr;

/// The addresses of a network whose first bits are those of `addr` (`CSubNet` in netaddress.h of
/// Bitcoin Core).
#[derive(Clone, Copy, Debug, PartialEq, Eq, Hash)]
pub struct Subnet {
    /// An address whose bits after the first `len` are zero.
    pub addr: NetAddr,
    /// How many bits the addresses share: at most 32 for IPv4 and 128 for IPv6. The other networks
    /// have no subnets, so there it is the whole length of an address.
    pub len: u16,
}

impl Subnet {
    ghost use Rattle.std.specs.Prelude.{◌≡◌};
    ghost use Rattle.ban_list.specs.Subnet.{covers};

    /// Returns `true` if the address is of the subnet's network and has its first bits
    /// (`CSubNet::Match` in netaddress.cpp of Bitcoin Core).
    pub fn covers(&self, addr: &NetAddr) -> bool
        ensures { result ≡ covers self.now addr.now }
    {
        let base = self.addr.bytes();
        let bytes = addr.bytes();
        let len = usize::from(self.len).min(8 * base.len());
        self.addr.net().number() == addr.net().number() && addr.is_in_range(base, len)
    }
}

/// Returns the bytes with only their first `len` bits.
pub(crate) fn cleared(bytes: &[u8], len: u16) -> ArrayVec<u8, 16>
    requires { length bytes.now ≤ 16 }
    ensures { result.items ≡ clear len bytes.now }
{
    let mut masked = ArrayVec::new();
    let mut left = len;
    for byte in bytes {
        masked.push(first_bits(*byte, left));
        left = left.saturating_sub(8);
    }
    masked
}

/// Returns a byte with only its first `len` bits, the highest.
fn first_bits(byte: u8, len: u16) -> u8
    ensures { result ≡ kept len byte }
{
    let past = 8_u16.saturating_sub(len);
    (u16::from(byte) >> past << past) as u8
}
