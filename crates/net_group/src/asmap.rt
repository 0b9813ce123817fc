//! `asmap_bits`: the 128 bits of an address by which an asmap is searched.

ghost use Rattle.std.specs.Prelude.{◌≡◌, ◌++◌, IsSome};
ghost use Rattle.std.specs.Int.{w128, from_be_bytes};
ghost use Rattle.net_addr.specs.Address.{mapped_prefix};
ghost use Rattle.net_group.specs.Group.{asmap_bits, looked_up};

use net_addr::{Net, NetAddr, array_of};

/// Returns the 128 bits of an address that are looked up in an asmap, the highest bit first. `None`
/// unless the address is reached over IPv4 or IPv6 (`NetGroupManager::GetMappedAS` in netgroup.cpp
/// of Bitcoin Core).
pub fn asmap_bits(addr: &NetAddr) -> Option<u128>
    ensures { result ≡ asmap_bits addr.now }
{
    match addr.net_class() {
        Net::Ipv4 | Net::Ipv6 => Some(looked_up(addr)),
        Net::Unroutable | Net::Onion | Net::I2p | Net::Cjdns | Net::Internal => None,
    }
}

/// Returns the bits of an address that is looked up: those of `::ffff:` and the IPv4 address that
/// it is or carries, else its own.
fn looked_up(addr: &NetAddr) -> u128
    requires { IsSome (asmap_bits addr.now) }
    ensures { result ≡ looked_up addr.now }
{
    match addr.linked_bytes() {
        Some(ipv4) => mapped(ipv4),
        None => u128::from_be_bytes(array_of(addr.bytes())),
    }
}

/// Returns the bits of `::ffff:` and an IPv4 address.
fn mapped(ipv4: [u8; 4]) -> u128
    ensures { result ≡ from_be_bytes w128 (mapped_prefix ++ ipv4) }
{
    let [a, b, c, d] = ipv4;
    u128::from_be_bytes([0, 0, 0, 0, 0, 0, 0, 0, 0, 0, 0xff, 0xff, a, b, c, d])
}
