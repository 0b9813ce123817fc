//! `group` (`GetGroup` of Bitcoin Core): /16, /32, Hurricane Electric's /36, the linked IPv4
//! address, or the AS number; and `MAX_GROUP`.

ghost use Rattle.std.specs.Prelude.{◌≡◌, ◌+◌, ◌*◌, ◌≤◌, [], ◌∷◌, ◌++◌, length, take, unwrap_or, if◌then◌else◌};
ghost use Rattle.arrayvec.specs.ArrayVec.{array_vec_len};
ghost use Rattle.net_group.specs.Group.{group_of, part_by, prefix_bytes, he_net};
ghost use Rattle.net_addr.specs.Address.{net_number};
ghost use Rattle.net_addr.specs.Ranges.{in_range, linked_by, net_class};

use arrayvec::ArrayVec;
use net_addr::{Net, NetAddr, append};

/// Bytes of a group, at most.
pub const MAX_GROUP: usize = 11;

/// Returns the network group of an address in the autonomous system `asn`, 0 if that is not known
/// (`NetGroupManager::GetGroup` in netgroup.cpp of Bitcoin Core).
pub fn group(addr: &NetAddr, asn: u32) -> ArrayVec<u8, MAX_GROUP>
    ensures { result.items ≡ group_of addr.now asn }
{
    if asn == 0 {
        return group_by_class(addr, addr.net_class());
    }
    let mut group = ArrayVec::new();
    group.push(Net::Ipv6.number());
    append(&mut group, &asn.to_le_bytes());
    group
}

/// Returns the number of the class, and the part of the address that its class groups by.
fn group_by_class(addr: &NetAddr, class: Net) -> ArrayVec<u8, MAX_GROUP>
    requires { class ≡ net_class addr.now }
    ensures { result.items ≡ net_number class ∷ part_by class addr.now }
{
    let mut group = ArrayVec::new();
    group.push(class.number());
    match class {
        Net::Unroutable => {}
        Net::Ipv4 => append_linked(&mut group, addr),
        Net::Ipv6 => append_bits(&mut group, addr.bytes(), ipv6_bits(addr)),
        Net::Onion | Net::I2p => append_bits(&mut group, addr.bytes(), 4),
        Net::Cjdns => append_bits(&mut group, addr.bytes(), 12),
        Net::Internal => append(&mut group, addr.bytes()),
    }
    group
}

/// Returns the number of bits that an IPv6 address is grouped by: 36 in Hurricane Electric's
/// 2001:470::/32, else 32.
fn ipv6_bits(addr: &NetAddr) -> usize
    requires { length addr.now.bytes ≡ 16 }
    ensures { result ≡ (if in_range he_net addr.now.bytes then 36 else 32) }
{
    if addr.is_in_range(&[0x20, 0x01, 0x04, 0x70], 32) {
        36
    } else {
        32
    }
}

/// Appends the first two bytes of the IPv4 address that the address is or carries.
fn append_linked(group: &mut ArrayVec<u8, MAX_GROUP>, addr: &NetAddr)
    requires { array_vec_len group.old ≤ 1 }
    ensures { group.new.items
        ≡ group.old.items ++ take 2 (unwrap_or (linked_by addr.now.net addr.now.bytes) []) }
{
    if let Some(ipv4) = addr.linked_bytes() {
        let [first, second, _, _] = ipv4;
        group.push(first);
        group.push(second);
    }
}

/// Appends the first bits of the bytes, and ones after them up to a whole byte.
fn append_bits(group: &mut ArrayVec<u8, MAX_GROUP>, bytes: &[u8], bits: usize)
    requires enough { bits ≤ 8 * length bytes.now }
    requires room { 8 * array_vec_len group.old + bits ≤ 80 }
    ensures { group.new.items ≡ group.old.items ++ prefix_bytes bits bytes.now }
{
    let whole = bits / 8;
    let rest = bits % 8;
    append(group, &bytes[..whole]);
    if rest != 0 {
        group.push(bytes[whole] | (0xff >> rest));
    }
}
