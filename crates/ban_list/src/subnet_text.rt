//! Parses and prints subnets as text: `1.2.3.0/24`, or whole addresses with labels.

ghost use Rattle.std.specs.Prelude.{◌≡◌, ◌≢◌, ◌≤◌, Some, None, IfSome, IfNone, length, true, false, ◌++◌, OnOk, OnErr, IfOk};
ghost use Rattle.net_addr.specs.Address.{Address, IsAddress};
ghost use Rattle.net_addr.specs.declared.net.Net.{Net};
ghost use Rattle.net_addr.specs.declared.net.Net.TheVariants.{Ipv6};
ghost use Rattle.ban_list.specs.Subnet.{IsProper, IsMasked, IsWhole, width};
ghost use Rattle.ban_list.specs.SubnetText.{IsIpText, IsMaskedFrom, IsSubnetText, IsWholeOf, IsWholeSubnet, ip_by, length_by, subnet_text};
ghost use Rattle.ban_list.specs.declared.subnet.Subnet.{Subnet};
ghost use Rattle.std.specs.Int.{w128, to_be_bytes};

use crate::subnet::cleared;
use crate::{Memory, Subnet};
use net_addr::{
    Net, NetAddr, around_last, array_of, parse_addr, parse_ipv4, parse_ipv6, parse_number,
    put_addr, put_ipv6, put_number, put_text,
};
use std::alloc::Global;

/// Parses a subnet: an IPv4 address, an IPv6 address without brackets, either of them with a slash
/// and a length in bits, or a whole address of Tor v3, I2P or CJDNS. Bits after the length are
/// cleared.
pub fn parse_subnet(text: &[u8]) -> Option<Subnet>
    ensures found { IfSome result (IsSubnetText text.now) }
    ensures proper { IfSome result IsProper }
    ensures only { (s : Subnet) → IsSubnetText text.now s → result ≡ Some s }
{
    if let Some(subnet) = parse_whole(text) {
        return Some(subnet);
    }
    match around_last(text, b'/') {
        None => {
            let addr = parse_ip(text)?;
            masked(&addr, width(addr.net()))
        }
        Some((ip, digits)) => {
            let addr = parse_ip(ip)?;
            let len = parse_number(digits, width(addr.net()).into())?;
            masked(&addr, len as u16)
        }
    }
}

/// Parses an address of a network without subnets.
fn parse_whole(text: &[u8]) -> Option<Subnet>
    ensures found { IfSome result (IsWholeSubnet text.now) }
    ensures proper { IfSome result IsProper }
    ensures only { (s : Subnet) → IsWholeSubnet text.now s → result ≡ Some s }
{
    whole_of(parse_addr(text)?)
}

/// Returns the subnet of an address that is banned whole, or `None` if its network has subnets.
pub(crate) fn whole_of(addr: NetAddr) -> Option<Subnet>
    requires { IsAddress addr }
    ensures found { IfSome result (IsWholeOf addr) }
    ensures proper { IfSome result IsProper }
    ensures none { IfNone result (IsWhole addr.net → ⊥) }
{
    if !is_whole(addr.net()) {
        return None;
    }
    Some(Subnet {
        addr,
        len: width(addr.net()),
    })
}

/// Parses an IPv4 address, or an IPv6 address without brackets.
fn parse_ip(text: &[u8]) -> Option<NetAddr>
    ensures found { IfSome result (λ a. IsIpText a.net text.now a) }
    ensures address { IfSome result IsAddress }
    ensures only { (net : Net) (a : Address) → IsIpText net text.now a → result ≡ Some a }
{
    if let Some(bits) = parse_ipv4(text) {
        return Some(NetAddr::ipv4(bits.to_be_bytes()));
    }
    let bits = parse_ipv6(text)?;
    let addr = NetAddr::from_v1(&bits.to_be_bytes());
    if is_ipv6(addr.net()) {
        Some(addr)
    } else {
        None
    }
}

/// Returns the subnet of the first `len` bits of an address, or `None` if what is left of an IPv6
/// address is the old form of another address.
fn masked(addr: &NetAddr, len: u16) -> Option<Subnet>
    requires network { IsMasked addr.now.net }
    requires len { len ≤ width addr.now.net }
    ensures found { IfSome result (IsMaskedFrom addr.now len) }
    ensures proper { IfSome result IsProper }
    ensures only { (s : Subnet) → IsMaskedFrom addr.now len s → result ≡ Some s }
{
    let bytes = cleared(addr.bytes(), len);
    let addr = NetAddr::of(addr.net(), bytes.as_slice())?;
    Some(Subnet { addr, len })
}

/// Returns `true` for the network of IPv6 addresses.
fn is_ipv6(net: Net) -> bool
    ensures yes { result ≡ true → net ≡ Ipv6 }
    ensures no { result ≡ false → net ≢ Ipv6 }
{
    matches!(net, Net::Ipv6)
}

/// Returns `true` for the networks whose addresses are banned whole.
pub(crate) fn is_whole(net: Net) -> bool
    ensures yes { result ≡ true → IsWhole net }
    ensures no { result ≡ false → IsWhole net → ⊥ }
{
    matches!(net, Net::Onion | Net::I2p | Net::Cjdns)
}

/// Returns how many bits an address of the network has.
fn width(net: Net) -> u16
    ensures { result ≡ width net }
{
    match net {
        Net::Unroutable => 0,
        Net::Ipv4 => 32,
        Net::Ipv6 | Net::Cjdns => 128,
        Net::Onion | Net::I2p => 256,
        Net::Internal => 80,
    }
}

/// Appends the text of a subnet: an IPv4 or IPv6 address, a slash and the length, or only the
/// address. If memory runs out, `out` is unchanged.
pub fn put_subnet(subnet: &Subnet, out: &mut Vec<u8>) -> Result<(), Memory>
    requires { IsProper subnet.now }
    ensures ok { OnOk result (out.new.items ≡ out.old.items ++ subnet_text subnet.now) }
    ensures err { OnErr result (out.new.items ≡ out.old.items) }
    ensures reads_back { IsSubnetText (subnet_text subnet.now) subnet.now }
{
    let text = text_of(subnet, *out.allocator())?;
    put_text(text.as_slice(), out)?;
    Ok(())
}

/// Returns the text of a subnet.
fn text_of(subnet: &Subnet, alloc: Global) -> Result<Vec<u8>, Memory>
    ensures text { IfOk result (λ text. text.items ≡ subnet_text subnet.now) }
    ensures address { IsAddress subnet.now.addr }
{
    let addr = subnet.addr;
    let len = subnet.len;
    let mut text = Vec::new(alloc);
    put_ip(&addr, &mut text)?;
    put_length(addr.net(), len, &mut text)?;
    Ok(text)
}

/// Appends the text of an address, without brackets for IPv6.
fn put_ip(addr: &NetAddr, out: &mut Vec<u8>) -> Result<(), Memory>
    ensures ok { OnOk result (out.new.items ≡ out.old.items ++ ip_by addr.now.net addr.now.bytes) }
    ensures address { IsAddress addr.now }
{
    let bytes = addr.bytes();
    match addr.net() {
        Net::Ipv6 => put_ipv6(bits_of(&array_of(bytes)), out),
        _ => put_addr(addr, out),
    }
}

/// Appends the length of a subnet, after a slash, in a network where it has one.
fn put_length(net: Net, len: u16, out: &mut Vec<u8>) -> Result<(), Memory>
    ensures { OnOk result (out.new.items ≡ out.old.items ++ length_by net len) }
{
    match net {
        Net::Ipv4 | Net::Ipv6 => put_number(b"/", u64::from(len), out),
        _ => Ok(()),
    }
}

/// Returns the number of sixteen bytes, the first the highest.
fn bits_of(bytes: &[u8; 16]) -> u128
    ensures { to_be_bytes w128 result ≡ bytes.now }
{
    u128::from_be_bytes(*bytes)
}
