//! Subnets with `.onion` and `.b32.i2p` names, by the rule of a list.

ghost use Rattle.std.specs.Prelude.{◌≡◌, ◌++◌, Some, IfOk, IfSome, OnOk, OnErr, string_bytes};
ghost use Rattle.ban_list.specs.Subnet.{IsProper};
ghost use Rattle.ban_list.specs.SubnetText.{IsNamedSubnet, IsNamedText, IsSubnetTextBy, subnet_name, subnet_text_by};
ghost use Rattle.ban_list.specs.declared.ban.BanRule.TheVariants.{Names};
ghost use Rattle.ban_list.specs.declared.subnet.Subnet.{Subnet};

use crate::subnet_text::{is_whole, whole_of};
use crate::{BanRule, Memory, Subnet, parse_subnet, put_subnet};
use itoa::Buffer;
use names::{name_of, parse_name};
use net_addr::{Net, put_text};
use std::alloc::{AllocError, Global};

/// Parses a subnet by the rule of a list: as `parse_subnet` does, or with the names of addresses of
/// Tor v3, I2P and CJDNS in the place of their labels. There an IPv6 text of fc00::/8 without a
/// length is an address of CJDNS.
pub fn parse_subnet_by(rule: BanRule, text: &[u8]) -> Option<Subnet>
    ensures found { IfSome result (IsSubnetTextBy rule text.now) }
    ensures proper { IfSome result IsProper }
    ensures only { (s : Subnet) → IsSubnetTextBy rule text.now s → result ≡ Some s }
{
    match rule {
        BanRule::Labels => parse_subnet(text),
        BanRule::Names => parse_by_name(text),
    }
}

/// Parses a name, or else an IPv4 or IPv6 address with or without a length.
fn parse_by_name(text: &[u8]) -> Option<Subnet>
    ensures found { IfSome result (IsNamedText text.now) }
    ensures proper { IfSome result IsProper }
    ensures only { (s : Subnet) → IsNamedText text.now s → result ≡ Some s }
{
    if let Some(subnet) = parse_named(text) {
        return Some(subnet);
    }
    let subnet = parse_subnet(text)?;
    if is_whole(subnet.addr.net()) {
        return None;
    }
    Some(subnet)
}

/// Parses the name of an address of Tor v3, I2P or CJDNS.
fn parse_named(text: &[u8]) -> Option<Subnet>
    ensures found { IfSome result (IsNamedSubnet text.now) }
    ensures proper { IfSome result IsProper }
    ensures only { (s : Subnet) → IsNamedSubnet text.now s → result ≡ Some s }
{
    whole_of(parse_name(text)?)
}

/// Returns the name of a subnet, as Bitcoin Core prints it.
pub fn subnet_name(alloc: Global, subnet: &Subnet) -> Result<String, AllocError>
    ensures { IfOk result (λ text. string_bytes text ≡ subnet_name subnet.now) }
{
    let len = subnet.len;
    let mut text = name_of(alloc, &subnet.addr)?;
    match subnet.addr.net() {
        Net::Ipv4 | Net::Ipv6 => {
            text.push_str("/")?;
            text.push_str(Buffer::new().format(len))?;
            Ok(text)
        }
        _ => Ok(text),
    }
}

/// Appends the text of a subnet by the rule of a list. If memory runs out, `out` is unchanged.
pub fn put_subnet_by(rule: BanRule, subnet: &Subnet, out: &mut Vec<u8>) -> Result<(), Memory>
    requires { IsProper subnet.now }
    ensures ok { OnOk result (out.new.items ≡ out.old.items ++ subnet_text_by rule subnet.now) }
    ensures err { OnErr result (out.new.items ≡ out.old.items) }
{
    match rule {
        BanRule::Labels => put_subnet(subnet, out),
        BanRule::Names => put_name(subnet, out),
    }
}

/// Appends the name of a subnet. If memory runs out, `out` is unchanged.
fn put_name(subnet: &Subnet, out: &mut Vec<u8>) -> Result<(), Memory>
    ensures ok { OnOk result (out.new.items ≡ out.old.items ++ subnet_text_by Names subnet.now) }
    ensures err { OnErr result (out.new.items ≡ out.old.items) }
{
    let text = subnet_name(*out.allocator(), subnet)?;
    put_text(text.as_bytes(), out)?;
    Ok(())
}
