//! `name_of`: a group as people write it, which is an AS, a prefix, or the first letters.

ghost use Rattle.std.specs.Prelude.{◌≡◌, ◌<◌, ◌≤◌, ◌++◌, [], length, take, codes, decimal, slice_index, unwrap_or, IfOk, OnOk};
ghost use Rattle.std.specs.Int.{from_be_bytes};
ghost use Rattle.hex.specs.Hex.{encode_lower};
ghost use Rattle.net_addr.specs.Ranges.{linked_ipv4, net_class};
ghost use Rattle.net_addr.specs.declared.net.Net.TheVariants.{Ipv4};
ghost use Rattle.table_groups.specs.Names.{ipv4_name, ipv6_name, letter, letters_text, name_by, name_of, name_with, prefix_text};
ghost use Rattle.net_addr.specs.Address.{Address, IsAddress};
ghost use Rattle.placing.specs.Places.{Places};
ghost use Rattle.table_groups.specs.Plain.{IsPlain};

use crate::Memory;
use net_addr::{Net, NetAddr, array_of, put_hex, put_ipv6, put_number, put_text};
use placing::Placer;
use std::alloc::Global;

/// Returns how people write the group of an address: the AS that announces it if the asmap gives
/// one, else the prefix, or what the texts of the group's addresses begin with.
#[tactic(auto, unfolding(crate::specs::Names::name_of))]
pub fn name_of(alloc: Global, placer: &Placer<'_>, addr: &NetAddr) -> Result<Vec<u8>, Memory>
    ensures { IfOk result (λ name. name.items ≡ name_of placer.now addr.now) }
{
    let mut name = Vec::new(alloc);
    put_name(addr, placer.asn(addr), &mut name)?;
    Ok(name)
}

/// Appends the name of the group of an address in the autonomous system `number`, 0 if that is not
/// known.
fn put_name(addr: &NetAddr, number: u32, out: &mut Vec<u8>) -> Result<(), Memory>
    ensures { OnOk result (out.new.items ≡ out.old.items ++ name_with addr.now number) }
{
    if number == 0 {
        return put_by_class(addr, addr.net_class(), out);
    }
    put_numbered(b"AS", number, b"", out)
}

/// Appends the name of the group of an address of this class.
fn put_by_class(addr: &NetAddr, class: Net, out: &mut Vec<u8>) -> Result<(), Memory>
    requires { class ≡ net_class addr.now }
    ensures { OnOk result (out.new.items ≡ out.old.items ++ name_by class addr.now) }
{
    match class {
        Net::Unroutable => Ok(put_text(b"not routable", out)?),
        Net::Ipv4 => put_linked(addr, out),
        Net::Ipv6 => put_ipv6_prefix(addr.bytes(), addr, out),
        Net::Onion => put_letters(b"Tor v3 ", addr.bytes(), out),
        Net::I2p => put_letters(b"I2P ", addr.bytes(), out),
        Net::Cjdns => put_prefix(addr.bytes(), 1 << 116, 12, out),
        Net::Internal => put_internal(addr.bytes(), out),
    }
}

/// Appends the prefix of the IPv4 address that the address is or carries.
fn put_linked(addr: &NetAddr, out: &mut Vec<u8>) -> Result<(), Memory>
    requires { net_class addr.now ≡ Ipv4 }
    ensures { OnOk result (out.new.items
        ≡ out.old.items ++ ipv4_name (unwrap_or (linked_ipv4 addr.now) [])) }
{
    if let Some(ipv4) = addr.linked_bytes() {
        let [first, second, _, _] = ipv4;
        return put_ipv4_name(first, second, out);
    }
    put_ipv4_name(0, 0, out)
}

/// Appends the prefix of the IPv4 addresses that begin with two bytes.
fn put_ipv4_name(first: u8, second: u8, out: &mut Vec<u8>) -> Result<(), Memory>
    ensures { OnOk result (out.new.items ≡ out.old.items
        ++ (decimal first ++ (codes "." ++ (decimal second ++ codes ".0.0/16")))) }
{
    put_numbered(b"", u32::from(first), b".", out)?;
    put_numbered(b"", u32::from(second), b".0.0/16", out)?;
    Ok(())
}

/// Appends the prefix of an IPv6 address with these bytes: 36 bits in Hurricane Electric's
/// 2001:470::/32, else 32.
fn put_ipv6_prefix(bytes: &[u8], addr: &NetAddr, out: &mut Vec<u8>) -> Result<(), Memory>
    requires bytes { bytes.now ≡ addr.now.bytes }
    requires sixteen { length bytes.now ≡ 16 }
    ensures { OnOk result (out.new.items ≡ out.old.items ++ ipv6_name addr.now) }
{
    if addr.is_in_range(&[0x20, 0x01, 0x04, 0x70], 32) {
        put_prefix(bytes, 1 << 92, 36, out)
    } else {
        put_prefix(bytes, 1 << 96, 32, out)
    }
}

/// Appends the prefix of `width` bits that sixteen bytes are in; there are `size` addresses in it.
fn put_prefix(bytes: &[u8], size: u128, width: u32, out: &mut Vec<u8>) -> Result<(), Memory>
    requires bytes { length bytes.now ≡ 16 }
    requires some { 0 < size }
    ensures { OnOk result (out.new.items ≡ out.old.items ++ prefix_text bytes.now size width) }
{
    let bits = u128::from_be_bytes(array_of(bytes));
    put_ipv6(bits / size * size, out)?;
    put_number(b"/", u64::from(width), out)?;
    Ok(())
}

/// Appends a label and the letters that the texts of addresses with these bytes begin with.
fn put_letters(label: &[u8], bytes: &[u8], out: &mut Vec<u8>) -> Result<(), Memory>
    requires { 0 < length bytes.now }
    ensures { OnOk result (out.new.items ≡ out.old.items
        ++ (label.now ++ letters_text (slice_index bytes.now 0))) }
{
    let first = bytes[0] / 16 * 2;
    put_text(label, out)?;
    put_text(
        &[letter(first), b' ', b'o', b'r', b' ', letter(first + 1)],
        out,
    )?;
    Ok(())
}

/// Returns a digit in base 32.
fn letter(digit: u8) -> u8
    requires { digit < 32 }
    ensures { result ≡ letter digit }
{
    if digit < 26 { b'a' + digit } else { 24 + digit }
}

/// Appends the first four bytes of an internal name.
fn put_internal(bytes: &[u8], out: &mut Vec<u8>) -> Result<(), Memory>
    requires { 4 ≤ length bytes.now }
    ensures { OnOk result (out.new.items ≡ out.old.items
        ++ (codes "internal " ++ (encode_lower (take 4 bytes.now) ++ codes ".."))) }
{
    put_hex(b"internal ", &bytes[..4], out)?;
    put_text(b"..", out)?;
    Ok(())
}

/// Appends a text, a number in decimal, and a text.
pub fn put_numbered(
    before: &[u8],
    number: u32,
    after: &[u8],
    out: &mut Vec<u8>,
) -> Result<(), Memory>
    ensures { OnOk result (out.new.items ≡ out.old.items
        ++ (before.now ++ (decimal number ++ after.now))) }
{
    put_number(before, u64::from(number), out)?;
    put_text(after, out)?;
    Ok(())
}

/// The name of a group has nothing in it that has to be escaped.
pub fn names_are_plain()
    ensures { (places : Places) (a : Address) → IsAddress a → IsPlain (name_of places a) }
{}
