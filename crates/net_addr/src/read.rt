//! Parses decimal numbers, IPv4, IPv6, addresses with brackets or labels, and peers with their
//! port.

ghost use Rattle.std.specs.Prelude.{◌≡◌, ◌≢◌, ℕ, List, ◌+◌, ◌-◌, ◌*◌, ◌<◌, ◌≤◌, ◌↔◌, length, slice_index, IsTrue, IfSome, IfNone, Some, decimal, ◌∷◌, ◌++◌, All};
ghost use Rattle.std.specs.Bool.{MatchBool};
ghost use Rattle.std.specs.Int.{w128, to_be_bytes, from_be_bytes, IsInRange};
ghost use Rattle.net_addr.specs.Address.{Address, IsAddress};
ghost use Rattle.net_addr.specs.Text.{IsIpv4Text, IsIpv6Text, IsHexOf, IsBracketText, IsAddrText, IsPeerText, label_of};
ghost use Rattle.net_addr.specs.Inside.{HasLabel};
ghost use Rattle.net_addr.specs.declared.net.Net.{Net};
ghost use Rattle.net_addr.specs.declared.net.Net.TheVariants.{Unroutable, Ipv6};
ghost use Rattle.net_addr.specs.declared.peer.Peer.{Peer};

use crate::{Net, NetAddr, Peer};
use std::net::{Ipv4Addr, Ipv6Addr};

/// Parses a decimal number of at most `max`, without a sign or leading zeros.
pub fn parse_number(text: &[u8], max: u64) -> Option<u64>
    ensures found { IfSome result (λ n. (n ≤ max) × (text.now ≡ decimal n)) }
    ensures only { (n : ℕ) → n ≤ max → text.now ≡ decimal n → result ≡ Some n }
{
    if text.is_empty() {
        return None;
    }
    if is_padded(text) {
        return None;
    }
    let mut value = 0;
    for byte in text {
        value = with_digit(value, *byte, max)?;
    }
    Some(value)
}

/// Parses an IPv4 address: four bytes in decimal, the highest first, separated by dots and without
/// leading zeros.
pub fn parse_ipv4(text: &[u8]) -> Option<u32>
    ensures found { IfSome result (λ n. IsIpv4Text text.now n) }
    ensures only { (n : ℕ) → IsIpv4Text text.now n → result ≡ Some n }
{
    match Ipv4Addr::parse_ascii(text) {
        Ok(address) => Some(address.to_bits()),
        Err(_) => None,
    }
}

/// Parses an IPv6 address: groups of hexadecimal digits, without brackets. The first of its sixteen
/// bytes is the highest. A dotted IPv4 address as the last groups is not accepted (so forms 1 and 2
/// of RFC 4291, section 2.2).
pub fn parse_ipv6(text: &[u8]) -> Option<u128>
    ensures found { IfSome result (λ n. IsIpv6Text text.now n) }
    ensures only { (n : ℕ) → IsIpv6Text text.now n → result ≡ Some n }
{
    if has_dot(text) {
        return None;
    }
    match Ipv6Addr::parse_ascii(text) {
        Ok(address) => Some(bits_of(&address.octets())),
        Err(_) => None,
    }
}

/// Parses an address of any network.
pub fn parse_addr(text: &[u8]) -> Option<NetAddr>
    ensures found { IfSome result (λ a. IsAddrText text.now a) }
    ensures address { IfSome result IsAddress }
    ensures only { (a : Address) → IsAddrText text.now a → result ≡ Some a }
{
    if let Some(bits) = parse_ipv4(text) {
        return Some(NetAddr::ipv4(bits.to_be_bytes()));
    }
    if let Some(inner) = text.strip_prefix(b"[") {
        return parse_bracketed(inner);
    }
    let Some((net, digits)) = after_label(text) else {
        return None;
    };
    from_hex(net, digits)
}

/// Parses a peer: an address, a colon, and a port from 0 to 65535.
pub fn parse_peer(text: &[u8]) -> Option<Peer>
    ensures found { IfSome result (λ p. IsPeerText text.now p) }
    ensures address { IfSome result (λ p. IsAddress p.addr) }
    ensures only { (p : Peer) → IsPeerText text.now p → result ≡ Some p }
{
    let (addr, port) = around_last(text, b':')?;
    let addr = parse_addr(addr)?;
    let port = parse_number(port, 65535)?;
    Some(Peer {
        addr,
        port: port as u16,
    })
}

/// Parses the rest of an address after its opening bracket.
fn parse_bracketed(text: &[u8]) -> Option<NetAddr>
    ensures found { IfSome result (λ a. IsBracketText (91 ∷ text.now) a) }
    ensures address { IfSome result IsAddress }
    ensures only { (a : Address) → IsBracketText (91 ∷ text.now) a → result ≡ Some a }
{
    let inner = text.strip_suffix(b"]")?;
    let bits = parse_ipv6(inner)?;
    Some(NetAddr::from_v1(&bits.to_be_bytes()))
}

/// Returns the network whose label the text begins with, and the text after the label, or `None`.
fn after_label(text: &[u8]) -> Option<(Net, &[u8])>
    ensures network { IfSome result (λ found. HasLabel found.0) }
    ensures cut { IfSome result (λ found. text.now ≡ label_of found.0 ++ found.1.now) }
    ensures none { IfNone result ((net : Net) (rest : List ℕ) → HasLabel net
        → text.now ≢ label_of net ++ rest) }
{
    if let Some(digits) = after_label_of(Net::Onion, text) {
        return Some((Net::Onion, digits));
    }
    if let Some(digits) = after_label_of(Net::I2p, text) {
        return Some((Net::I2p, digits));
    }
    if let Some(digits) = after_label_of(Net::Cjdns, text) {
        return Some((Net::Cjdns, digits));
    }
    if let Some(digits) = after_label_of(Net::Internal, text) {
        return Some((Net::Internal, digits));
    }
    None
}

/// Returns the text after the label of a network, or `None` if it does not begin with the label.
fn after_label_of(net: Net, text: &[u8]) -> Option<&[u8]>
    ensures cut { IfSome result (λ rest. text.now ≡ label_of net ++ rest.now) }
    ensures none { IfNone result ((rest : List ℕ) → text.now ≢ label_of net ++ rest) }
{
    let after_name = text.strip_prefix(net.name())?;
    after_name.strip_prefix(b":")
}

/// Parses the bytes of an address of the network from hexadecimal digits.
fn from_hex(net: Net, text: &[u8]) -> Option<NetAddr>
    requires network { (net ≢ Unroutable) × (net ≢ Ipv6) }
    ensures found { IfSome result (λ a. IsHexOf net text.now a) }
    ensures address { IfSome result IsAddress }
    ensures only { (a : Address) → IsHexOf net text.now a → result ≡ Some a }
{
    let mut bytes = [0; 32];
    let bytes = &mut bytes[..net.len()];
    match hex::decode_to_slice(text, bytes) {
        Ok(()) => NetAddr::of(net, bytes),
        Err(_) => None,
    }
}

/// Returns `true` if the text contains a dot.
fn has_dot(text: &[u8]) -> bool
    ensures { MatchBool result
        ((k : ℕ) × (k < length text.now) × (slice_index text.now k ≡ 46))
        (All (λ c. c ≢ 46) text.now) }
{
    text.contains(&b'.')
}

/// Returns the number of sixteen bytes, the first the highest.
fn bits_of(bytes: &[u8; 16]) -> u128
    ensures value { result ≡ from_be_bytes w128 bytes.now }
    ensures bytes { to_be_bytes w128 result ≡ bytes.now }
{
    u128::from_be_bytes(*bytes)
}

/// Returns `true` if the text begins with a zero and has more digits.
fn is_padded(text: &[u8]) -> bool
    ensures { IsTrue result ↔ ((1 < length text.now) × (slice_index text.now 0 ≡ 48)) }
{
    text.len() > 1 && text[0] == b'0'
}

/// Returns the number with one more decimal digit, if the byte is a digit and the number is at most
/// `max`.
fn with_digit(value: u64, byte: u8, max: u64) -> Option<u64>
    requires { value ≤ max }
    ensures found { IfSome result (λ n.
        (IsInRange 48 57 byte) × (n ≡ value * 10 + (byte - 48)) × (n ≤ max)) }
    ensures none { IfNone result (IsInRange 48 57 byte → max < value * 10 + (byte - 48)) }
{
    if !byte.is_ascii_digit() {
        return None;
    }
    let next = value.checked_mul(10)?.checked_add(u64::from(byte - b'0'))?;
    if next <= max { Some(next) } else { None }
}

/// Splits the text around its last `byte`, or returns `None` if it has no such byte.
pub fn around_last(text: &[u8], byte: u8) -> Option<(&[u8], &[u8])>
    ensures cut { IfSome result (λ parts. text.now ≡ parts.0.now ++ byte ∷ parts.1.now) }
    ensures last { IfSome result (λ parts. All (λ c. c ≢ byte) parts.1.now) }
    ensures none { IfNone result (All (λ c. c ≢ byte) text.now) }
{
    for i in (0..text.len()).rev() {
        if text[i] == byte {
            return Some((&text[..i], &text[i + 1..]));
        }
    }
    None
}
