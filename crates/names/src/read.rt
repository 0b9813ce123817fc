//! `parse_name` parses a name by its suffix, in either case, or an IP address (CJDNS included).

ghost use Rattle.std.specs.Prelude.{◌≡◌, ◌≢◌, ℕ, List, ◌++◌, map, codes, IfSome, IfNone, Some};
ghost use Rattle.std.specs.Char.{to_ascii_lowercase};
ghost use Rattle.net_addr.specs.Address.{Address, IsAddress};
ghost use Rattle.net_addr.specs.declared.net.Net.{Net};
ghost use Rattle.net_addr.specs.declared.peer.Peer.{Peer};
ghost use Rattle.names.specs.Name.{IsColonText, IsLettered, IsSuffix, IsName, flipped};

use crate::name::from_letters;
use net_addr::{Net, NetAddr, parse_ipv4, parse_ipv6};

/// Returns an IPv6 address of fc00::/8 as one of CJDNS, and any other address as it is.
fn flipped(addr: NetAddr) -> NetAddr
    requires { IsAddress addr }
    ensures value { result ≡ flipped addr }
    ensures address { IsAddress result }
{
    if addr.net() != Net::Ipv6 || addr.bytes()[0] != 0xfc {
        return addr;
    }
    match NetAddr::of(Net::Cjdns, addr.bytes()) {
        Some(cjdns) => cjdns,
        None => addr,
    }
}

/// Parses an IPv6 text without brackets.
fn parse_colons(text: &[u8]) -> Option<NetAddr>
    ensures found { IfSome result (IsColonText text.now) }
    ensures address { IfSome result IsAddress }
    ensures only { (a : Address) → IsColonText text.now a → result ≡ Some a }
{
    let bits = parse_ipv6(text)?;
    Some(flipped(NetAddr::from_v1(&bits.to_be_bytes())))
}

/// Returns the text before the suffix of I2P in either case, or `None`.
fn before_i2p(text: &[u8]) -> Option<&[u8]>
    ensures cut { IfSome result (λ stem. (end : List ℕ) × (text.now ≡ stem.now ++ end)
        × (map to_ascii_lowercase end ≡ codes ".b32.i2p")) }
    ensures none { IfNone result ((stem : List ℕ) → (end : List ℕ) → text.now ≡ stem ++ end
        → map to_ascii_lowercase end ≢ codes ".b32.i2p") }
{
    if text.len() < 8 {
        return None;
    }
    let (stem, end) = text.split_at(text.len() - 8);
    if end.eq_ignore_ascii_case(b".b32.i2p") {
        Some(stem)
    } else {
        None
    }
}

/// Returns the network whose suffix the text has, and the text before the suffix, or `None`.
fn before_suffix(text: &[u8]) -> Option<(Net, &[u8])>
    ensures network { IfSome result (λ found. IsLettered found.0) }
    ensures cut { IfSome result (λ found. (end : List ℕ) × (text.now ≡ found.1.now ++ end)
        × IsSuffix found.0 end) }
    ensures none { IfNone result ((net : Net) → (stem : List ℕ) → (end : List ℕ)
        → IsLettered net → text.now ≡ stem ++ end → ¬ (IsSuffix net end)) }
{
    if let Some(stem) = text.strip_suffix(b".onion") {
        return Some((Net::Onion, stem));
    }
    if let Some(stem) = text.strip_suffix(b".internal") {
        return Some((Net::Internal, stem));
    }
    match before_i2p(text) {
        Some(stem) => Some((Net::I2p, stem)),
        None => None,
    }
}

/// Parses the name of an address of any network. An IPv6 address of fc00::/8 is one of CJDNS.
pub fn parse_name(text: &[u8]) -> Option<NetAddr>
    ensures found { IfSome result (IsName text.now) }
    ensures address { IfSome result IsAddress }
    ensures only { (a : Address) → IsName text.now a → result ≡ Some a }
{
    if let Some((net, stem)) = before_suffix(text) {
        return from_letters(net, stem);
    }
    if let Some(bits) = parse_ipv4(text) {
        return Some(NetAddr::ipv4(bits.to_be_bytes()));
    }
    parse_colons(text)
}
