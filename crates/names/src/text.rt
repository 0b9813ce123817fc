//! `parse_text` parses what people write: an address as in a log, or a name, with or without a
//! port.

ghost use Rattle.std.specs.Prelude.{◌≡◌, IfSome, Some};
ghost use Rattle.net_addr.specs.Address.{Address, IsAddress};
ghost use Rattle.names.specs.Text.{IsHost, IsHostOfPort, IsTextOf, IsWithPort};

use crate::read::parse_name;
use net_addr::{NetAddr, around_last, parse_addr, parse_number};

/// Parses what people write for an address: an address as the lines of a log have it or a name,
/// with or without a port.
pub fn parse_text(text: &[u8]) -> Option<NetAddr>
    ensures found { IfSome result (IsTextOf text.now) }
    ensures address { IfSome result IsAddress }
    ensures only { (a : Address) → IsTextOf text.now a → result ≡ Some a }
{
    match parse_host(text) {
        Some(addr) => Some(addr),
        None => parse_with_port(text),
    }
}

/// Parses an address without a port.
fn parse_host(text: &[u8]) -> Option<NetAddr>
    ensures found { IfSome result (IsHost text.now) }
    ensures address { IfSome result IsAddress }
    ensures only { (a : Address) → IsHost text.now a → result ≡ Some a }
{
    match parse_addr(text) {
        Some(addr) => Some(addr),
        None => parse_name(text),
    }
}

/// Parses an address, a colon and a port.
fn parse_with_port(text: &[u8]) -> Option<NetAddr>
    ensures found { IfSome result (IsWithPort text.now) }
    ensures address { IfSome result IsAddress }
    ensures only { (a : Address) → IsWithPort text.now a → result ≡ Some a }
{
    let (host, port) = around_last(text, b':')?;
    let _port = parse_number(port, 65535)?;
    parse_host_of_port(host)
}

/// Parses the address before a port.
fn parse_host_of_port(text: &[u8]) -> Option<NetAddr>
    ensures found { IfSome result (IsHostOfPort text.now) }
    ensures address { IfSome result IsAddress }
    ensures only { (a : Address) → IsHostOfPort text.now a → result ≡ Some a }
{
    if let Some(addr) = parse_addr(text) {
        return Some(addr);
    }
    match around_last(text, b':') {
        Some(_) => None,
        None => parse_name(text),
    }
}
