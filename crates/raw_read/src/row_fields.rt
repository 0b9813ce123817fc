//! The members of one record: address, port, network, time, services and source.

ghost use Rattle.std.specs.Prelude.{◌≡◌, ℕ, IfSome, IfNone, IfOk, IfErr, Some, option_map};
ghost use Rattle.json.specs.Value.{value_view};
ghost use Rattle.net_addr.specs.Address.{Address};
ghost use Rattle.raw_read.specs.Fields.{IsAddressAt, IsNumberAt, IsPlainText, IsRawName, IsRec, Lacks, is_local, text_at};

use crate::Field;
use json::Value;
use names::parse_name;
use net_addr::{NetAddr, Peer, parse_ipv6, parse_number};
use peer_rec::FileRec;

/// Returns the text under a name.
fn text_at<'a>(value: &Value<'a>, name: &str) -> Option<&'a str>
    ensures { option_map (λ text. text.now) result ≡ text_at name.now (value_view value.now) }
{
    value.get(name)?.as_str()
}

/// Returns the number under a name, if it is at most `max`.
fn number_at(value: &Value<'_>, name: &str, max: u64) -> Option<u64>
    ensures found { IfSome result (IsNumberAt name.now max (value_view value.now)) }
    ensures none { IfNone result ((n : ℕ) → ¬ IsNumberAt name.now max (value_view value.now) n) }
{
    let digits = value.get(name)?.as_number()?;
    parse_number(digits.as_bytes(), max)
}

/// Returns `true` if the network of an address says that it is not routable.
fn is_local(network: Option<&str>) -> bool
    ensures { result ≡ is_local (option_map (λ text. text.now) network.entry) }
{
    match network {
        Some(network) => network.as_bytes() == b"not_publicly_routable".as_slice(),
        None => false,
    }
}

/// Parses an IPv6 text.
fn parse_plain(text: &[u8]) -> Option<NetAddr>
    ensures found { IfSome result (IsPlainText text.now) }
    ensures only { (a : Address) → IsPlainText text.now a → result ≡ Some a }
{
    let bits = parse_ipv6(text)?;
    Some(NetAddr::from_v1(&bits.to_be_bytes()))
}

/// Parses the name of an address.
fn parse_raw_name(local: bool, text: &[u8]) -> Option<NetAddr>
    ensures found { IfSome result (IsRawName local text.now) }
    ensures only { (a : Address) → IsRawName local text.now a → result ≡ Some a }
{
    if local {
        match parse_plain(text) {
            Some(addr) => Some(addr),
            None => parse_name(text),
        }
    } else {
        parse_name(text)
    }
}

/// Returns the address under a name, beside its network.
fn address_at(value: &Value<'_>, name: &str, network: &str) -> Option<NetAddr>
    ensures found { IfSome result (IsAddressAt name.now network.now (value_view value.now)) }
    ensures none { IfNone result ((a : Address)
        → ¬ IsAddressAt name.now network.now (value_view value.now) a) }
{
    let text = text_at(value, name)?;
    let local = is_local(text_at(value, network));
    parse_raw_name(local, text.as_bytes())
}

/// Returns what a value says of a record, or the first field that is missing.
pub(crate) fn rec_of(value: &Value<'_>) -> Result<FileRec, Field>
    ensures found { IfOk result (IsRec (value_view value.now)) }
    ensures cause { IfErr result (Lacks (value_view value.now)) }
{
    let Some(addr) = address_at(value, "address", "network") else {
        return Err(Field::Address);
    };
    let Some(port) = number_at(value, "port", 65_535) else {
        return Err(Field::Port);
    };
    let Some(services) = number_at(value, "services", u64::MAX) else {
        return Err(Field::Services);
    };
    let Some(time) = number_at(value, "time", 4_294_967_295) else {
        return Err(Field::Time);
    };
    let Some(source) = address_at(value, "source", "source_network") else {
        return Err(Field::Source);
    };
    let port = port as u16;
    let peer = Peer { addr, port };
    Ok(FileRec {
        peer,
        source,
        time: time as u32,
        services,
        last_success: 0,
        attempts: 0,
    })
}
