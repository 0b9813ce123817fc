//! Reads an address of an `addrv2` message: the BIP 155 number of its network, its length (at most
//! `MAX_BYTES`, 512) and its bytes.

ghost use Rattle.std.specs.Prelude.{◌≡◌, ◌≢◌, length, IsTrue, IfSome, Some};
ghost use Rattle.wire_num.specs.Readings.{Gives};
ghost use Rattle.net_addr.specs.declared.net.Net.TheVariants.{Unroutable, Ipv6};
ghost use Rattle.addr_codecs.specs.Network.{network_of, is_length, address_of};
ghost use Rattle.addr_codecs.specs.Readings.{length_at, address_at};

use crate::address_fault::AddressFault;
use net_addr::{MAPPED_PREFIX, Net, NetAddr, TORV2_PREFIX};
use wire_num::{take_byte, take_bytes, take_compact};

/// The bytes of an address, at most (`MAX_ADDRV2_SIZE` in netaddress.h of Bitcoin Core).
const MAX_BYTES: u64 = 512;

/// Returns the network that a number of BIP 155 names.
fn network(id: u8) -> Option<Net>
    ensures value { result ≡ network_of id }
    ensures own { IfSome result (λ net. net ≢ Unroutable) }
{
    match id {
        1 => Some(Net::Ipv4),
        2 => Some(Net::Ipv6),
        4 => Some(Net::Onion),
        5 => Some(Net::I2p),
        6 => Some(Net::Cjdns),
        _ => None,
    }
}

/// Returns `true` if addresses of the network have this length. Those of an unknown network may
/// have any length.
fn fits(network: Option<Net>, length: u64) -> bool
    ensures { result ≡ is_length network length }
{
    match network {
        None => true,
        Some(Net::Ipv4) => length == 4,
        Some(Net::Ipv6) | Some(Net::Cjdns) => length == 16,
        Some(Net::Onion) | Some(Net::I2p) => length == 32,
        Some(Net::Internal) => length == 10,
        Some(Net::Unroutable) => length == 0,
    }
}

/// Takes the length of an address of the network.
#[tactic(auto, unfolding(crate::specs::Readings::length_at))]
fn take_length(network: Option<Net>, bytes: &[u8]) -> Result<(usize, &[u8]), AddressFault>
    ensures { Gives (λ x. (x.0, x.1.now)) result (length_at network bytes.now) }
{
    let (length, rest) = take_compact(bytes)?;
    if length > MAX_BYTES {
        return Err(AddressFault::TooLong);
    }
    if !fits(network, length) {
        return Err(AddressFault::BadLength);
    }
    Ok((length as usize, rest))
}

/// Returns the address of sixteen IPv6 bytes, unless they are an IPv4 or a Tor v2 address.
fn ipv6(bytes: &[u8; 16]) -> Option<NetAddr>
    ensures { result ≡ address_of (Some Ipv6) bytes.now }
{
    if bytes.starts_with(&MAPPED_PREFIX) || bytes.starts_with(&TORV2_PREFIX) {
        return None;
    }
    Some(NetAddr::from_v1(bytes))
}

/// Returns the address of the network with these bytes, or `None` if a node has no such address.
fn address(network: Option<Net>, bytes: &[u8]) -> Option<NetAddr>
    requires own { IfSome network (λ net. net ≢ Unroutable) }
    requires length { IsTrue (is_length network (length bytes.now)) }
    ensures { result ≡ address_of network bytes.now }
{
    match network? {
        Net::Ipv6 => ipv6(bytes.try_into().ok()?),
        net => NetAddr::of(net, bytes),
    }
}

/// Takes an address as `addrv2` has it: the number of its network, its length as a CompactSize, and
/// its bytes (`CNetAddr::UnserializeV2Stream` in netaddress.h of Bitcoin Core). It is `None` if the
/// network is unknown, and if the bytes are an IPv4 or a Tor v2 address within IPv6.
#[tactic(auto, unfolding(crate::specs::Readings::address_at))]
pub fn take_address(bytes: &[u8]) -> Result<(Option<NetAddr>, &[u8]), AddressFault>
    ensures { Gives (λ x. (x.0, x.1.now)) result (address_at bytes.now) }
{
    let (id, rest) = take_byte(bytes)?;
    let network = network(id);
    let (length, rest) = take_length(network, rest)?;
    let (part, rest) = take_bytes(rest, length)?;
    Ok((address(network, part), rest))
}
