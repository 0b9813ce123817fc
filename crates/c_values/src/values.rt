//! `AddrmanAddr` and `AddrmanPeer`, and networks as bits.

ghost use Rattle.std.specs.Prelude.{◌≡◌, ◌%◌, Some};
ghost use Rattle.net_addr.specs.NetBits.{nets_of};
ghost use Rattle.c_values.specs.Values.{network_of, class_of, address_by, address_in, peer_in, with_bit, bit};

use crate::output::put_start;
use net_addr::{Net, NetAddr, NetSet, Peer};

/// An address: its bytes, of which the first `length` count, and the number of its network.
#[repr(C)]
#[derive(Clone, Copy)]
pub struct AddrmanAddr {
    pub bytes: [u8; 32],
    pub network: u8,
    pub length: u8,
}

/// An address and a port.
#[repr(C)]
#[derive(Clone, Copy)]
pub struct AddrmanPeer {
    pub addr: AddrmanAddr,
    pub port: u16,
}

/// Returns the network of a number, if addresses have it.
fn network_of(number: u8) -> Option<Net>
    ensures { result ≡ network_of number }
{
    match number {
        1 => Some(Net::Ipv4),
        2 => Some(Net::Ipv6),
        3 => Some(Net::Onion),
        4 => Some(Net::I2p),
        5 => Some(Net::Cjdns),
        6 => Some(Net::Internal),
        _ => None,
    }
}

/// Returns the network of a number, which may be `Unroutable`.
pub fn read_class(number: u8) -> Option<Net>
    ensures { result ≡ class_of number }
{
    if number == 0 {
        return Some(Net::Unroutable);
    }
    network_of(number)
}

/// Returns the address of a network with these bytes, or `None` if they are no address.
fn address_by(net: Option<Net>, bytes: &[u8]) -> Option<NetAddr>
    ensures { result ≡ address_by net bytes.now }
{
    NetAddr::of(net?, bytes)
}

/// Reads an address, or `None` if these bytes are not one.
pub fn read_addr(addr: &AddrmanAddr) -> Option<NetAddr>
    ensures { result ≡ address_in addr.now }
{
    if addr.length > 32 {
        return None;
    }
    address_by(
        network_of(addr.network),
        &addr.bytes[..usize::from(addr.length)],
    )
}

/// Reads a peer, or `None` if its address is not valid.
pub fn read_peer(peer: &AddrmanPeer) -> Option<Peer>
    ensures { result ≡ peer_in peer.now }
{
    let addr = read_addr(&peer.addr)?;
    Some(Peer {
        addr,
        port: peer.port,
    })
}

/// Writes an address as C sees it. It reads as the same address.
pub fn write_addr(addr: &NetAddr) -> AddrmanAddr
    ensures { address_in result ≡ Some addr.now }
{
    let from = addr.bytes();
    let mut bytes = [0; 32];
    put_start(&mut bytes, from);
    AddrmanAddr {
        bytes,
        network: addr.net().number(),
        length: from.len() as u8,
    }
}

/// Writes a peer as C sees it. It reads as the same peer.
pub fn write_peer(peer: &Peer) -> AddrmanPeer
    ensures { peer_in result ≡ Some peer.now }
{
    AddrmanPeer {
        addr: write_addr(&peer.addr),
        port: peer.port,
    }
}

/// Returns the networks of a set: bit n says whether the network of number n is in it. Other bits
/// do not count.
pub fn read_nets(bits: u32) -> NetSet
    ensures { result ≡ nets_of (bits % 128) }
{
    let bits = (bits % 128) as u8;
    let nets = with_bit(NetSet::none(), bits, Net::Unroutable);
    let nets = with_bit(nets, bits, Net::Ipv4);
    let nets = with_bit(nets, bits, Net::Ipv6);
    let nets = with_bit(nets, bits, Net::Onion);
    let nets = with_bit(nets, bits, Net::I2p);
    let nets = with_bit(nets, bits, Net::Cjdns);
    with_bit(nets, bits, Net::Internal)
}

/// Returns the set with one more network, if its bit is set.
fn with_bit(nets: NetSet, bits: u8, net: Net) -> NetSet
    ensures { result ≡ with_bit bits nets net }
{
    if bits >> net.number() & 1 == 1 {
        nets.with(net)
    } else {
        nets
    }
}

/// Returns 1 for `true` and 0 for `false`.
pub fn bit(answer: bool) -> u32
    ensures { result ≡ bit answer }
{
    if answer { 1 } else { 0 }
}
