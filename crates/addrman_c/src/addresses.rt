//! The exports on addresses: `addrman_addr_parse`, `addrman_peer_text`, `addrman_name_text`,
//! `addrman_addr_class` and others.

ghost use Rattle.std.specs.Prelude.{◌≡◌, ◌≢◌, Some};
ghost use Rattle.net_addr.specs.Address.{Address};
ghost use Rattle.net_addr.specs.Text.{IsAddrText, IsPeerText, addr_text, peer_text};
ghost use Rattle.net_addr.specs.declared.peer.Peer.{Peer};
ghost use Rattle.c_values.specs.Values.{address_in, peer_in};
ghost use Rattle.names.specs.Name.{IsName, name_text};
ghost use Rattle.addrman_c.specs.Texts.{TextCall, ClassCall, RoutableCall, OldFormCall};
ghost use Rattle.net_addr.specs.OldForm.{from_v1};

use c_values::code::{ARGUMENT, NONE, OK, SHORT_BUFFER};
use c_values::{
    AddrmanAddr, AddrmanPeer, bit, put_all, read_addr, read_peer, write_addr, write_peer,
};
use names::{name_text, parse_name};
use net_addr::{NetAddr, Peer, addr_text, parse_addr, parse_peer, peer_text};

/// Parses the text of an address.
#[unsafe(no_mangle)]
pub extern "C" fn addrman_addr_parse(text: &[u8], out: &mut AddrmanAddr) -> u32
    ensures ok { (addr : Address) → IsAddrText text.now addr
        → (result ≡ OK) × (address_in out.new ≡ Some addr) }
    ensures none { ((addr : Address) → IsAddrText text.now addr → ⊥) → result ≡ ARGUMENT }
    ensures same { result ≢ OK → out.new ≡ out.old }
{
    match parse_addr(text) {
        Some(addr) => {
            *out = write_addr(&addr);
            OK
        }
        None => ARGUMENT,
    }
}

/// Parses the text of a peer.
#[unsafe(no_mangle)]
pub extern "C" fn addrman_peer_parse(text: &[u8], out: &mut AddrmanPeer) -> u32
    ensures ok { (peer : Peer) → IsPeerText text.now peer
        → (result ≡ OK) × (peer_in out.new ≡ Some peer) }
    ensures none { ((peer : Peer) → IsPeerText text.now peer → ⊥) → result ≡ ARGUMENT }
    ensures same { result ≢ OK → out.new ≡ out.old }
{
    match parse_peer(text) {
        Some(peer) => {
            *out = write_peer(&peer);
            OK
        }
        None => ARGUMENT,
    }
}

/// Writes the text of an address, whole or not at all, and its length.
fn put_addr_text(addr: Option<NetAddr>, out: &mut [u8], length: &mut usize) -> u32
    ensures call { TextCall addr_text addr result out.old out.new length.new }
    ensures length { result ≢ OK → result ≢ SHORT_BUFFER → length.new ≡ length.old }
{
    match addr {
        Some(addr) => put_all(out, addr_text(&addr).as_slice(), length),
        None => ARGUMENT,
    }
}

/// Writes the text of a peer, whole or not at all, and its length.
fn put_peer_text(peer: Option<Peer>, out: &mut [u8], length: &mut usize) -> u32
    ensures call { TextCall peer_text peer result out.old out.new length.new }
    ensures length { result ≢ OK → result ≢ SHORT_BUFFER → length.new ≡ length.old }
{
    match peer {
        Some(peer) => put_all(out, peer_text(&peer).as_slice(), length),
        None => ARGUMENT,
    }
}

/// Writes the text of an address, and its length.
#[unsafe(no_mangle)]
pub extern "C" fn addrman_addr_text(addr: &AddrmanAddr, out: &mut [u8], length: &mut usize) -> u32
    ensures call { TextCall addr_text (address_in addr.now) result out.old out.new length.new }
    ensures length { result ≢ OK → result ≢ SHORT_BUFFER → length.new ≡ length.old }
{
    put_addr_text(read_addr(addr), out, length)
}

/// Writes the text of a peer, and its length.
#[unsafe(no_mangle)]
pub extern "C" fn addrman_peer_text(peer: &AddrmanPeer, out: &mut [u8], length: &mut usize) -> u32
    ensures call { TextCall peer_text (peer_in peer.now) result out.old out.new length.new }
    ensures length { result ≢ OK → result ≢ SHORT_BUFFER → length.new ≡ length.old }
{
    put_peer_text(read_peer(peer), out, length)
}

/// Parses the name of an address as people write it.
#[unsafe(no_mangle)]
pub extern "C" fn addrman_name_parse(text: &[u8], out: &mut AddrmanAddr) -> u32
    ensures ok { (addr : Address) → IsName text.now addr
        → (result ≡ OK) × (address_in out.new ≡ Some addr) }
    ensures none { ((addr : Address) → IsName text.now addr → ⊥) → result ≡ ARGUMENT }
    ensures same { result ≢ OK → out.new ≡ out.old }
{
    match parse_name(text) {
        Some(addr) => {
            *out = write_addr(&addr);
            OK
        }
        None => ARGUMENT,
    }
}

/// Writes the name of an address, whole or not at all, and its length.
fn put_name(addr: Option<NetAddr>, out: &mut [u8], length: &mut usize) -> u32
    ensures call { TextCall name_text addr result out.old out.new length.new }
    ensures length { result ≢ OK → result ≢ SHORT_BUFFER → length.new ≡ length.old }
{
    match addr {
        Some(addr) => put_all(out, name_text(&addr).as_slice(), length),
        None => ARGUMENT,
    }
}

/// Writes the name of an address as people write it, and its length.
#[unsafe(no_mangle)]
pub extern "C" fn addrman_name_text(addr: &AddrmanAddr, out: &mut [u8], length: &mut usize) -> u32
    ensures call { TextCall name_text (address_in addr.now) result out.old out.new length.new }
    ensures length { result ≢ OK → result ≢ SHORT_BUFFER → length.new ≡ length.old }
{
    put_name(read_addr(addr), out, length)
}

/// Reads an address of sixteen bytes, as messages before BIP 155 have it.
#[unsafe(no_mangle)]
pub extern "C" fn addrman_addr_from_v1(bytes: &[u8; 16], out: &mut AddrmanAddr)
    ensures { address_in out.new ≡ Some (from_v1 bytes.now) }
{
    *out = write_addr(&NetAddr::from_v1(bytes));
}

/// Writes the sixteen bytes of an address, if it has some.
fn put_v1(addr: Option<NetAddr>, out: &mut [u8; 16]) -> u32
    ensures { OldFormCall addr result out.old out.new }
{
    let Some(addr) = addr else {
        return ARGUMENT;
    };
    match addr.v1_bytes() {
        Some(bytes) => {
            *out = bytes;
            OK
        }
        None => NONE,
    }
}

/// Writes the sixteen bytes of an address that messages before BIP 155 have, if it has some.
#[unsafe(no_mangle)]
pub extern "C" fn addrman_addr_to_v1(addr: &AddrmanAddr, out: &mut [u8; 16]) -> u32
    ensures { OldFormCall (address_in addr.now) result out.old out.new }
{
    put_v1(read_addr(addr), out)
}

/// Tells the network that an address is reached through.
fn put_class(addr: Option<NetAddr>, class: &mut u32) -> u32
    ensures call { ClassCall addr result class.new }
    ensures same { result ≢ OK → class.new ≡ class.old }
{
    let Some(addr) = addr else {
        return ARGUMENT;
    };
    *class = u32::from(addr.net_class().number());
    OK
}

/// Tells the network that an address is reached through: that of the IPv4 address that an IPv6
/// address embeds, for example, and that of number 0 if it is not routable. Names of internal
/// addresses have their own.
#[unsafe(no_mangle)]
pub extern "C" fn addrman_addr_class(addr: &AddrmanAddr, class: &mut u32) -> u32
    ensures call { ClassCall (address_in addr.now) result class.new }
    ensures same { result ≢ OK → class.new ≡ class.old }
{
    put_class(read_addr(addr), class)
}

/// Tells whether an address is routable.
fn put_routable(addr: Option<NetAddr>, routable: &mut u32) -> u32
    ensures call { RoutableCall addr result routable.new }
    ensures same { result ≢ OK → routable.new ≡ routable.old }
{
    let Some(addr) = addr else {
        return ARGUMENT;
    };
    *routable = bit(addr.is_routable());
    OK
}

/// Tells whether an address is routable.
#[unsafe(no_mangle)]
pub extern "C" fn addrman_addr_routable(addr: &AddrmanAddr, routable: &mut u32) -> u32
    ensures call { RoutableCall (address_in addr.now) result routable.new }
    ensures same { result ≢ OK → routable.new ≡ routable.old }
{
    put_routable(read_addr(addr), routable)
}
