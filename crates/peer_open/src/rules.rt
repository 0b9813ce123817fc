//! `OpenRules`, the rules of Bitcoin Core that options choose: the group that a peer counts in, and
//! the services and ports (`BAD_PORTS`) that rule it out.

ghost use Rattle.std.specs.Prelude.{◌≡◌};
ghost use Rattle.peer_open.specs.Rules.{counted_group, has_bad_port, is_bad_port, is_ip, lacks_services, lacks_useful_services, no_rules, own_group};

use arrayvec::ArrayVec;
use net_addr::{Net, NetAddr, NetSet, Peer, append};

/// Bytes of the group that a peer counts in, at most: those of an address and one more.
pub const MAX_COUNTED: usize = 33;

/// The first try that takes a peer with a bad port (`CConnman::ThreadOpenConnections` in net.cpp of
/// Bitcoin Core).
const FIRST_LAX_TRY: u32 = 50;

/// `NODE_NETWORK` and `NODE_NETWORK_LIMITED`: a node with one of them may know useful addresses
/// (`MayHaveUsefulAddressDB` in protocol.h).
const USEFUL_SERVICES: u64 = 1025;

/// What the first byte of a group of one address is, besides the number of its network. Those of
/// network groups are below.
const OWN_GROUP: u8 = 128;

/// The ports of other services (`IsBadPort` in netbase.cpp).
pub const BAD_PORTS: [u16; 85] = [
    1, 7, 9, 11, 13, 15, 17, 19, 20, 21, 22, 23, 25, 37, 42, 43, 53, 69, 77, 79, 87, 95, 101, 102,
    103, 104, 109, 110, 111, 113, 115, 117, 119, 123, 135, 137, 139, 143, 161, 179, 389, 427, 465,
    512, 513, 514, 515, 526, 530, 531, 532, 540, 548, 554, 556, 563, 587, 601, 636, 989, 990, 993,
    995, 1719, 1720, 1723, 2049, 3306, 3389, 3659, 4045, 5060, 5061, 5432, 5900, 6000, 6566, 6665,
    6666, 6667, 6668, 6669, 6697, 10080, 27017,
];

/// The rules of Bitcoin Core that an opener follows besides its own.
#[derive(Clone, Copy)]
pub struct OpenRules {
    /// The networks whose peers do not count for groups. Each address of them is a group of its
    /// own.
    pub exempt: NetSet,
    /// The services that a peer needs, as bits; 0 if they do not count.
    pub services: u64,
    /// Whether IPv4 and IPv6 peers with the port of another service are passed over in early tries.
    pub skips_bad_ports: bool,
}

impl OpenRules {
    /// Returns the rules of an opener without options.
    pub fn none() -> OpenRules
        ensures { result ≡ no_rules }
    {
        OpenRules {
            exempt: NetSet::none(),
            services: 0,
            skips_bad_ports: false,
        }
    }

    /// Returns the group that a peer of this address and network group counts in.
    pub fn counted_group(
        &self,
        addr: &NetAddr,
        group: &ArrayVec<u8, 11>,
    ) -> ArrayVec<u8, MAX_COUNTED>
        ensures { result.items ≡ counted_group self.now addr.now group.now.items }
    {
        if self.exempt.has(addr.net()) {
            own_group(addr)
        } else {
            widened(group)
        }
    }

    /// Returns `true` if the services of a peer rule out an outbound connection that is kept.
    pub fn lacks_services(&self, services: u64) -> bool
        ensures { result ≡ lacks_services self.now services }
    {
        services & self.services != self.services
    }

    /// Returns `true` if the services of a peer rule out a connection that tests it.
    pub fn lacks_useful_services(&self, services: u64) -> bool
        ensures { result ≡ lacks_useful_services self.now services }
    {
        self.services != 0 && services & USEFUL_SERVICES == 0
    }

    /// Returns `true` if the port of a peer rules it out in the try of this number.
    pub fn has_bad_port(&self, peer: &Peer, tries: u32) -> bool
        ensures { result ≡ has_bad_port self.now peer.now tries }
    {
        self.skips_bad_ports
            && tries < FIRST_LAX_TRY
            && is_ip(peer.addr.net())
            && is_bad_port(peer.port)
    }
}

/// Returns `true` for the networks IPv4 and IPv6.
fn is_ip(net: Net) -> bool
    ensures { result ≡ is_ip net }
{
    match net {
        Net::Ipv4 | Net::Ipv6 => true,
        _ => false,
    }
}

/// Returns `true` if the port is that of another service.
fn is_bad_port(port: u16) -> bool
    ensures { result ≡ is_bad_port port }
{
    BAD_PORTS.iter().any(|bad| *bad == port)
}

/// Returns the group of an address that is one by itself. No network group begins as it does.
fn own_group(addr: &NetAddr) -> ArrayVec<u8, MAX_COUNTED>
    ensures { result.items ≡ own_group addr.now }
{
    let mut group = ArrayVec::new();
    group.push(OWN_GROUP + addr.net().number());
    append(&mut group, addr.bytes());
    group
}

/// Returns a network group as one that counts.
pub(crate) fn widened(group: &ArrayVec<u8, 11>) -> ArrayVec<u8, MAX_COUNTED>
    ensures { result.items ≡ group.now.items }
{
    let mut counted = ArrayVec::new();
    append(&mut counted, group.as_slice());
    counted
}
