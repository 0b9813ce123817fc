//! `NetAddr`, an address: its bytes, its class, its linked IPv4 address, and whether it is valid,
//! local or routable.
//!
//! It is a struct around an enum of arrays, since an enum has no model.

ghost use Rattle.std.specs.Prelude.{◌≡◌};

use crate::Net;
use crate::old_form::{
    INTERNAL_PREFIX, MAPPED_PREFIX, TORV2_PREFIX, array_of, internal, is_old_form, mapped,
};
use crate::ranges::{
    carried, in_range, is_cjdns, is_ipv4_invalid, is_ipv4_local, is_ipv4_reserved, is_ipv6_invalid,
    is_ipv6_local, is_ipv6_reserved,
};
use std::marker::Model;

/// The bytes of an address in the order of the wire, by its network.
#[derive(Clone, Copy, Debug)]
enum Bytes {
    Ipv4([u8; 4]),
    Ipv6([u8; 16]),
    Onion([u8; 32]),
    I2p([u8; 32]),
    Cjdns([u8; 16]),
    Internal([u8; 10]),
}

impl Bytes {
    ghost use Rattle.net_addr.specs.Inside.{address_of};

    /// Returns the bytes of the address.
    fn as_slice(&self) -> &[u8]
        ensures value { result.now ≡ (address_of self.now).bytes }
    {
        match self {
            Bytes::Ipv4(bytes) => bytes,
            Bytes::Ipv6(bytes) => bytes,
            Bytes::Onion(bytes) => bytes,
            Bytes::I2p(bytes) => bytes,
            Bytes::Cjdns(bytes) => bytes,
            Bytes::Internal(bytes) => bytes,
        }
    }
}

/// An address of one of the six networks.
#[derive(Clone, Copy, Debug)]
pub struct NetAddr {
    bytes: Bytes,
}

impl Model for NetAddr {
    ghost use Rattle.std.specs.Prelude.{◌≡◌};
    ghost use Rattle.std.proofs.Common.{ap};
    ghost use Rattle.net_addr.specs.Address.{Address, IsAddress};
    ghost use Rattle.net_addr.specs.Inside.{address_of, bytes_of, bytes_of-address_of};

    ghost Value = { Address };

    ghost view = { λ a. address_of a.bytes };

    ghost invariant = { λ a. IsAddress (address_of a.bytes) };

    ghost inverse = { λ a. record { bytes = bytes_of a } };

    ghost inverse_ok = { λ a h. λ i. record { bytes = bytes_of-address_of a.bytes i } };
}

impl NetAddr {
    ghost use Rattle.std.specs.Prelude.{◌≡◌, ◌*◌, ◌≤◌, length, option_map, IfSome, IfNone};
    ghost use Rattle.std.specs.Int.{w32, from_be_bytes, to_be_bytes};
    ghost use Rattle.net_addr.specs.declared.net.Net.TheVariants.{Ipv4};
    ghost use Rattle.net_addr.specs.Address.{IsAddress};
    ghost use Rattle.net_addr.specs.Ranges.{range, in_range, is_valid, is_local, is_routable, reserved_by, linked_by, linked_ipv4, net_class};
    ghost use Rattle.net_addr.specs.OldForm.{address, from_v1, v1_bytes};

    /// Returns the address of a network with these bytes, in the order of the wire. Returns `None`
    /// for `Unroutable`, if the number of bytes is not that of the network's addresses, and for
    /// IPv6 bytes that are the old form of another address.
    pub fn of(net: Net, bytes: &[u8]) -> Option<NetAddr>
        ensures found { IfSome result (λ a. a ≡ address net bytes.now) }
        ensures address { IfSome result IsAddress }
        ensures only { IsAddress (address net bytes.now) → result ≡ Some (address net bytes.now) }
        ensures none { IfNone result (¬ (IsAddress (address net bytes.now))) }
    {
        let bytes = match net {
            Net::Unroutable => return None,
            Net::Ipv4 => Bytes::Ipv4(<[u8; 4]>::try_from(bytes).ok()?),
            Net::Ipv6 if is_old_form(bytes) => return None,
            Net::Ipv6 => Bytes::Ipv6(<[u8; 16]>::try_from(bytes).ok()?),
            Net::Onion => Bytes::Onion(<[u8; 32]>::try_from(bytes).ok()?),
            Net::I2p => Bytes::I2p(<[u8; 32]>::try_from(bytes).ok()?),
            Net::Cjdns => Bytes::Cjdns(<[u8; 16]>::try_from(bytes).ok()?),
            Net::Internal => Bytes::Internal(<[u8; 10]>::try_from(bytes).ok()?),
        };
        Some(NetAddr { bytes })
    }

    /// Returns the IPv4 address of four bytes in the order of the wire.
    pub fn ipv4(bytes: [u8; 4]) -> NetAddr
        ensures value { result ≡ address Ipv4 bytes }
        ensures address { IsAddress result }
    {
        NetAddr {
            bytes: Bytes::Ipv4(bytes),
        }
    }

    /// Returns the address of sixteen bytes of the old form (`CNetAddr::SetLegacyIPv6` in
    /// netaddress.cpp of Bitcoin Core).
    pub fn from_v1(bytes: &[u8; 16]) -> NetAddr
        ensures value { result ≡ from_v1 bytes.now }
        ensures address { IsAddress result }
    {
        if bytes.starts_with(&MAPPED_PREFIX) {
            return NetAddr {
                bytes: Bytes::Ipv4(array_of(&bytes[12..])),
            };
        }
        if bytes.starts_with(&INTERNAL_PREFIX) {
            return NetAddr {
                bytes: Bytes::Internal(array_of(&bytes[6..])),
            };
        }
        if bytes.starts_with(&TORV2_PREFIX) {
            return NetAddr {
                bytes: Bytes::Ipv6([0; 16]),
            };
        }
        NetAddr {
            bytes: Bytes::Ipv6(*bytes),
        }
    }

    /// Returns the network of the address.
    pub fn net(&self) -> Net
        ensures { result ≡ self.now.net }
    {
        match self.bytes {
            Bytes::Ipv4(_) => Net::Ipv4,
            Bytes::Ipv6(_) => Net::Ipv6,
            Bytes::Onion(_) => Net::Onion,
            Bytes::I2p(_) => Net::I2p,
            Bytes::Cjdns(_) => Net::Cjdns,
            Bytes::Internal(_) => Net::Internal,
        }
    }

    /// Returns the bytes of the address, in the order of the wire.
    pub fn bytes(&self) -> &[u8]
        ensures value { result.now ≡ self.now.bytes }
        ensures address { IsAddress self.now }
    {
        self.bytes.as_slice()
    }

    /// Returns `true` if the bytes can be an address at all (`CNetAddr::IsValid` in netaddress.cpp
    /// of Bitcoin Core).
    pub fn is_valid(&self) -> bool
        ensures { result ≡ is_valid self.now }
    {
        match &self.bytes {
            Bytes::Ipv4(bytes) => !is_ipv4_invalid(bytes),
            Bytes::Ipv6(bytes) => !is_ipv6_invalid(bytes),
            Bytes::Onion(_) | Bytes::I2p(_) => true,
            Bytes::Cjdns(bytes) => is_cjdns(bytes),
            Bytes::Internal(_) => false,
        }
    }

    /// Returns `true` if the address is this host (`CNetAddr::IsLocal`).
    pub fn is_local(&self) -> bool
        ensures { result ≡ is_local self.now }
    {
        match &self.bytes {
            Bytes::Ipv4(bytes) => is_ipv4_local(bytes),
            Bytes::Ipv6(bytes) => is_ipv6_local(bytes),
            Bytes::Onion(_) | Bytes::I2p(_) | Bytes::Cjdns(_) | Bytes::Internal(_) => false,
        }
    }

    /// Returns `true` if the address can be reached over the public network
    /// (`CNetAddr::IsRoutable`).
    pub fn is_routable(&self) -> bool
        ensures { result ≡ is_routable self.now }
    {
        self.is_valid() && !self.is_local() && !self.is_reserved()
    }

    /// Returns `true` if the address begins with the first `bits` bits of the base.
    pub fn is_in_range(&self, base: &[u8], bits: usize) -> bool
        requires base_holds { bits ≤ 8 * length base.now }
        requires address_holds { length base.now ≤ length self.now.bytes }
        ensures { result ≡ in_range (range base.now bits) self.now.bytes }
    {
        in_range(self.bytes(), base, bits)
    }

    /// Returns `true` if the address is in a range that is not routed.
    fn is_reserved(&self) -> bool
        ensures { result ≡ reserved_by self.now.net self.now.bytes }
    {
        match &self.bytes {
            Bytes::Ipv4(bytes) => is_ipv4_reserved(bytes),
            Bytes::Ipv6(bytes) => is_ipv6_reserved(bytes),
            Bytes::Onion(_) | Bytes::I2p(_) | Bytes::Cjdns(_) | Bytes::Internal(_) => false,
        }
    }

    /// Returns the four bytes of the IPv4 address that the address is or embeds, even if it is not
    /// routable, or `None` if there is none.
    pub fn linked_bytes(&self) -> Option<[u8; 4]>
        ensures { result ≡ linked_by self.now.net self.now.bytes }
    {
        match &self.bytes {
            Bytes::Ipv4(bytes) => Some(*bytes),
            Bytes::Ipv6(bytes) => carried(bytes),
            Bytes::Onion(_) | Bytes::I2p(_) | Bytes::Cjdns(_) | Bytes::Internal(_) => None,
        }
    }

    /// Returns the IPv4 address that a routable address is or embeds, the first of its four bytes
    /// the highest, or `None` if there is none (`CNetAddr::GetLinkedIPv4`).
    pub fn linked_ipv4(&self) -> Option<u32>
        ensures value { result ≡ option_map (from_be_bytes w32) (linked_ipv4 self.now) }
        ensures bytes { linked_ipv4 self.now ≡ option_map (to_be_bytes w32) result }
    {
        if !self.is_routable() {
            return None;
        }
        let bytes = self.linked_bytes()?;
        Some(u32::from_be_bytes(bytes))
    }

    /// Returns the network that the address is reached through (`CNetAddr::GetNetClass`).
    pub fn net_class(&self) -> Net
        ensures { result ≡ net_class self.now }
    {
        match self.net() {
            Net::Internal => Net::Internal,
            _ if !self.is_routable() => Net::Unroutable,
            Net::Ipv6 if self.linked_bytes().is_some() => Net::Ipv4,
            net => net,
        }
    }

    /// Returns the sixteen bytes of the old form, that of messages before BIP 155, or `None` if the
    /// address has none (`CNetAddr::SerializeV1Array`).
    pub fn v1_bytes(&self) -> Option<[u8; 16]>
        ensures { result ≡ v1_bytes self.now }
    {
        match &self.bytes {
            Bytes::Ipv4(bytes) => Some(mapped(bytes)),
            Bytes::Ipv6(bytes) => Some(*bytes),
            Bytes::Internal(bytes) => Some(internal(bytes)),
            Bytes::Onion(_) | Bytes::I2p(_) | Bytes::Cjdns(_) => None,
        }
    }
}
