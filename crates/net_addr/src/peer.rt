//! `Peer`, an address and a port, with its `key_bytes`; and `Entry`, a peer with its time and
//! services.

use crate::NetAddr;
use crate::text::append;
use arrayvec::ArrayVec;

/// An address and a port.
#[derive(Clone, Copy, Debug, PartialEq, Eq, Hash)]
pub struct Peer {
    pub addr: NetAddr,
    pub port: u16,
}

impl Peer {
    ghost use Rattle.std.specs.Prelude.{◌≡◌};
    ghost use Rattle.net_addr.specs.OldForm.{key_bytes};

    /// Returns the bytes by which a peer is hashed: the old form of its address if it has one, else
    /// the address's bytes, and the port with its high byte first (`CService::GetKey` in
    /// netaddress.cpp of Bitcoin Core).
    pub fn key_bytes(&self) -> ArrayVec<u8, 34>
        ensures { result.items ≡ key_bytes self.now }
    {
        let mut key = ArrayVec::new();
        match self.addr.v1_bytes() {
            Some(old_form) => append(&mut key, &old_form),
            None => append(&mut key, self.addr.bytes()),
        }
        append(&mut key, &self.port.to_be_bytes());
        key
    }
}

/// One entry of an `addr` or `addrv2` message: when the peer was last seen, in seconds since 1970,
/// the services that it offers, and the peer.
#[derive(Clone, Copy, Debug)]
pub struct Entry {
    pub time: u32,
    pub services: u64,
    pub peer: Peer,
}
