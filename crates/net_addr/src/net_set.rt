//! `NetSet`, a set of networks: `with`, `has`, `all` and `none`.

ghost use Rattle.std.specs.Prelude.{◌≡◌, ◌<◌};

use crate::Net;
use std::marker::Model;

/// A set of networks, which is `Copy` and takes no memory of its own.
#[derive(Clone, Copy, Debug)]
pub struct NetSet {
    // Bit n says whether the network of number n is in the set.
    bits: u8,
}

impl Model for NetSet {
    ghost use Rattle.std.specs.Prelude.{ℕ, List, ◌<◌};
    ghost use Rattle.net_addr.specs.NetBits.{nets_of, bits_of, bits_of-nets_of};

    ghost Value = { List ℕ };

    ghost view = { λ s. nets_of s.bits };

    ghost invariant = { λ s. s.bits < 128 };

    ghost inverse = { λ nets. record { bits = bits_of nets } };

    ghost inverse_ok = { λ s h. λ i. record { bits = bits_of-nets_of s.bits h i } };
}

impl NetSet {
    ghost use Rattle.net_addr.specs.NetSet.{all, none, has, with_net};

    /// Returns the set of all seven networks.
    pub fn all() -> NetSet
        ensures { result ≡ all }
    {
        NetSet { bits: 0x7f }
    }

    /// Returns the empty set.
    pub fn none() -> NetSet
        ensures { result ≡ none }
    {
        NetSet { bits: 0 }
    }

    /// Returns the set with one more network, which may be in it already.
    pub fn with(self, net: Net) -> NetSet
        ensures { result ≡ with_net self net }
    {
        NetSet {
            bits: self.bits | 1 << net.number(),
        }
    }

    /// Returns `true` if the network is in the set.
    pub fn has(self, net: Net) -> bool
        ensures { result ≡ has self net }
    {
        self.bits >> net.number() & 1 == 1
    }
}

impl PartialEq for NetSet {
    ghost use Rattle.std.specs.Prelude.{bytes_eq};
    ghost use Rattle.std.specs.Cmp.{partial_equiv_from_equiv};
    ghost use Rattle.std.specs.Cmp.Lexicographic.{nat_list_eq_equiv};

    ghost eq = { bytes_eq };

    ghost laws = { partial_equiv_from_equiv nat_list_eq_equiv };

    fn eq(&self, other: &NetSet) -> bool {
        self.bits == other.bits
    }
}

impl Eq for NetSet {
    ghost use Rattle.std.specs.Cmp.Lexicographic.{nat_list_eq_equiv};

    ghost laws = { nat_list_eq_equiv };
}

impl Default for NetSet {
    ghost use Rattle.net_addr.specs.NetSet.{none};

    /// Returns the empty set.
    fn default() -> NetSet
        ensures { result ≡ none }
    {
        NetSet::none()
    }
}
