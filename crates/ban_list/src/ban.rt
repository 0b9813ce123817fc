//! `Ban` and `BanRule`: a subnet with two times, and when the ban expires.

use crate::Subnet;
use net_addr::NetAddr;

/// How a list of bans is written in its file, and when a ban is over.
#[derive(Clone, Copy)]
pub enum BanRule {
    /// Addresses of Tor v3, I2P and CJDNS have the labels that the lines of a log have, elements
    /// that are no bans are left out, and a ban is over at its end.
    Labels,
    /// As in Bitcoin Core: these addresses have names, what else the file has stays in it, the bans
    /// are sorted, and a ban is over after its end.
    Names,
}

/// A subnet that is banned for a time, in seconds since 1970 (`CBanEntry` in net_types.h of Bitcoin
/// Core).
#[derive(Clone, Copy, Debug, PartialEq, Eq)]
pub struct Ban {
    pub subnet: Subnet,
    /// When the ban was made.
    pub created: u32,
    /// When it is over.
    pub until: u32,
}

impl Ban {
    ghost use Rattle.std.specs.Prelude.{◌≡◌, nat_le};
    ghost use Rattle.ban_list.specs.Bans.{is_of, lasts, stops};

    /// Returns `true` if the ban is of the subnet.
    pub(crate) fn is_of(&self, subnet: &Subnet) -> bool
        ensures { result ≡ is_of subnet.now self.now }
    {
        self.subnet == *subnet
    }

    /// Returns `true` if the ban lasts until the time or longer.
    pub(crate) fn lasts_until(&self, until: u32) -> bool
        ensures { result ≡ nat_le until self.now.until }
    {
        until <= self.until
    }

    /// Returns `true` if the ban is not over at a time, by a rule: it is over at its end, or after
    /// it (`BanMan::SweepBanned` in banman.cpp of Bitcoin Core).
    pub fn lasts(&self, rule: BanRule, now: u32) -> bool
        ensures { result ≡ lasts rule now self.now }
    {
        match rule {
            BanRule::Labels => now < self.until,
            BanRule::Names => now <= self.until,
        }
    }

    /// Returns `true` if the ban covers the address and is not over.
    pub(crate) fn stops(&self, addr: &NetAddr, now: u32) -> bool
        ensures { result ≡ stops addr.now now self.now }
    {
        self.subnet.covers(addr) && now < self.until
    }
}
