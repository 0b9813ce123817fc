//! `ProperBan`: a ban of a list.

ghost use Rattle.ban_list.specs.Subnet.{IsProper};

use crate::ProperSubnet;
use ban_list::{Ban, Bans};
use net_addr::NetAddr;

/// A ban of a list. Its subnet can be banned.
#[derive(Clone, Copy, Debug, PartialEq, Eq)]
pub struct ProperBan {
    ban: Ban,
    ghost proper: { IsProper ban.subnet },
}

impl ProperBan {
    ghost use Rattle.std.specs.Prelude.{◌≡◌, option_map, find, slice_get};
    ghost use Rattle.ban_list.specs.Bans.{stops};

    /// Returns the ban at an index of the list, or `None` past its end.
    #[tactic(auto, using(crate::proofs::Listed::listed_proper))]
    pub fn at(bans: &Bans, index: usize) -> Option<ProperBan>
        ensures found { option_map (λ proper. proper.ban) result ≡ slice_get bans.now index }
    {
        match bans.bans().get(index) {
            Some(ban) => Some(ProperBan { ban: *ban }),
            None => None,
        }
    }

    /// Returns the first ban of the list that covers the address and is not over, or `None` if
    /// there is none (`Bans::covering`).
    pub fn covering(bans: &Bans, addr: &NetAddr, now: u32) -> Option<ProperBan>
        ensures found { option_map (λ proper. proper.ban) result
            ≡ find (stops addr.now now) bans.now }
    {
        match bans.covering(addr, now) {
            Some(ban) => Some(ProperBan { ban: *ban }),
            None => None,
        }
    }

    /// Returns the ban.
    pub fn ban(&self) -> Ban
        ensures value { result ≡ self.now.ban }
        ensures proper { IsProper self.now.ban.subnet }
    {
        self.ban
    }

    /// Returns its subnet.
    pub fn subnet(&self) -> ProperSubnet
        ensures value { result.subnet ≡ self.now.ban.subnet }
    {
        ProperSubnet {
            subnet: self.ban.subnet,
        }
    }
}
