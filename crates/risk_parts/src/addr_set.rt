//! `AddrSet`: a subnet or an AS, parsed and printed.

ghost use Rattle.std.specs.Prelude.{◌≡◌, ◌≤◌, ◌<◌, ◌^◌, ◌++◌, ℕ, List, IfSome, IfNone, OnOk, codes, decimal};
ghost use Rattle.risk_parts.specs.Sets.{IsProperSet, IsSetText, set_by, set_text};
ghost use Rattle.risk_parts.specs.declared.addr_set.AddrSet.{AddrSet};

use crate::Memory;
use ban_list::{Subnet, parse_subnet, put_subnet};
use net_addr::{NetAddr, parse_number, put_number};

/// A set of addresses.
#[derive(Clone, Copy)]
pub enum AddrSet {
    /// The addresses of a subnet.
    Subnet(Subnet),
    /// The addresses that are announced by the autonomous system of this number.
    Number(u32),
}

impl AddrSet {
    /// Returns `true` if the set has an address that the autonomous system of the number announces.
    pub fn has(&self, addr: &NetAddr, number: u32) -> bool
        ensures { result ≡ set_by self.now addr.now number }
    {
        match self {
            AddrSet::Subnet(subnet) => subnet.covers(addr),
            AddrSet::Number(own) => *own == number,
        }
    }
}

/// Parses a set: `AS` and a number from 1 to 4294967295, or the text of a subnet, as `ban_list`
/// parses it.
pub fn parse_set(text: &[u8]) -> Option<AddrSet>
    ensures found { IfSome result (IsSetText text.now) }
    ensures proper { IfSome result IsProperSet }
    ensures none { IfNone result ((set : AddrSet) → ¬ IsSetText text.now set) }
{
    match text.strip_prefix(b"AS") {
        Some(digits) => Some(AddrSet::Number(parse_as_number(digits)?)),
        None => match parse_subnet(text) {
            Some(subnet) => Some(AddrSet::Subnet(subnet)),
            None => None,
        },
    }
}

/// Parses the number of an autonomous system.
fn parse_as_number(digits: &[u8]) -> Option<u32>
    ensures found { IfSome result (λ n. (1 ≤ n) × (n < 2 ^ 32) × (digits.now ≡ decimal n)) }
    ensures none { IfNone result ((n : ℕ) → 1 ≤ n → n < 2 ^ 32 → ¬ (digits.now ≡ decimal n)) }
{
    let number = parse_number(digits, u64::from(u32::MAX))?;
    if number == 0 {
        return None;
    }
    Some(number as u32)
}

/// Appends the text of a set.
pub fn put_set(set: &AddrSet, out: &mut Vec<u8>) -> Result<(), Memory>
    requires { IsProperSet set.now }
    ensures { OnOk result (out.new.items ≡ out.old.items ++ set_text set.now) }
{
    match set {
        AddrSet::Subnet(subnet) => put_subnet(subnet, out),
        AddrSet::Number(number) => put_number(b"AS", u64::from(*number), out),
    }
}
