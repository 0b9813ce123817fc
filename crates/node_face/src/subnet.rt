//! `ProperSubnet`: a subnet that can be banned.

ghost use Rattle.ban_list.specs.Subnet.{IsProper};

use ban_list::{Memory, Subnet, parse_subnet, put_subnet};

/// A subnet that can be banned: its address has no bits after the first `len`, and is not the old
/// form of an address of another network.
#[derive(Clone, Copy)]
pub struct ProperSubnet {
    pub(crate) subnet: Subnet,
    ghost proper: { IsProper subnet },
}

impl ProperSubnet {
    ghost use Rattle.std.specs.Prelude.{◌≡◌, ◌++◌, IfSome, IfNone, OnOk, OnErr};
    ghost use Rattle.ban_list.specs.Subnet.{IsProper};
    ghost use Rattle.ban_list.specs.SubnetText.{IsSubnetText, subnet_text};
    ghost use Rattle.ban_list.specs.declared.subnet.Subnet.{Subnet};

    /// Parses a subnet (`ban_list::parse_subnet`).
    pub fn parse(text: &[u8]) -> Option<ProperSubnet>
        ensures found { IfSome result (λ s. IsSubnetText text.now s.subnet) }
        ensures only { (s : Subnet) → IsSubnetText text.now s →
            IfSome result (λ found. found.subnet ≡ s) }
        ensures none { IfNone result ((s : Subnet) → IsSubnetText text.now s → ⊥) }
    {
        match parse_subnet(text) {
            Some(subnet) => Some(ProperSubnet { subnet }),
            None => None,
        }
    }

    /// Returns the subnet.
    pub fn subnet(&self) -> Subnet
        ensures value { result ≡ self.now.subnet }
        ensures proper { IsProper self.now.subnet }
    {
        self.subnet
    }

    /// Appends the text of the subnet (`ban_list::put_subnet`). If memory runs out, `out` is
    /// unchanged.
    pub fn put(&self, out: &mut Vec<u8>) -> Result<(), Memory>
        ensures ok { OnOk result (out.new.items ≡ out.old.items ++ subnet_text self.now.subnet) }
        ensures err { OnErr result (out.new.items ≡ out.old.items) }
    {
        put_subnet(&self.subnet, out)
    }
}
