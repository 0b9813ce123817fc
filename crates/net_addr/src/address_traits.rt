//! `PartialEq`, `Eq` and `Hash` of `NetAddr`.

ghost use Rattle.net_addr.specs.Same.{same_address, same_address-equiv, same_address-per, hashed, same_address-hashed};

use crate::NetAddr;
use std::hash::{Hash, Hasher};

impl PartialEq for NetAddr {
    ghost eq = { same_address };

    ghost laws = { same_address-per };

    fn eq(&self, other: &NetAddr) -> bool {
        self.net().number() == other.net().number() && self.bytes() == other.bytes()
    }
}

impl Eq for NetAddr {
    ghost laws = { same_address-equiv };
}

impl Hash for NetAddr {
    ghost hash_input = { hashed };

    ghost respects_eq = { same_address-hashed };

    fn hash<H: Hasher>(&self, state: &mut H) {
        self.net().number().hash(state);
        state.write(self.bytes());
    }
}
