//! `Sane`: a checked file that borrows its bytes, with `asn`.

ghost use Rattle.std.specs.Prelude.{length, ◌≤◌};
ghost use Rattle.bit_code.specs.declared.bits.TheConstants.{MAX_ASMAP};
ghost use Rattle.asmap_vm.specs.Code.{IsSaneFile};
ghost use Rattle.asmap_vm.specs.TreeOf.{tree_of};
ghost use Rattle.asmap_vm.specs.SaneProps.{IsSaneFile-prop};

use crate::walk::Walk;
use bit_code::Bits;

/// The bytes of a sane file, as `check` returns them.
#[derive(Clone, Copy, Debug)]
pub struct Sane<'a> {
    pub(crate) code: &'a [u8],
    pub ghost small: { length code.now ≤ MAX_ASMAP },
    pub ghost sane: { IsSaneFile (tree_of code.now) code.now } by { IsSaneFile-prop (tree_of code.now) code.now },
}

impl<'a> Sane<'a> {
    ghost use Rattle.std.specs.Prelude.{◌≡◌};
    ghost use Rattle.asmap_vm.specs.Code.{asn_of};
    ghost use Rattle.asmap_vm.specs.Held.{bytes_held, tree_held};

    /// Returns the number of the autonomous system that the file gives for `address`, or 0 if it
    /// gives none. The address is read from its high bit on. This is `Interpret` of
    /// `util/asmap.cpp` in Bitcoin Core.
    pub fn asn(&self, address: u128) -> u32
        ensures { result ≡ asn_of (tree_held self.now) address }
    {
        Walk::follow(&Bits::of(self.code), address)
    }

    /// Returns the bytes of the file.
    pub fn code(&self) -> &'a [u8]
        ensures { result.now ≡ bytes_held self.now }
    {
        self.code
    }
}
