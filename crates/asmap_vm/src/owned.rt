//! `OwnedSane`: a sane file with its own copy of the bytes.

ghost use Rattle.std.specs.Prelude.{◌≡◌, IfOk};
ghost use Rattle.asmap_vm.specs.Asmap.{IsAsmap};
ghost use Rattle.asmap_vm.specs.Held.{bytes_held, tree_held};

use crate::sane::Sane;
use std::alloc::{AllocError, Global};
use std::marker::Model;

/// A sane file with its own bytes.
#[derive(Drop)]
pub struct OwnedSane {
    code: Vec<u8>,
}

impl Model for OwnedSane {
    ghost use Rattle.std.specs.Prelude.{◌≤◌, length};
    ghost use Rattle.bit_code.specs.declared.bits.TheConstants.{MAX_ASMAP};
    ghost use Rattle.asmap_vm.specs.Asmap.{Asmap, coded_asmap};
    ghost use Rattle.asmap_vm.specs.Code.{IsSaneFile};
    ghost use Rattle.asmap_vm.specs.TreeOf.{tree_of};

    ghost Value = { Asmap };

    ghost coded = { coded_asmap };

    ghost view = { λ s. record { file = s.code.items; tree = tree_of s.code.items } };

    ghost invariant = { λ s. (length s.code.items ≤ MAX_ASMAP)
        × IsSaneFile (tree_of s.code.items) s.code.items };
}

impl OwnedSane {
    /// Copies a sane file.
    pub fn copy_of(alloc: Global, sane: &Sane<'_>) -> Result<OwnedSane, AllocError>
        ensures { IfOk result (λ own.
            own ≡ record { file = bytes_held sane.now; tree = tree_held sane.now }) }
    {
        Ok(OwnedSane {
            code: Vec::from_slice(alloc, sane.code)?,
        })
    }

    /// Returns the file, to look addresses up in.
    pub fn lent(&self) -> Sane<'_>
        ensures file { bytes_held result ≡ self.now.file }
        ensures tree { tree_held result ≡ self.now.tree }
        ensures sane { IsAsmap self.now }
    {
        Sane {
            code: self.code.as_slice(),
        }
    }
}
