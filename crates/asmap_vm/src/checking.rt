//! `check`: whether bytes are the file of a sane tree.

ghost use Rattle.std.specs.Prelude.{◌≡◌, ℕ, ◌<◌, ◌≤◌, ◌↔◌, length, IfOk, IsOk, Err};
ghost use Rattle.asmap_vm.specs.Code.{Tree, IsSaneFile};
ghost use Rattle.asmap_vm.specs.Held.{bytes_held, tree_held};
ghost use Rattle.asmap_vm.specs.TreeOf.{tree_of, FilesHaveOneTree};

use crate::fault::CodeFault;
use crate::sane::Sane;
use crate::scan::Scan;
use bit_code::{Bits, MAX_ASMAP};

/// Checks that the bytes are the file of a sane tree, and returns them as one to look addresses up
/// in. The rules are those of `SanityCheckASMap` in `util/asmap.cpp` of Bitcoin Core for 128
/// address bits; the limit `MAX_ASMAP` on the size is our own.
pub fn check(code: &[u8]) -> Result<Sane<'_>, CodeFault>
    // What is accepted is the file of a sane tree, and the value has its bytes.
    ensures sane { IfOk result (λ s. (bytes_held s ≡ code.now) × (length code.now ≤ MAX_ASMAP)
        × IsSaneFile (tree_held s) code.now) }

    // Every such file is accepted.
    ensures accepted { (t : Tree) → IsSaneFile t code.now → length code.now ≤ MAX_ASMAP
        → IsOk result }

    // No two sane trees have the same file.
    ensures one_tree { (t : Tree) → IsSaneFile t code.now → t ≡ tree_of code.now }
    ensures too_large { (size : ℕ) → (result ≡ Err (CodeFault.TooLarge size))
        ↔ ((MAX_ASMAP < length code.now) × (size ≡ length code.now)) }
    ensures insane { (result ≡ Err CodeFault.Insane)
        ↔ ((length code.now ≤ MAX_ASMAP) × ((t : Tree) → IsSaneFile t code.now → ⊥)) }
{
    if code.len() > MAX_ASMAP {
        return Err(CodeFault::TooLarge {
            size: code.len() as u64,
        });
    }
    if Scan::is_sane(&Bits::of(code)) {
        Ok(Sane { code })
    } else {
        Err(CodeFault::Insane)
    }
}

/// No two sane trees have the same file.
pub fn one_tree()
    ensures { FilesHaveOneTree }
{}
