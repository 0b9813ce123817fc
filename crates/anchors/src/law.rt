//! Laws: the limits as numbers, and that a file has one meaning.

ghost use Rattle.std.specs.Prelude.{◌≡◌, ℕ, ◌<◌, List, All, length};
ghost use Rattle.anchors.specs.Layout.{HasOneMeaning};
ghost use Rattle.anchors.specs.declared.read.TheConstants.{MAX_ANCHORS, MAX_FILE};

use crate::{MAX_ANCHORS, MAX_FILE};

/// How many anchors a file has, and how many bytes, at most.
pub fn limits()
    ensures anchors { MAX_ANCHORS ≡ 1000 }
    ensures file { MAX_FILE ≡ 1048576 }
{}

/// For every chain, by the four bytes that begin its files, a list of bytes is the file of exactly
/// one list of anchors or has exactly one fault, and never both.
pub fn files_have_one_meaning()
    ensures { (magic bytes : List ℕ) → length magic ≡ 4 → All (λ b. b < 256) bytes
        → HasOneMeaning magic bytes }
{}
