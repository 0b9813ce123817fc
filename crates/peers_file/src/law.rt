//! The law that a file has one meaning, and the limit as a number.

ghost use Rattle.std.specs.Prelude.{◌≡◌, ℕ, ◌<◌, List, All};
ghost use Rattle.peers_file.specs.Layout.{HasOneMeaning};
ghost use Rattle.peers_file.specs.declared.chain.Chain.{Chain};
ghost use Rattle.peers_file.specs.declared.read.TheConstants.{MAX_FILE};

use crate::MAX_FILE;

/// For every chain, a list of bytes is the file of exactly one snapshot or has exactly one fault,
/// and never both.
pub fn files_have_one_meaning()
    ensures { (chain : Chain) (bytes : List ℕ) → All (λ b. b < 256) bytes
        → HasOneMeaning chain bytes }
{}

/// The maximum number of bytes of a file.
pub fn limits()
    ensures { MAX_FILE ≡ 33554432 }
{}
