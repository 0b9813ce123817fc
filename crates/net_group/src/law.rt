//! The maximum size of a group as a number.

ghost use Rattle.std.specs.Prelude.{◌≡◌};
ghost use Rattle.net_group.specs.declared.network_group.TheConstants.{MAX_GROUP};

use crate::MAX_GROUP;

/// The size of a group.
pub fn limits()
    ensures group { MAX_GROUP ≡ 11 }
{}
