//! The law that states the number of buckets of a group.

ghost use Rattle.std.specs.Prelude.{◌≡◌};
ghost use Rattle.placing.specs.declared.placer.TheConstants.{GROUP_BUCKETS, SOURCE_BUCKETS};

use crate::{GROUP_BUCKETS, SOURCE_BUCKETS};

/// How many buckets a group has.
pub fn limits()
    ensures source { SOURCE_BUCKETS ≡ 64 }
    ensures group { GROUP_BUCKETS ≡ 8 }
{}
