//! The law that states the sizes of both tables as numbers.

ghost use Rattle.std.specs.Prelude.{◌≡◌};
ghost use Rattle.slot_grid.specs.declared.sizes.TheConstants.{ALL_SLOTS, BUCKETS, NEW_BUCKETS, NEW_SLOTS, SLOTS, TRIED_BUCKETS, TRIED_SLOTS};

use crate::{ALL_SLOTS, BUCKETS, NEW_BUCKETS, NEW_SLOTS, SLOTS, TRIED_BUCKETS, TRIED_SLOTS};

/// The sizes of both tables.
pub fn limits()
    ensures slots { SLOTS ≡ 64 }
    ensures new_buckets { NEW_BUCKETS ≡ 1024 }
    ensures tried_buckets { TRIED_BUCKETS ≡ 256 }
    ensures buckets { BUCKETS ≡ 1280 }
    ensures new_slots { NEW_SLOTS ≡ 65536 }
    ensures tried_slots { TRIED_SLOTS ≡ 16384 }
    ensures all_slots { ALL_SLOTS ≡ 81920 }
{}
