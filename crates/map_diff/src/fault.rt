//! `DiffFault`: there are too many changes, or memory ran out.

ghost use Rattle.std.specs.Prelude.{◌≡◌};
ghost use Rattle.map_diff.specs.declared.fault.DiffFault.TheVariants as fault;

use std::alloc::AllocError;

/// Why the difference of two asmaps is not given.
#[derive(Clone, Copy, Debug, PartialEq, Eq)]
pub enum DiffFault {
    /// More prefixes change than a table may have rows.
    TooMany,
    /// Out of memory.
    Memory,
}

impl From<AllocError> for DiffFault {
    ghost from_gives = { λ _ e. e ≡ fault.Memory };

    fn from(_: AllocError) -> DiffFault {
        DiffFault::Memory
    }
}
