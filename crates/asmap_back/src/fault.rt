//! `BackFault`: there are too many rows, or memory ran out.

ghost use Rattle.std.specs.Prelude.{◌≡◌};
ghost use Rattle.asmap_back.specs.declared.fault.BackFault.TheVariants as fault;

use memory::Memory;
use std::alloc::AllocError;

/// Why an asmap is not turned back into a table.
#[derive(Clone, Copy, Debug, PartialEq, Eq)]
pub enum BackFault {
    /// The asmap gives more rows than a table may have.
    TooMany {
        /// One more than a table's maximum number of rows: the rows after that are not counted.
        rows: u32,
    },
    /// Out of memory.
    Memory,
}

impl From<AllocError> for BackFault {
    ghost from_gives = { λ _ e. e ≡ fault.Memory };

    fn from(_: AllocError) -> BackFault {
        BackFault::Memory
    }
}

impl From<Memory> for BackFault {
    ghost from_gives = { λ _ e. e ≡ fault.Memory };

    fn from(_: Memory) -> BackFault {
        BackFault::Memory
    }
}
