//! `RestoreFault`: a duplicate, or memory ran out.

ghost use Rattle.std.specs.Prelude.{◌≡◌};
ghost use Rattle.tables.specs.declared.restore_fault.RestoreFault.TheVariants.{Memory};

use memory::Memory;

/// Why tables are not restored.
#[derive(Clone, Copy, Debug, PartialEq, Eq)]
pub enum RestoreFault {
    /// Two records with valid addresses have one peer. `index` is the later one's, counted from 0,
    /// the new records first.
    Duplicate { index: u32 },
    /// Out of memory.
    Memory,
}

impl From<Memory> for RestoreFault {
    ghost from_gives = { λ _ e. e ≡ Memory };

    fn from(_: Memory) -> RestoreFault {
        RestoreFault::Memory
    }
}
