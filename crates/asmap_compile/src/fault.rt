//! `CompileFault`: the table is empty, the file would be too large, or memory ran out.

ghost use Rattle.std.specs.Prelude.{◌≡◌};
ghost use Rattle.asmap_compile.specs.FaultTexts.{compile_fault_text};
ghost use Rattle.asmap_compile.specs.declared.fault.CompileFault.{CompileFault};

use memory::Memory;
use std::alloc::AllocError;

/// Why a table isn't compiled.
#[derive(Clone, Copy, Debug, PartialEq, Eq)]
pub enum CompileFault {
    /// The table has no rows.
    Empty,
    /// The code has more than `MAX_BITS` bits.
    TooLarge {
        /// How many bits it has.
        bits: u64,
    },
    /// Out of memory.
    Memory,
}

impl From<AllocError> for CompileFault {
    ghost from_gives = { λ _ fault. fault ≡ CompileFault.Memory };

    fn from(_: AllocError) -> CompileFault {
        CompileFault::Memory
    }
}

impl From<Memory> for CompileFault {
    ghost from_gives = { λ _ fault. fault ≡ CompileFault.Memory };

    fn from(_: Memory) -> CompileFault {
        CompileFault::Memory
    }
}

impl CompileFault {
    /// Returns the word for the fault, as it is printed.
    pub fn word(&self) -> &'static [u8]
        ensures { result.now ≡ compile_fault_text self.now }
    {
        match self {
            CompileFault::Empty => b"empty",
            CompileFault::TooLarge { .. } => b"code-too-large",
            CompileFault::Memory => b"out of memory",
        }
    }
}
