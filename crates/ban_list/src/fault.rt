//! `BanFault`: why a file is not a list of bans.

ghost use Rattle.std.specs.Prelude.{◌≡◌};
ghost use Rattle.ban_list.specs.FaultTexts.{ban_fault_text};
ghost use Rattle.ban_list.specs.declared.fault.BanFault.TheVariants as fault;

use crate::Memory;
use std::alloc::AllocError;
use thiserror::Error;

/// Why a file is not read as a list of bans.
#[derive(Clone, Copy, Debug, PartialEq, Eq, Error)]
pub enum BanFault {
    /// The bytes are no JSON text, or it nests more than 127 deep.
    #[error("json")]
    Json,
    /// The value is not an object with an array under `banned_nets`.
    #[error("form")]
    Form,
    /// More than `MAX_BANS` elements count.
    #[error("too-many")]
    TooMany,
    /// The file has more than `MAX_FILE` bytes; `read_bans` never returns this.
    #[error("too-large")]
    TooLarge {
        /// The length of the file in bytes.
        size: u64,
    },
    /// Out of memory.
    #[error("out of memory")]
    Memory,
}

impl From<AllocError> for BanFault {
    ghost from_gives = { λ _ e. e ≡ fault.Memory };

    fn from(_: AllocError) -> BanFault {
        BanFault::Memory
    }
}

impl From<Memory> for BanFault {
    ghost from_gives = { λ _ e. e ≡ fault.Memory };

    fn from(_: Memory) -> BanFault {
        BanFault::Memory
    }
}

impl BanFault {
    /// Returns the word for the fault, as it is printed.
    pub fn word(&self) -> &'static [u8]
        ensures { result.now ≡ ban_fault_text self.now }
    {
        match self {
            BanFault::Json => b"json",
            BanFault::Form => b"form",
            BanFault::TooMany => b"too-many",
            BanFault::TooLarge { .. } => b"too-large",
            BanFault::Memory => b"out of memory",
        }
    }
}
