//! `AnchorsFault` and `AnchorCause`: the first fault and its printed word.

ghost use Rattle.std.specs.Prelude.{◌≡◌};
ghost use Rattle.anchors.specs.FaultTexts.{anchors_fault_text};
ghost use Rattle.anchors.specs.Faults.{of_address, of_count, of_number};
ghost use Rattle.anchors.specs.declared.fault.AnchorsFault.TheVariants.{Memory};

use addr_codecs::AddressFault;
use std::alloc::{AllocError, AllocFailed};
use thiserror::Error;
use wire_num::WireFault;

/// What is wrong with an anchor.
#[derive(Clone, Copy, Debug, PartialEq, Eq)]
pub enum AnchorCause {
    /// The bytes end before it does.
    Truncated,
    /// It is laid out in the way of another format, as by Bitcoin Core 0.21.
    Version,
    /// A CompactSize has more bytes than its value needs.
    NonCanonical,
    /// The network of the address has addresses of another length.
    BadLength,
    /// The address has more than 512 bytes.
    TooLong,
}

/// Why a file is refused: its first fault.
#[derive(Clone, Copy, Debug, PartialEq, Eq, Drop, Error)]
pub enum AnchorsFault {
    /// The bytes end before the sum or the number of anchors does.
    #[error("truncated")]
    Truncated,
    /// The file is that of another chain, or of another program.
    #[error("bad-magic")]
    BadMagic,
    /// The last 32 bytes are not the double SHA-256 of the bytes before them.
    #[error("bad-sum")]
    BadSum,
    /// The number of anchors has more bytes than it needs.
    #[error("count")]
    Count,
    /// The number of anchors is above `MAX_ANCHORS`.
    #[error("too-many")]
    TooMany {
        count: u64,
    },
    /// The anchor of this index, counted from 0, has a fault.
    #[error("anchor")]
    Anchor {
        index: u32,
        cause: AnchorCause,
    },
    /// Bytes are left after the last anchor.
    #[error("trailing")]
    Trailing,
    /// The file has more than `MAX_FILE` bytes.
    #[error("too-large")]
    TooLarge {
        /// The length of the file in bytes.
        size: u64,
    },
    #[error("out of memory")]
    Memory,
}

impl AnchorsFault {
    /// Returns the word for the fault, as it is printed.
    pub fn word(&self) -> &'static [u8]
        ensures { result.now ≡ anchors_fault_text self.now }
    {
        match self {
            AnchorsFault::Truncated => b"truncated",
            AnchorsFault::BadMagic => b"bad-magic",
            AnchorsFault::BadSum => b"bad-sum",
            AnchorsFault::Count => b"count",
            AnchorsFault::TooMany { .. } => b"too-many",
            AnchorsFault::Anchor { .. } => b"anchor",
            AnchorsFault::Trailing => b"trailing",
            AnchorsFault::TooLarge { .. } => b"too-large",
            AnchorsFault::Memory => b"out of memory",
        }
    }

    /// Returns the fault of a file whose number of anchors has this fault.
    pub(crate) fn of_count(fault: WireFault) -> AnchorsFault
        ensures { result ≡ of_count fault }
    {
        match fault {
            WireFault::Truncated => AnchorsFault::Truncated,
            WireFault::NonCanonical => AnchorsFault::Count,
        }
    }

    /// Returns the fault of a file whose anchor of an index has a number with this fault.
    pub(crate) fn of_number(index: u32, fault: WireFault) -> AnchorsFault
        ensures { result ≡ of_number index fault }
    {
        let cause = match fault {
            WireFault::Truncated => AnchorCause::Truncated,
            WireFault::NonCanonical => AnchorCause::NonCanonical,
        };
        AnchorsFault::Anchor { index, cause }
    }

    /// Returns the fault of a file whose anchor of an index has an address with this fault.
    pub(crate) fn of_address(index: u32, fault: AddressFault) -> AnchorsFault
        ensures { result ≡ of_address index fault }
    {
        let cause = match fault {
            AddressFault::Truncated => AnchorCause::Truncated,
            AddressFault::NonCanonical => AnchorCause::NonCanonical,
            AddressFault::TooLong => AnchorCause::TooLong,
            AddressFault::BadLength => AnchorCause::BadLength,
        };
        AnchorsFault::Anchor { index, cause }
    }
}

impl From<AllocError> for AnchorsFault {
    ghost from_gives = { λ _ e. e ≡ Memory };

    fn from(_error: AllocError) -> AnchorsFault {
        AnchorsFault::Memory
    }
}

impl<T: Drop> From<AllocFailed<T>> for AnchorsFault {
    ghost from_gives = { λ _ e. e ≡ Memory };

    fn from(_error: AllocFailed<T>) -> AnchorsFault {
        AnchorsFault::Memory
    }
}
