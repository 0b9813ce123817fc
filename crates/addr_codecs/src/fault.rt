//! `MsgFault`: why a message cannot be read. It is too short, has too many entries or bytes after
//! them, or has a faulty address.

ghost use Rattle.std.specs.Prelude.{◌≡◌};
ghost use Rattle.addr_codecs.specs.Faults.{of_wire, of_address};
ghost use Rattle.addr_codecs.specs.declared.fault.MsgFault.TheVariants.{Memory};

use crate::address_fault::AddressFault;
use std::alloc::{AllocError, AllocFailed};
use thiserror::Error;
use wire_num::WireFault;

/// Why a message cannot be read: its first fault from the start.
#[derive(Clone, Copy, Debug, PartialEq, Eq, Drop, Error)]
pub enum MsgFault {
    /// The bytes end before a field does.
    #[error("truncated")]
    Truncated = 1,
    /// A CompactSize has more bytes than its value needs.
    #[error("non-canonical")]
    NonCanonical = 2,
    /// The count is above `MAX_ENTRIES`.
    #[error("too-many")]
    TooMany = 3,
    /// The network of an address has addresses of another length.
    #[error("bad-length")]
    BadLength = 4,
    /// An address has more than 512 bytes.
    #[error("too-long")]
    TooLong = 5,
    /// Bytes are left after the last entry.
    #[error("trailing")]
    Trailing = 6,
    /// Out of memory.
    #[error("out of memory")]
    Memory = 7,
}

impl From<WireFault> for MsgFault {
    ghost from_gives = { λ fault e. e ≡ of_wire fault };

    fn from(fault: WireFault) -> MsgFault {
        match fault {
            WireFault::Truncated => MsgFault::Truncated,
            WireFault::NonCanonical => MsgFault::NonCanonical,
        }
    }
}

impl From<AddressFault> for MsgFault {
    ghost from_gives = { λ fault e. e ≡ of_address fault };

    fn from(fault: AddressFault) -> MsgFault {
        match fault {
            AddressFault::Truncated => MsgFault::Truncated,
            AddressFault::NonCanonical => MsgFault::NonCanonical,
            AddressFault::TooLong => MsgFault::TooLong,
            AddressFault::BadLength => MsgFault::BadLength,
        }
    }
}

impl From<AllocError> for MsgFault {
    ghost from_gives = { λ _ e. e ≡ Memory };

    fn from(_error: AllocError) -> MsgFault {
        MsgFault::Memory
    }
}

impl<T: Drop> From<AllocFailed<T>> for MsgFault {
    ghost from_gives = { λ _ e. e ≡ Memory };

    fn from(_error: AllocFailed<T>) -> MsgFault {
        MsgFault::Memory
    }
}
