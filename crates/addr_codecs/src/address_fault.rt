//! `AddressFault`: why an address of an `addrv2` message cannot be read.

ghost use Rattle.std.specs.Prelude.{◌≡◌};
ghost use Rattle.addr_codecs.specs.Faults.{in_address};

use thiserror::Error;
use wire_num::WireFault;

/// Why an address of `addrv2` cannot be read: its first fault from the start.
#[derive(Clone, Copy, Debug, PartialEq, Eq, Drop, Error)]
pub enum AddressFault {
    /// The bytes end before a field does.
    #[error("truncated")]
    Truncated = 1,
    /// The length is a CompactSize of more bytes than it needs.
    #[error("non-canonical")]
    NonCanonical = 2,
    /// The address has more than 512 bytes.
    #[error("too-long")]
    TooLong = 3,
    /// The network has addresses of another length.
    #[error("bad-length")]
    BadLength = 4,
}

impl From<WireFault> for AddressFault {
    ghost from_gives = { λ fault e. e ≡ in_address fault };

    fn from(fault: WireFault) -> AddressFault {
        match fault {
            WireFault::Truncated => AddressFault::Truncated,
            WireFault::NonCanonical => AddressFault::NonCanonical,
        }
    }
}
