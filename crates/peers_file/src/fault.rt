//! `FileFault`, `RecordCause` and `Which`: the first fault of a file and its printed word.

ghost use Rattle.std.specs.Prelude.{◌≡◌};
ghost use Rattle.peers_file.specs.FaultTexts.{file_fault_text};
ghost use Rattle.peers_file.specs.Faults.{of_field, of_number, of_address};
ghost use Rattle.peers_file.specs.declared.fault.FileFault.TheVariants.{Memory};

use addr_codecs::AddressFault;
use std::alloc::{AllocError, AllocFailed};
use thiserror::Error;
use wire_num::WireFault;

/// The records of a table.
#[derive(Clone, Copy, Debug, PartialEq, Eq)]
pub enum Which {
    New,
    Tried,
}

/// What is wrong with a record.
#[derive(Clone, Copy, Debug, PartialEq, Eq)]
pub enum RecordCause {
    /// It is laid out in the way of another format.
    Version,
    /// A CompactSize has more bytes than its value needs.
    NonCanonical,
    /// The network of an address has addresses of another length.
    BadLength,
    /// An address has more than 512 bytes.
    TooLong,
}

/// Why a file is refused: its first fault. Indexes count the records from 0, the new ones first.
#[derive(Clone, Copy, Debug, PartialEq, Eq, Drop, Error)]
pub enum FileFault {
    /// The bytes end before a field does.
    #[error("truncated")]
    Truncated,
    /// The file is that of another chain, or of another program.
    #[error("bad-magic")]
    BadMagic,
    /// The last 32 bytes are not the double SHA-256 of the bytes before them.
    #[error("bad-sum")]
    BadSum,
    /// The format cannot be read by a program that reads formats up to 4.
    #[error("compat")]
    Compat {
        byte: u8,
    },
    /// The format is 0 or above 4.
    #[error("version")]
    Version {
        byte: u8,
    },
    /// The number of records is negative or too large.
    #[error("count")]
    Count {
        which: Which,
        value: i32,
    },
    #[error("record")]
    Record {
        index: u32,
        cause: RecordCause,
    },
    /// The number of buckets is negative or too large.
    #[error("buckets")]
    Buckets {
        value: i32,
    },
    /// The last success of a record is before 1970 or later than a time can be.
    #[error("time")]
    Time {
        index: u32,
    },
    /// The attempts of a record are negative.
    #[error("attempts")]
    Attempts {
        index: u32,
    },
    /// Bytes are left after the last field.
    #[error("trailing")]
    Trailing,
    /// The file has more than 33,554,432 bytes.
    #[error("too-large")]
    TooLarge {
        /// The length of the file in bytes.
        size: u64,
    },
    #[error("out of memory")]
    Memory,
}

impl FileFault {
    /// Returns the word for the fault, as it is printed.
    pub fn word(&self) -> &'static [u8]
        ensures { result.now ≡ file_fault_text self.now }
    {
        match self {
            FileFault::Truncated => b"truncated",
            FileFault::BadMagic => b"bad-magic",
            FileFault::BadSum => b"bad-sum",
            FileFault::Compat { .. } => b"compat",
            FileFault::Version { .. } => b"version",
            FileFault::Count { .. } => b"count",
            FileFault::Record { .. } => b"record",
            FileFault::Buckets { .. } => b"buckets",
            FileFault::Time { .. } => b"time",
            FileFault::Attempts { .. } => b"attempts",
            FileFault::Trailing => b"trailing",
            FileFault::TooLarge { .. } => b"too-large",
            FileFault::Memory => b"out of memory",
        }
    }

    /// Returns the fault of a file whose CompactSize has this fault, in the record of an index.
    pub(crate) fn of_number(index: u32, fault: WireFault) -> FileFault
        ensures { result ≡ of_number index fault }
    {
        match fault {
            WireFault::Truncated => FileFault::Truncated,
            WireFault::NonCanonical => FileFault::Record {
                index,
                cause: RecordCause::NonCanonical,
            },
        }
    }

    /// Returns the fault of a file whose address has this fault, in the record of an index.
    pub(crate) fn of_address(index: u32, fault: AddressFault) -> FileFault
        ensures { result ≡ of_address index fault }
    {
        let cause = match fault {
            AddressFault::Truncated => return FileFault::Truncated,
            AddressFault::NonCanonical => RecordCause::NonCanonical,
            AddressFault::TooLong => RecordCause::TooLong,
            AddressFault::BadLength => RecordCause::BadLength,
        };
        FileFault::Record { index, cause }
    }
}

/// The fault of a field that has no CompactSize.
impl From<WireFault> for FileFault {
    ghost from_gives = { λ fault e. e ≡ of_field fault };

    fn from(_fault: WireFault) -> FileFault {
        FileFault::Truncated
    }
}

impl From<AllocError> for FileFault {
    ghost from_gives = { λ _ e. e ≡ Memory };

    fn from(_error: AllocError) -> FileFault {
        FileFault::Memory
    }
}

impl<T: Drop> From<AllocFailed<T>> for FileFault {
    ghost from_gives = { λ _ e. e ≡ Memory };

    fn from(_error: AllocFailed<T>) -> FileFault {
        FileFault::Memory
    }
}
