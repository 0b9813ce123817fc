//! `Raw`, `RawRow` and `RawTable`, what a listing says; `RawFault` and `Field`, why a text is not a
//! listing.

use host_io::ListOf;
use peer_rec::FileRec;
use std::alloc::AllocFailed;

/// One of the two tables.
#[derive(Clone, Copy, Debug, PartialEq, Eq)]
pub enum RawTable {
    New,
    Tried,
}

impl RawTable {
    ghost use Rattle.std.specs.Prelude.{◌≡◌, ◌≤◌, ◌<◌};
    ghost use Rattle.raw_read.specs.Rows.{buckets_of};

    /// Returns the number of its buckets.
    pub(crate) fn buckets(self) -> u16
        ensures is { result ≡ buckets_of self }
        ensures some { 0 < result }
        ensures few { result ≤ 1024 }
    {
        match self {
            RawTable::New => slot_grid::NEW_BUCKETS,
            RawTable::Tried => slot_grid::TRIED_BUCKETS,
        }
    }
}

/// A slot of a table, and the record in it. The text does not have the last success and the tries
/// since, which are 0.
#[derive(Clone, Copy, Drop)]
pub struct RawRow {
    pub bucket: u16,
    /// The position in the bucket.
    pub position: u8,
    pub rec: FileRec,
}

/// Slots of a table with their records, by bucket and then by position.
pub type RawRows = ListOf<RawRow>;

/// The occupied slots of both tables.
#[derive(Drop)]
pub struct Raw {
    pub new: RawRows,
    pub tried: RawRows,
}

/// What a text says of a record, in the order in which it is looked for.
#[derive(Clone, Copy, Debug, PartialEq, Eq)]
pub enum Field {
    Address,
    Port,
    Services,
    Time,
    Source,
}

/// Why a text is not read as the records of both tables. The new table comes first, and in a table
/// the earlier member.
#[derive(Clone, Copy, Debug, PartialEq, Eq)]
pub enum RawFault {
    /// The bytes are no JSON text, or it nests more than 128 deep.
    Json,
    /// The value is not an object with an object each under `new` and `tried`.
    Form,
    /// The name of a member is no slot of the table, or its slot is not after that of the member
    /// before it. Members are counted from 0.
    Slot {
        table: RawTable,
        index: u64,
    },
    /// A field of the record in this slot is missing, of another type, or out of range.
    Row {
        table: RawTable,
        bucket: u16,
        position: u8,
        field: Field,
    },
    /// The text has more than `MAX_TEXT` bytes; `read_raw` never returns this.
    TooLarge,
    /// Out of memory.
    Memory,
}

impl<T: Drop> From<AllocFailed<T>> for RawFault {
    ghost use Rattle.std.specs.Prelude.{◌≡◌};
    ghost use Rattle.raw_read.specs.declared.raw.RawFault.TheVariants as fault;

    ghost from_gives = { λ _ e. e ≡ fault.Memory };

    fn from(_: AllocFailed<T>) -> RawFault {
        RawFault::Memory
    }
}
