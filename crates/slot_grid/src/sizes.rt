//! The number of buckets and slots of each table: `NEW_BUCKETS`, `TRIED_BUCKETS`, `SLOTS` and
//! `ALL_SLOTS`.

/// The buckets of the new table (`ADDRMAN_NEW_BUCKET_COUNT` in addrman_impl.h of Bitcoin Core).
pub const NEW_BUCKETS: u16 = 1024;
/// The buckets of the tried table (`ADDRMAN_TRIED_BUCKET_COUNT`).
pub const TRIED_BUCKETS: u16 = 256;
/// The slots of a bucket of either table (`ADDRMAN_BUCKET_SIZE`).
pub const SLOTS: u8 = 64;
/// The slots of the new table.
pub const NEW_SLOTS: usize = NEW_BUCKETS as usize * SLOTS as usize;
/// The slots of the tried table.
pub const TRIED_SLOTS: usize = TRIED_BUCKETS as usize * SLOTS as usize;
/// The buckets of both tables.
pub(crate) const BUCKETS: usize = NEW_BUCKETS as usize + TRIED_BUCKETS as usize;
/// The slots of both tables.
pub const ALL_SLOTS: usize = BUCKETS * SLOTS as usize;
