//! What an export returns: ADDRMAN_OK and the others of addrman.h, which says when each comes.

/// The call did what it is for.
pub const OK: u32 = 0;

/// The handle is not open.
pub const CLOSED: u32 = 1;

/// Out of memory.
pub const MEMORY: u32 = 2;

/// An argument has no meaning.
pub const ARGUMENT: u32 = 3;

/// 2^62 records were made.
pub const FULL: u32 = 4;

/// There are fewer random words than the call needs.
pub const SHORT_WORDS: u32 = 5;

/// The output has less room than the result needs.
pub const SHORT_BUFFER: u32 = 6;

/// The bytes are not what they are to be.
pub const REFUSED: u32 = 7;

/// There is nothing to return.
pub const NONE: u32 = 8;

/// The random words were used up before a record was taken.
pub const EXHAUSTED: u32 = 9;
