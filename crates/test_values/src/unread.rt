//! `Unread`: why a call is not made.

use std::alloc::{AllocError, AllocFailed};

/// Why a call is not made.
#[derive(Clone, Copy, Debug)]
pub(crate) enum Unread {
    /// The line is no call.
    Form,
    /// The call's conditions are not met.
    Unmet,
    /// Out of memory.
    Memory,
}

impl From<AllocError> for Unread {
    fn from(_: AllocError) -> Unread {
        Unread::Memory
    }
}

impl<T: Drop> From<AllocFailed<T>> for Unread {
    fn from(_: AllocFailed<T>) -> Unread {
        Unread::Memory
    }
}
