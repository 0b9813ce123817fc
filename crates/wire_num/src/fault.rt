//! `WireFault`: the bytes end too early, or a CompactSize is longer than needed.

/// Why a field cannot be read.
#[derive(Clone, Copy, Debug, PartialEq, Eq, Drop)]
pub enum WireFault {
    /// The bytes end before the field does.
    Truncated = 1,
    /// A CompactSize has more bytes than its value needs.
    NonCanonical = 2,
}
