//! Takes a value from the start of a slice and shortens the slice: `take_byte`, `take_bytes`,
//! `take_le32`, `take_compact` and others.

ghost use Rattle.std.specs.Prelude.{length};
ghost use Rattle.std.specs.Int.{w16, w32, w64};
ghost use Rattle.wire_num.specs.Readings.{Gives, bytes_at, byte_at, le_at, be_at, compact_at};

use crate::compact::read_compact;
use crate::fault::WireFault;
use crate::numbers::{read_be16, read_le32, read_le64};

/// Takes `count` bytes.
pub fn take_bytes(bytes: &[u8], count: usize) -> Result<(&[u8], &[u8]), WireFault>
    ensures { Gives (λ x. (x.0.now, x.1.now)) result (bytes_at count bytes.now) }
{
    if bytes.len() < count {
        return Err(WireFault::Truncated);
    }
    Ok(bytes.split_at(count))
}

/// Takes one byte.
pub fn take_byte(bytes: &[u8]) -> Result<(u8, &[u8]), WireFault>
    ensures { Gives (λ x. (x.0, x.1.now)) result (byte_at bytes.now) }
{
    match bytes {
        [] => Err(WireFault::Truncated),
        [byte, rest @ ..] => Ok((*byte, rest)),
    }
}

/// Takes a number of four bytes, low byte first.
pub fn take_le32(bytes: &[u8]) -> Result<(u32, &[u8]), WireFault>
    ensures { Gives (λ x. (x.0, x.1.now)) result (le_at w32 bytes.now) }
{
    let number = read_le32(bytes, 0).ok_or(WireFault::Truncated)?;
    Ok((number, &bytes[4..]))
}

/// Takes a number of eight bytes, low byte first.
pub fn take_le64(bytes: &[u8]) -> Result<(u64, &[u8]), WireFault>
    ensures { Gives (λ x. (x.0, x.1.now)) result (le_at w64 bytes.now) }
{
    let number = read_le64(bytes, 0).ok_or(WireFault::Truncated)?;
    Ok((number, &bytes[8..]))
}

/// Takes a number of two bytes, high byte first.
pub fn take_be16(bytes: &[u8]) -> Result<(u16, &[u8]), WireFault>
    ensures { Gives (λ x. (x.0, x.1.now)) result (be_at w16 bytes.now) }
{
    let number = read_be16(bytes, 0).ok_or(WireFault::Truncated)?;
    Ok((number, &bytes[2..]))
}

/// Takes a CompactSize, in the fewest bytes that its value fits.
pub fn take_compact(bytes: &[u8]) -> Result<(u64, &[u8]), WireFault>
    ensures { Gives (λ x. (x.0, x.1.now)) result (compact_at bytes.now) }
{
    let (number, length) = read_compact(bytes)?;
    Ok((number, &bytes[length..]))
}
