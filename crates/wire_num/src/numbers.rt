//! Reads a number at an offset in bytes: `read_le16`, `read_le32`, `read_le64` and `read_be16`.

ghost use Rattle.std.specs.Prelude.{◌≡◌};
ghost use Rattle.wire_num.specs.Numbers.{le16_at, le32_at, le64_at, be16_at};

/// Returns the number of the two bytes from `at` on, low byte first, or `None` if fewer are there.
pub(crate) fn read_le16(bytes: &[u8], at: usize) -> Option<u16>
    ensures { result ≡ le16_at bytes.now at }
{
    let (number, _) = bytes.get(at..)?.split_first_chunk::<2>()?;
    Some(u16::from_le_bytes(*number))
}

/// Returns the number of the four bytes from `at` on, low byte first, or `None` if fewer are there.
pub fn read_le32(bytes: &[u8], at: usize) -> Option<u32>
    ensures { result ≡ le32_at bytes.now at }
{
    let (number, _) = bytes.get(at..)?.split_first_chunk::<4>()?;
    Some(u32::from_le_bytes(*number))
}

/// Returns the number of the eight bytes from `at` on, low byte first, or `None` if fewer are
/// there.
pub fn read_le64(bytes: &[u8], at: usize) -> Option<u64>
    ensures { result ≡ le64_at bytes.now at }
{
    let (number, _) = bytes.get(at..)?.split_first_chunk::<8>()?;
    Some(u64::from_le_bytes(*number))
}

/// Returns the number of the two bytes from `at` on, high byte first, or `None` if fewer are there.
pub fn read_be16(bytes: &[u8], at: usize) -> Option<u16>
    ensures { result ≡ be16_at bytes.now at }
{
    let (number, _) = bytes.get(at..)?.split_first_chunk::<2>()?;
    Some(u16::from_be_bytes(*number))
}
