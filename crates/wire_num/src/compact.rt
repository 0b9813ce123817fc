//! `read_compact` and `put_compact`: a CompactSize of 1, 3, 5 or 9 bytes, in its shortest encoding.

ghost use Rattle.std.specs.Prelude.{◌≡◌, ◌↔◌, ℕ, ◌^◌, ◌<◌, ◌≤◌, List, ◌++◌, length, take, OnOk, OnErr, IfOk, IfNone, IfSome, Ok, Err, nat_lt, if◌then◌else◌};
ghost use Rattle.wire_num.specs.declared.fault.WireFault.TheVariants.{Truncated, NonCanonical};
ghost use Rattle.wire_num.specs.CompactSize.{compact_size};
ghost use Rattle.wire_num.specs.Fields.{CompactFault};
ghost use Rattle.wire_num.specs.declared.fault.WireFault.{WireFault};
ghost use Rattle.wire_num.specs.Readings.{GivesLength, compact_at};

use crate::fault::WireFault;
use crate::numbers::{read_le16, read_le32, read_le64};
use memory::Memory;

/// Returns the number with `length`, the bytes that it takes together with the byte before it. A
/// number below `least` fits in fewer bytes, and is rejected.
fn in_width(number: Option<u64>, least: u64, length: usize) -> Result<(u64, usize), WireFault>
    ensures cut { IfNone number (result ≡ Err Truncated) }
    ensures found { IfSome number (λ n. result ≡
        (if nat_lt n least then Err NonCanonical else Ok (n, length))) }
{
    let number = number.ok_or(WireFault::Truncated)?;
    if number < least {
        return Err(WireFault::NonCanonical);
    }
    Ok((number, length))
}

/// Returns the CompactSize at the start of the bytes and its length in bytes, or the first fault.
#[tactic(auto, unfolding(crate::specs::Readings::compact_at))]
fn compact_of(bytes: &[u8]) -> Result<(u64, usize), WireFault>
    ensures { GivesLength result bytes.now (compact_at bytes.now) }
{
    match bytes {
        [] => Err(WireFault::Truncated),
        [253, rest @ ..] => in_width(read_le16(rest, 0).map(u64::from), 253, 3),
        [254, rest @ ..] => in_width(read_le32(rest, 0).map(u64::from), 0x1_0000, 5),
        [255, rest @ ..] => in_width(read_le64(rest, 0), 0x1_0000_0000, 9),
        [first, ..] => Ok((u64::from(*first), 1)),
    }
}

/// Returns the CompactSize at the start of the bytes and its length in bytes (`ReadCompactSize` in
/// serialize.h of Bitcoin Core, without its limit on the value). Bytes may follow it.
pub fn read_compact(bytes: &[u8]) -> Result<(u64, usize), WireFault>
    ensures found { IfOk result (λ x. (x.1 ≤ length bytes.now) ×
        (take x.1 bytes.now ≡ compact_size x.0)) }
    ensures only { (n : ℕ) (rest : List ℕ) → n < 2 ^ 64 → bytes.now ≡ compact_size n ++ rest →
        result ≡ Ok (n, length (compact_size n)) }
    ensures cause { (fault : WireFault) → (result ≡ Err fault) ↔ CompactFault bytes.now fault }
    ensures exact { GivesLength result bytes.now (compact_at bytes.now) }
{
    compact_of(bytes)
}

/// Appends a number as a CompactSize, in the fewest bytes that it fits (`WriteCompactSize` in
/// serialize.h of Bitcoin Core).
#[tactic(auto, unfolding(crate::specs::CompactSize::compact_size))]
pub fn put_compact(value: u64, out: &mut Vec<u8>) -> Result<(), Memory>
    ensures found { OnOk result (out.new.items ≡ out.old.items ++ compact_size value) }
    ensures err { OnErr result (out.new.items ≡ out.old.items) }
{
    if value < 253 {
        out.extend_from_slice(&[value as u8])?;
    } else if value < 0x1_0000 {
        let [a, b] = (value as u16).to_le_bytes();
        out.extend_from_slice(&[253, a, b])?;
    } else if value < 0x1_0000_0000 {
        let [a, b, c, d] = (value as u32).to_le_bytes();
        out.extend_from_slice(&[254, a, b, c, d])?;
    } else {
        let [a, b, c, d, e, f, g, h] = value.to_le_bytes();
        out.extend_from_slice(&[255, a, b, c, d, e, f, g, h])?;
    }
    Ok(())
}
