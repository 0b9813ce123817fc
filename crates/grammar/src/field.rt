//! Reads one field: a decimal number in a range, hexadecimal bytes, or one of two keywords.

ghost use Rattle.std.specs.Prelude.{◌≡◌, ◌≢◌, ◌≤◌, ◌⊎◌, ℕ, List, decimal, IfOk, IfSome, Some, Ok, Err};
ghost use Rattle.grammar.specs.Fields.{Means, Number, Either, TheNumber, TheChoice, IsFieldFault, IsHex};

use crate::LineFault;
use hex::FromHexError;
use host_io::Bytes;
use net_addr::parse_number;
use std::alloc::Global;

/// Reads a number in decimal digits, or returns `None` if the text is no number or the number is
/// above `max`. A sign or a leading zero is refused.
pub fn read_decimal(text: &[u8], max: u64) -> Option<u64>
    ensures found { IfSome result (λ n. (n ≤ max) × (text.now ≡ decimal n)) }
    ensures only { (n : ℕ) → n ≤ max → text.now ≡ decimal n → result ≡ Some n }
{
    parse_number(text, max)
}

/// Reads a number from `min` to `max`.
pub fn read_number(text: &[u8], min: u64, max: u64) -> Result<u64, LineFault>
    ensures found { IfOk result (λ n. Means (Number min max) text.now (TheNumber n)) }
    ensures within { IfOk result (λ n. n ≤ max) }
    ensures fault { (f : LineFault) → result ≡ Err f → IsFieldFault (Number min max) text.now f }
{
    let number = parse_number(text, max).ok_or(LineFault::Number)?;
    if number < min {
        return Err(LineFault::Number);
    }
    Ok(number)
}

/// Returns `true` for the first of two keywords and `false` for the second.
pub fn read_either(text: &[u8], first: &[u8], second: &[u8]) -> Result<bool, LineFault>
    requires { first.now ≢ second.now }
    ensures found { IfOk result (λ b.
        Means (Either first.now second.now) text.now (TheChoice b)) }
    ensures fault { (f : LineFault) → result ≡ Err f →
        IsFieldFault (Either first.now second.now) text.now f }
{
    if text == first {
        Ok(true)
    } else if text == second {
        Ok(false)
    } else {
        Err(LineFault::Word)
    }
}

/// Reads bytes: `-` for none, or two hexadecimal digits a byte, in either case.
pub fn read_hex(alloc: Global, text: &[u8]) -> Result<Bytes, LineFault>
    ensures found { IfOk result (λ bytes. IsHex text.now bytes) }
    ensures only { (bytes : List ℕ) → IsHex text.now bytes →
        (result ≡ Ok bytes) ⊎ (result ≡ Err LineFault.Memory) }
    ensures fault { (f : LineFault) → result ≡ Err f →
        (f ≡ LineFault.Hex) ⊎ (f ≡ LineFault.Memory) }
{
    if text.is_empty() {
        return Err(LineFault::Hex);
    }
    if text == b"-".as_slice() {
        return Ok(Bytes::of(Vec::new(alloc)));
    }
    match hex::decode(alloc, text) {
        Ok(bytes) => Ok(Bytes::of(bytes)),
        Err(FromHexError::OutOfMemory) => Err(LineFault::Memory),
        Err(_) => Err(LineFault::Hex),
    }
}
