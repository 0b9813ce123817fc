//! The calls `coded`, `coded-many`, `coded-at` and `coded-bits`.

ghost use Rattle.bit_code.specs.Coder.{HasValue};

use crate::fields::RowFields;
use crate::text::{bytes_of, hex_text, owned};
use crate::unread::Unread;
use bit_code::{BitFront, Bits, Coder, MAX_ASMAP, read_number};
use std::alloc::Global;

/// Puts the encoding of a value of the coder before the bits that are there.
fn put(out: &mut BitFront, coder: Coder, value: u32) -> Result<(), Unread>
    requires { HasValue coder value }
{
    match out.put_number_front(coder, value) {
        Ok(()) => Ok(()),
        Err(_) => Err(Unread::Memory),
    }
}

/// Puts two returns, the second first: of 1 and of 2.
#[tactic(auto, unfolding(bit_code::specs::Coder::sizes, bit_code::specs::Coder::values_of))]
fn put_returns(out: &mut BitFront) -> Result<(), Unread> {
    put(out, Coder::Asn, 2)?;
    put(out, Coder::Kind, 0)?;
    put(out, Coder::Asn, 1)?;
    put(out, Coder::Kind, 0)
}

/// Puts a jump over 17 bits.
#[tactic(auto, unfolding(bit_code::specs::Coder::sizes, bit_code::specs::Coder::values_of))]
fn put_jump(out: &mut BitFront) -> Result<(), Unread> {
    put(out, Coder::Jump, 17)?;
    put(out, Coder::Kind, 1)
}

/// `coded`: how many bits two returns have and how many these with a jump over the first, and the
/// bytes: the file of `::/1 AS1` and `8000::/1 AS2`.
fn coded(alloc: Global) -> Result<String, Unread> {
    let mut out = BitFront::make(alloc);
    put_returns(&mut out)?;
    let returns = out.len();
    put_jump(&mut out)?;
    let bits = out.len();
    let bytes = hex_text(alloc, out.into_bytes().as_slice())?;
    Ok(format!(in alloc; "{returns} {bits} {bytes}")?)
}

/// Puts as many numbers of 16 bits.
#[tactic(auto, unfolding(bit_code::specs::Coder::sizes, bit_code::specs::Coder::values_of))]
fn put_many(out: &mut BitFront, count: u32) -> Result<(), Unread> {
    for _ in 0..count {
        put(out, Coder::Asn, 1)?;
    }
    Ok(())
}

/// `coded-many COUNT`: how many bits and bytes as many numbers of 16 bits have.
fn many(alloc: Global, count: u32) -> Result<String, Unread> {
    let mut out = BitFront::make(alloc);
    put_many(&mut out, count)?;
    let bits = out.len();
    Ok(format!(in alloc; "{bits} {}", out.into_bytes().len())?)
}

/// Returns the coder of a name.
fn coder_of(name: &str) -> Result<Coder, Unread> {
    match name {
        "kind" => Ok(Coder::Kind),
        "asn" => Ok(Coder::Asn),
        "match" => Ok(Coder::Match),
        "jump" => Ok(Coder::Jump),
        _ => Err(Unread::Form),
    }
}

/// Returns the number of the coder at the offset, and the offset after it.
fn number_at(alloc: Global, bits: &Bits<'_>, at: usize, coder: Coder) -> Result<String, Unread> {
    if at > bits.len() {
        return Err(Unread::Unmet);
    }
    match read_number(bits, at, coder) {
        Some((number, next)) => Ok(format!(in alloc; "{number} {next}")?),
        None => owned(alloc, "none"),
    }
}

/// `coded-at CODER OFFSET HEX`: a number in the bits of these bytes, and the offset after it.
fn read_at(alloc: Global, fields: &mut RowFields<'_>) -> Result<String, Unread> {
    let (coder, at) = (coder_of(fields.word())?, fields.number()?);
    let bytes = bytes_of(alloc, fields.word())?;
    if bytes.len() > MAX_ASMAP {
        return Err(Unread::Unmet);
    }
    number_at(alloc, &Bits::of(bytes.as_slice()), at as usize, coder)
}

/// `coded-bits HEX`: how many bits these bytes have, and whether the first is set.
fn bits(alloc: Global, digits: &str) -> Result<String, Unread> {
    let bytes = bytes_of(alloc, digits)?;
    if bytes.is_empty() || bytes.len() > MAX_ASMAP {
        return Err(Unread::Unmet);
    }
    let bits = Bits::of(bytes.as_slice());
    Ok(format!(in alloc; "{} {}", bits.len(), bits.get(0))?)
}

/// Answers the calls above.
pub(crate) fn answer(alloc: Global, name: &str, arguments: &str) -> Result<String, Unread> {
    let mut fields = RowFields::of(arguments);
    match name {
        "coded" => coded(alloc),
        "coded-many" => many(alloc, fields.small()?),
        "coded-at" => read_at(alloc, &mut fields),
        "coded-bits" => bits(alloc, arguments),
        _ => Err(Unread::Form),
    }
}
