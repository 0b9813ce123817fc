//! Packs bits into bytes: `append_bits`, `prepend_bits`, `shift_in` and `make_room`.

ghost use Rattle.std.specs.Prelude.{◌≡◌, ◌+◌, ◌-◌, ◌*◌, ◌/◌, ◌%◌, ◌^◌, ◌<◌, ◌≤◌, Bool, List, ◌++◌, length, reverse, vec_len, vec_capacity, OnOk};
ghost use Rattle.bit_code.specs.Coder.{file_bits, low_digits};
ghost use Rattle.bit_code.specs.Files.{IsFileOf};

use crate::Memory;

/// The maximum number of bytes of a list of bits. With more, the number of bits would not fit a
/// `usize`.
const MAX_BYTES: usize = usize::MAX / 16 + 1;

/// Makes room for `more` bytes.
pub(crate) fn make_room(bytes: &mut Vec<u8>, more: usize) -> Result<(), Memory>
    ensures items { bytes.new.items ≡ bytes.old.items }
    ensures len { vec_len bytes.new ≡ vec_len bytes.old }
    ensures capacity { vec_capacity bytes.old ≤ vec_capacity bytes.new }
    ensures room { OnOk result (vec_len bytes.new + more ≤ vec_capacity bytes.new) }
    ensures few { OnOk result (vec_len bytes.new + more ≤ 2 ^ 60) }
{
    if more > MAX_BYTES || bytes.len() > MAX_BYTES - more {
        return Err(Memory);
    }
    bytes.reserve(more)?;
    Ok(())
}

/// Returns the lowest `len` bits, fewer than eight.
#[inline(always)]
fn low_bits(bits: u64, len: u32) -> u8
    requires { len < 8 }
    ensures bits { low_digits len result ≡ low_digits len bits }
    ensures within { result < 2 ^ len }
{
    (bits % (1 << len)) as u8
}

/// Returns the first bits and then the last ones. In each number the first bit is the lowest.
#[inline(always)]
pub(crate) fn cat_bits(first: u64, first_len: u32, last: u64, last_len: u32) -> u64
    requires few { first_len + last_len < 64 }
    requires first { first < 2 ^ first_len }
    requires last { last < 2 ^ last_len }
    ensures bits { low_digits (first_len + last_len) result
        ≡ low_digits first_len first ++ low_digits last_len last }
    ensures within { result < 2 ^ (first_len + last_len) }
{
    first + (last << first_len)
}

/// Appends the whole bytes that `len` bits make, the first bit as the lowest. Returns the bits that
/// are left.
pub(crate) fn append_bits(bytes: &mut Vec<u8>, bits: u64, len: u32) -> u8
    requires few { len < 64 }
    requires room { vec_len bytes.old + 8 ≤ vec_capacity bytes.old }
    ensures bits { file_bits bytes.new.items ++ low_digits (len % 8) result
        ≡ file_bits bytes.old.items ++ low_digits len bits }
    ensures rest { result < 2 ^ (len % 8) }
    ensures len { vec_len bytes.new ≡ vec_len bytes.old + len / 8 }
    ensures capacity { vec_capacity bytes.new ≡ vec_capacity bytes.old }
{
    for k in 0..len / 8 {
        bytes.push_reserved(((bits >> (8 * k)) % 256) as u8);
    }
    low_bits(bits >> (len - len % 8), len % 8)
}

/// Returns the first eight of the bits of `rest` and then of a byte, and the bits that are left.
#[inline(always)]
fn join_byte(rest: u8, rest_len: u32, byte: u8) -> (u8, u8)
    requires few { rest_len < 8 }
    requires rest { rest < 2 ^ rest_len }
    ensures bits { low_digits 8 result.0 ++ low_digits rest_len result.1
        ≡ low_digits rest_len rest ++ low_digits 8 byte }
    ensures within { result.1 < 2 ^ rest_len }
{
    let bits = u16::from(rest) + (u16::from(byte) << rest_len);
    ((bits % 256) as u8, (bits >> 8) as u8)
}

/// Appends the bits of `rest` and then those of some bytes. Returns the bits that are left.
pub(crate) fn append_bytes(bytes: &mut Vec<u8>, rest: u8, rest_len: u32, more: &[u8]) -> u8
    requires few { rest_len < 8 }
    requires rest { rest < 2 ^ rest_len }
    requires room { vec_len bytes.old + length more.now + 8 ≤ vec_capacity bytes.old }
    ensures bits { file_bits bytes.new.items ++ low_digits rest_len result
        ≡ file_bits bytes.old.items ++ (low_digits rest_len rest ++ file_bits more.now) }
    ensures rest { result < 2 ^ rest_len }
    ensures len { vec_len bytes.new ≡ vec_len bytes.old + length more.now }
    ensures capacity { vec_capacity bytes.new ≡ vec_capacity bytes.old }
{
    let mut left = rest;
    for byte in more {
        let (first, next) = join_byte(left, rest_len, *byte);
        bytes.push_reserved(first);
        left = next;
    }
    left
}

/// Appends the whole bytes at the end of `len` bits, the last byte first. Returns the bits that are
/// left before them.
pub(crate) fn prepend_bits(bytes: &mut Vec<u8>, bits: u64, len: u32) -> u8
    requires few { len < 64 }
    requires room { vec_len bytes.old + 8 ≤ vec_capacity bytes.old }
    ensures bits { low_digits (len % 8) result ++ file_bits (reverse bytes.new.items)
        ≡ low_digits len bits ++ file_bits (reverse bytes.old.items) }
    ensures rest { result < 2 ^ (len % 8) }
    ensures len { vec_len bytes.new ≡ vec_len bytes.old + len / 8 }
    ensures capacity { vec_capacity bytes.new ≡ vec_capacity bytes.old }
{
    for k in 0..len / 8 {
        bytes.push_reserved(((bits >> (len - 8 - 8 * k)) % 256) as u8);
    }
    low_bits(bits, len % 8)
}

/// Puts the bits of `rest` before those of some bytes, which move up. Returns the bits that no
/// longer fit.
pub(crate) fn shift_in(bytes: &mut [u8], rest: u8, rest_len: u32) -> u8
    requires few { rest_len < 8 }
    requires rest { rest < 2 ^ rest_len }
    ensures bits { file_bits bytes.new ++ low_digits rest_len result
        ≡ low_digits rest_len rest ++ file_bits bytes.old }
    ensures rest { result < 2 ^ rest_len }
{
    let mut left = rest;
    for byte in bytes.iter_mut() {
        let (first, next) = join_byte(left, rest_len, *byte);
        *byte = first;
        left = next;
    }
    left
}

/// Returns the bytes of the file of some whole bytes and then the bits of `rest`.
pub(crate) fn closed(bytes: Vec<u8>, rest: u8, rest_len: u32) -> Vec<u8>
    requires few { rest_len < 8 }
    requires rest { rest < 2 ^ rest_len }
    requires room { 0 < rest_len → vec_len bytes < vec_capacity bytes }
    ensures { (bits : List Bool) → file_bits bytes.items ++ low_digits rest_len rest ≡ bits
        → IsFileOf bits result.items }
{
    let mut bytes = bytes;
    if rest_len > 0 {
        bytes.push_reserved(rest);
    }
    bytes
}
