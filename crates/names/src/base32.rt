//! Base 32: letters from bytes, and bytes from letters.

ghost use Rattle.std.specs.Prelude.{◌≡◌, ◌+◌, ◌*◌, ◌<◌, ◌≤◌, ◌++◌, length};
ghost use Rattle.arrayvec.specs.ArrayVec.{array_vec_len};
ghost use Rattle.names.specs.Base32.{letter, letters, base32};
ghost use Rattle.names.specs.Inside.{value_of, five_bytes, decoded};

use arrayvec::ArrayVec;
use net_addr::append;

/// The letters of base 32, in lower case.
const ALPHABET: [u8; 32] = *b"abcdefghijklmnopqrstuvwxyz234567";

/// Returns the letter of the low five bits of a number.
fn letter(number: u64) -> u8
    ensures { result ≡ letter number }
{
    ALPHABET[(number % 32) as usize]
}

/// Returns the eight letters of five bytes.
fn letters(a: u8, b: u8, c: u8, d: u8, e: u8) -> [u8; 8]
    ensures { result ≡ letters a b c d e }
{
    let high = u64::from(a) * 65536 + u64::from(b) * 256 + u64::from(c);
    let n = high * 65536 + u64::from(d) * 256 + u64::from(e);
    [
        letter(n / 34359738368),
        letter(n / 1073741824),
        letter(n / 33554432),
        letter(n / 1048576),
        letter(n / 32768),
        letter(n / 1024),
        letter(n / 32),
        letter(n),
    ]
}

/// Appends the letters of fewer than five bytes.
#[tactic(auto, unfolding(crate::specs::Base32::base32))]
fn append_end(bytes: &[u8], text: &mut ArrayVec<u8, 56>)
    requires few { length bytes.now < 5 }
    requires room { 5 * array_vec_len text.old + 8 * length bytes.now ≤ 280 }
    ensures { text.new.items ≡ text.old.items ++ base32 bytes.now }
{
    match bytes {
        [a] => append(text, &letters(*a, 0, 0, 0, 0)[..2]),
        [a, b] => append(text, &letters(*a, *b, 0, 0, 0)[..4]),
        [a, b, c] => append(text, &letters(*a, *b, *c, 0, 0)[..5]),
        [a, b, c, d] => append(text, &letters(*a, *b, *c, *d, 0)[..7]),
        _ => {}
    }
}

/// Returns the letters of at most 35 bytes.
pub(crate) fn encode(bytes: &[u8]) -> ArrayVec<u8, 56>
    requires { length bytes.now ≤ 35 }
    ensures { result.items ≡ base32 bytes.now }
{
    let mut text = ArrayVec::new();
    let mut rest = bytes;
    while let [a, b, c, d, e, more @ ..] = rest {
        append(&mut text, &letters(*a, *b, *c, *d, *e));
        rest = more;
    }
    append_end(rest, &mut text);
    text
}

/// Returns the value of a letter in lower case, and 0 for other bytes.
fn value_of(letter: u8) -> u64
    ensures value { result ≡ value_of letter }
    ensures small { result < 32 }
{
    match letter {
        b'2'..=b'7' => u64::from(letter - 24),
        b'a'..=b'z' => u64::from(letter - 97),
        _ => 0,
    }
}

/// Returns the five bytes of 40 bits.
fn five_bytes(bits: u64) -> [u8; 5]
    ensures { result ≡ five_bytes bits }
{
    [
        (bits / 4294967296 % 256) as u8,
        (bits / 16777216 % 256) as u8,
        (bits / 65536 % 256) as u8,
        (bits / 256 % 256) as u8,
        (bits % 256) as u8,
    ]
}

/// Returns the number of four letters, which has 20 bits.
fn half(s: u8, t: u8, u: u8, v: u8) -> u64
    ensures value { result ≡ ((value_of s * 32 + value_of t) * 32 + value_of u) * 32 + value_of v }
    ensures small { result < 1048576 }
{
    ((value_of(s) * 32 + value_of(t)) * 32 + value_of(u)) * 32 + value_of(v)
}

/// Returns the bytes that the letters encode. If they encode none, it returns some other bytes, so
/// the caller encodes them again and compares.
pub(crate) fn decode(letters: &[u8; 64]) -> ArrayVec<u8, 40>
    ensures items { result.items ≡ decoded letters.now }
    ensures len { array_vec_len result ≡ 40 }
{
    let mut bytes = ArrayVec::new();
    let mut rest = letters.as_slice();
    while let [s, t, u, v, w, x, y, z, more @ ..] = rest {
        let bits = half(*s, *t, *u, *v) * 1048576 + half(*w, *x, *y, *z);
        append(&mut bytes, &five_bytes(bits));
        rest = more;
    }
    bytes
}
