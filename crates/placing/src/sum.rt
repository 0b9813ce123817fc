//! `SumRule` and `sum_by`: the checksum of an asmap, over its bytes or over its bits as Bitcoin
//! Core computes it.
//!
//! The rule of Bitcoin Core 24 to 30 is from memory of `GetAsmapChecksum` and of how a vector of
//! bits is serialized; the checksum that its functional test feature_asmap.py states comes out.

ghost use Rattle.std.specs.Prelude.{◌≡◌, ℕ, ◌<◌, ◌^◌, List, ◌++◌, map};
ghost use Rattle.std.specs.Int.{from_bool};
ghost use Rattle.bit_code.specs.Coder.{has_bit, low_digits};
ghost use Rattle.asmap_vm.specs.Held.{bytes_held};
ghost use Rattle.wire_num.specs.CompactSize.{compact_size};
ghost use Rattle.placing.specs.Places.{bit_bytes, double_sha256, sized, sum_by};
ghost use Rattle.placing.specs.Inside.{map_of};

use crate::hash::double_sha256;
use asmap_vm::Sane;
use sha2::{Digest, Sha256};

/// What of an asmap's file is hashed for its checksum.
#[derive(Clone, Copy)]
pub enum SumRule {
    /// Its bytes.
    Bytes,
    /// Its bits, one byte each, after their number: `NetGroupManager::GetAsmapChecksum` of Bitcoin
    /// Core 24 to 30, which serializes the asmap as a `std::vector<bool>` (from memory).
    Bits,
}

/// Returns the checksum of an asmap by a rule, 32 zero bytes if there is none.
pub fn sum_by(rule: SumRule, asmap: Option<Sane<'_>>) -> [u8; 32]
    ensures { result ≡ sum_by rule (map_of asmap.entry) }
{
    let Some(asmap) = asmap else {
        return [0; 32];
    };
    match rule {
        SumRule::Bytes => double_sha256(asmap.code()),
        SumRule::Bits => hash_of_bits(asmap),
    }
}

/// Returns the double hash of a file's bits, one byte each, after their number.
#[tactic(auto, unfolding(crate::specs::Places::double_sha256))]
fn hash_of_bits(asmap: Sane<'_>) -> [u8; 32]
    ensures { result ≡ double_sha256 (sized (bit_bytes (bytes_held asmap.entry))) }
{
    let bytes = asmap.code();
    let mut hasher = Sha256::new();
    add_size(&mut hasher, 8 * bytes.len());
    for i in 0..bytes.len() {
        hasher.update(bits_of(bytes[i]));
    }
    Sha256::digest(hasher.finalize().as_slice())
}

/// Feeds the hasher a number as a CompactSize.
#[tactic(auto, unfolding(wire_num::specs::CompactSize::compact_size))]
fn add_size(hasher: &mut Sha256, size: usize)
    requires { size < 2 ^ 32 }
    ensures { (m : List ℕ) → ⟦<Sha256 as Digest>⟧.holds hasher.old m
        → ⟦<Sha256 as Digest>⟧.holds hasher.new (m ++ compact_size size) }
{
    if size < 253 {
        hasher.update([size as u8]);
    } else if size < 0x1_0000 {
        let [a, b] = (size as u16).to_le_bytes();
        hasher.update([253, a, b]);
    } else {
        let [a, b, c, d] = (size as u32).to_le_bytes();
        hasher.update([254, a, b, c, d]);
    }
}

/// Returns the bits of a byte, the low one first, each as 0 or 1.
#[tactic(auto, unfolding(bit_code::specs::Coder::low_digits))]
fn bits_of(byte: u8) -> [u8; 8]
    ensures { result ≡ map from_bool (low_digits 8 byte) }
{
    [
        bit_of(byte, 0),
        bit_of(byte, 1),
        bit_of(byte, 2),
        bit_of(byte, 3),
        bit_of(byte, 4),
        bit_of(byte, 5),
        bit_of(byte, 6),
        bit_of(byte, 7),
    ]
}

/// Returns bit k of a byte, counted from the low one, as 0 or 1.
fn bit_of(byte: u8, k: u8) -> u8
    requires { k < 8 }
    ensures { result ≡ from_bool (has_bit byte k) }
{
    u8::from((byte >> k) & 1 == 1)
}
