//! `double_sha256`, `cheap` (its first eight bytes), and the lengths that are hashed before bytes.

ghost use Rattle.std.specs.Prelude.{◌≡◌, ◌++◌, List, ℕ, ◌<◌, length};
ghost use Rattle.placing.specs.Places.{double_sha256, cheap_hash, sized};

use sha2::{Digest, Sha256};

/// Returns SHA-256 of SHA-256 of the bytes (FIPS 180-4).
#[tactic(auto, unfolding(crate::specs::Places::double_sha256))]
pub fn double_sha256(bytes: &[u8]) -> [u8; 32]
    ensures { result ≡ double_sha256 bytes.now }
{
    Sha256::digest(Sha256::digest(bytes).as_slice())
}

/// Returns the first eight bytes of the double hash as a number, the low byte first
/// (`HashWriter::GetCheapHash` in hash.h of Bitcoin Core).
pub fn cheap(bytes: &[u8]) -> u64
    ensures { result ≡ cheap_hash bytes.now }
{
    let mut hasher = Sha256::new();
    hasher.update(bytes);
    finish(hasher)
}

/// Feeds the hasher the length of the bytes, and then the bytes.
#[tactic(auto, unfolding(wire_num::specs::CompactSize::compact_size))]
pub(crate) fn add_sized(hasher: &mut Sha256, bytes: &[u8])
    requires { length bytes.now < 253 }
    ensures { (m : List ℕ) → ⟦<Sha256 as Digest>⟧.holds hasher.old m
        → ⟦<Sha256 as Digest>⟧.holds hasher.new (m ++ sized bytes.now) }
{
    hasher.update([bytes.len() as u8]);
    hasher.update(bytes);
}

/// Returns the hash of the bytes that the hasher was fed.
#[tactic(auto, unfolding(crate::specs::Places::cheap_hash, crate::specs::Places::double_sha256))]
pub(crate) fn finish(hasher: Sha256) -> u64
    ensures { (m : List ℕ) → ⟦<Sha256 as Digest>⟧.holds hasher m → result ≡ cheap_hash m }
{
    let [a, b, c, d, e, f, g, h, ..] = Sha256::digest(hasher.finalize().as_slice());
    u64::from_le_bytes([a, b, c, d, e, f, g, h])
}
