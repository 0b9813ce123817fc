//! `sha3_256` of a short message: its padding, lanes and digest.

ghost use Rattle.std.specs.Prelude.{◌≡◌, ◌+◌, ◌*◌, ◌≤◌, ◌<◌, length};
ghost use Rattle.names.specs.Keccak.{block_lane, lanes, padded_byte, padded_block, digest, sha3_256};

use crate::keccak::keccak_f;

/// Returns a byte of the message with its padding.
#[tactic(auto, unfolding(crate::specs::Keccak::padded_byte))]
fn padded_byte(message: &[u8], i: usize) -> u8
    requires { length message.now ≤ 135 }
    ensures { result ≡ padded_byte message.now i }
{
    if i < message.len() {
        return message[i];
    }
    let first = if i == message.len() { 6 } else { 0 };
    let last = if i == 135 { 128 } else { 0 };
    first + last
}

/// Returns the message with its padding.
fn padded(message: &[u8]) -> [u8; 136]
    requires { length message.now ≤ 135 }
    ensures { result ≡ padded_block message.now }
{
    let mut block = [0; 136];
    'bytes: for i in 0..136 {
        block[i] = padded_byte(message, i);
    }
    block
}

/// Returns the lane at an index of a block, low byte first.
#[tactic(auto, unfolding(crate::specs::Keccak::block_lane))]
fn lane(block: &[u8; 136], i: usize) -> u64
    ensures { result ≡ block_lane block.now i }
{
    if i >= 17 {
        return 0;
    }
    u64::from_le_bytes([
        block[8 * i],
        block[8 * i + 1],
        block[8 * i + 2],
        block[8 * i + 3],
        block[8 * i + 4],
        block[8 * i + 5],
        block[8 * i + 6],
        block[8 * i + 7],
    ])
}

/// Returns the lanes of a block.
fn lanes(block: &[u8; 136]) -> [u64; 25]
    ensures { result ≡ lanes block.now }
{
    let mut out = [0; 25];
    'lanes: for i in 0..25 {
        out[i] = lane(block, i);
    }
    out
}

/// Returns the first 32 bytes of a state.
fn digest(state: &[u64; 25]) -> [u8; 32]
    ensures { result ≡ digest state.now 4 }
{
    let mut out = [0; 32];
    'words: for i in 0..4 {
        out[8 * i..8 * i + 8].copy_from_slice(&state[i].to_le_bytes());
    }
    out
}

/// Returns the SHA3-256 digest of a message of at most 135 bytes.
#[tactic(auto, unfolding(crate::specs::Keccak::sha3_256))]
pub(crate) fn sha3_256(message: &[u8]) -> [u8; 32]
    requires { length message.now ≤ 135 }
    ensures { result ≡ sha3_256 message.now }
{
    digest(&keccak_f(&lanes(&padded(message))))
}
