//! The permutation Keccak-f of 24 rounds: `theta`, `chi`, the rotations and the round constants.

ghost use Rattle.std.specs.Prelude.{◌≡◌, ◌<◌};
ghost use Rattle.names.specs.Keccak.{parity, theta, moved, chi, round, keccak_f};

/// The rotations of the lanes, by their indexes x + 5 y.
const OFFSETS: [u32; 25] = [
    0, 1, 62, 28, 27, 36, 44, 6, 55, 20, 3, 10, 43, 25, 39, 41, 45, 15, 21, 8, 18, 2, 61, 56, 14,
];

/// What the rounds add to the first lane.
const ROUND_CONSTANTS: [u64; 24] = [
    0x0000000000000001,
    0x0000000000008082,
    0x800000000000808a,
    0x8000000080008000,
    0x000000000000808b,
    0x0000000080000001,
    0x8000000080008081,
    0x8000000000008009,
    0x000000000000008a,
    0x0000000000000088,
    0x0000000080008009,
    0x000000008000000a,
    0x000000008000808b,
    0x800000000000008b,
    0x8000000000008089,
    0x8000000000008003,
    0x8000000000008002,
    0x8000000000000080,
    0x000000000000800a,
    0x800000008000000a,
    0x8000000080008081,
    0x8000000000008080,
    0x0000000080000001,
    0x8000000080008008,
];

/// Returns the sum of a column of lanes.
#[tactic(auto, unfolding(crate::specs::Keccak::parity))]
fn parity(a: &[u64; 25], x: usize) -> u64
    requires { x < 5 }
    ensures { result ≡ parity a.now x }
{
    a[x] ^ a[x + 5] ^ a[x + 10] ^ a[x + 15] ^ a[x + 20]
}

/// Adds to each lane the sums of two columns beside its own.
fn theta(a: &[u64; 25]) -> [u64; 25]
    ensures { result ≡ theta a.now }
{
    let mut out = [0; 25];
    'lanes: for i in 0..25 {
        out[i] = a[i] ^ (parity(a, (i + 4) % 5) ^ parity(a, (i + 1) % 5).rotate_left(1));
    }
    out
}

/// Rotates the lanes, and moves each to its new index.
fn moved(a: &[u64; 25]) -> [u64; 25]
    ensures { result ≡ moved a.now }
{
    let mut out = [0; 25];
    'lanes: for i in 0..25 {
        let from = (i % 5 + 3 * (i / 5)) % 5 + 5 * (i % 5);
        out[i] = a[from].rotate_left(OFFSETS[from]);
    }
    out
}

/// Adds to each lane what the two lanes after it in the row give.
fn chi(a: &[u64; 25]) -> [u64; 25]
    ensures { result ≡ chi a.now }
{
    let mut out = [0; 25];
    'lanes: for i in 0..25 {
        let row = i / 5 * 5;
        out[i] = a[i] ^ (!a[row + (i + 1) % 5] & a[row + (i + 2) % 5]);
    }
    out
}

/// Runs a round.
fn round(a: &[u64; 25], index: usize) -> [u64; 25]
    requires { index < 24 }
    ensures { result ≡ round a.now index }
{
    let mut out = chi(&moved(&theta(a)));
    out[0] ^= ROUND_CONSTANTS[index];
    out
}

/// Runs the 24 rounds.
pub(crate) fn keccak_f(a: &[u64; 25]) -> [u64; 25]
    ensures { result ≡ keccak_f a.now 24 }
{
    let mut state = *a;
    'rounds: for index in 0..24 {
        state = round(&state, index);
    }
    state
}
