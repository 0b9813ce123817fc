//! The letters of a name and back, with the version and the checksum of a Tor v3 key.

ghost use Rattle.std.specs.Prelude.{◌≡◌, [], ◌∷◌, ◌++◌, ◌≤◌, length, map, codes, IsTrue, ◌↔◌, IfSome, Some, take};
ghost use Rattle.std.specs.Char.{to_ascii_lowercase};
ghost use Rattle.std.specs.Str.{IsAscii};
ghost use Rattle.net_addr.specs.Address.{Address, IsAddress, length_of};
ghost use Rattle.net_addr.specs.declared.net.Net.{Net};
ghost use Rattle.net_addr.specs.OldForm.{address};
ghost use Rattle.names.specs.Inside.{decoded};
ghost use Rattle.names.specs.Name.{HasLetters, IsLettered, checksum, encoded, letters_of};

use crate::base32::{decode, encode};
use crate::sha3::sha3_256;
use arrayvec::ArrayVec;
use net_addr::{Net, NetAddr, append};

/// Returns the bytes whose hash has the checksum of a public key.
fn message(key: &[u8]) -> [u8; 48]
    requires { length key.now ≡ 32 }
    ensures { result ≡ codes ".onion checksum" ++ key.now ++ 3 ∷ [] }
{
    let mut message = [3; 48];
    message[..15].copy_from_slice(b".onion checksum");
    message[15..47].copy_from_slice(key);
    message
}

/// Returns the checksum of a public key of Tor v3, 32 bytes.
fn checksum(key: &[u8]) -> [u8; 2]
    requires { length key.now ≡ 32 }
    ensures { result ≡ checksum key.now }
{
    let digest = sha3_256(&message(key));
    [digest[0], digest[1]]
}

/// Returns a public key with its checksum and the version.
fn with_checksum(key: &[u8]) -> ArrayVec<u8, 35>
    requires { length key.now ≡ 32 }
    ensures { result.items ≡ key.now ++ checksum key.now ++ 3 ∷ [] }
{
    let mut whole = ArrayVec::new();
    append(&mut whole, key);
    append(&mut whole, &checksum(key));
    append(&mut whole, &[3]);
    whole
}

/// Returns the letters of an address's name, which come before a suffix such as `.onion`. It takes
/// no memory.
#[tactic(auto, using(crate::proofs::Lower::base32_ascii), unfolding(crate::specs::Name::encoded))]
pub fn letters_of(addr: &NetAddr) -> ArrayVec<u8, 56>
    ensures letters { result.items ≡ letters_of addr.now.net addr.now.bytes }
    ensures ascii { IsAscii (letters_of addr.now.net addr.now.bytes) }
    ensures address { IsAddress addr.now }
{
    let bytes = addr.bytes();
    match addr.net() {
        Net::Onion => encode(with_checksum(bytes).as_slice()),
        _ => encode(bytes),
    }
}

/// Returns `true` if the letters are those of the address's name.
fn has_letters(addr: &NetAddr, letters: &[u8]) -> bool
    ensures { IsTrue result ↔ (letters.now ≡ letters_of addr.now.net addr.now.bytes) }
{
    letters_of(addr).as_slice() == letters
}

/// Returns how many bytes the letters of a name encode that are an address of the network.
fn size(net: Net) -> usize
    requires { IsLettered net }
    ensures { result ≡ length_of net }
{
    match net {
        Net::Internal => 10,
        _ => 32,
    }
}

/// Returns letters in lower case, and more of them up to 64.
fn lowered(letters: &[u8]) -> [u8; 64]
    requires { length letters.now ≤ 56 }
    ensures { take (length letters.now) result ≡ map to_ascii_lowercase letters.now }
{
    let mut lower = [b'a'; 64];
    lower[..letters.len()].copy_from_slice(letters);
    lower.make_ascii_lowercase();
    lower
}

/// Returns the address of the network with the first bytes that the letters encode.
fn decoded_address(net: Net, lower: &[u8; 64]) -> Option<NetAddr>
    requires { IsLettered net }
    ensures found { IfSome result (λ a.
        a ≡ address net (take (length_of net) (decoded lower.now))) }
    ensures address { IfSome result IsAddress }
    ensures only { IsAddress (address net (take (length_of net) (decoded lower.now))) →
        result ≡ Some (address net (take (length_of net) (decoded lower.now))) }
{
    let bytes = decode(lower);
    NetAddr::of(net, &bytes.as_slice()[..size(net)])
}

/// Returns the address of the network with these letters, which may be in either case.
pub(crate) fn from_letters(net: Net, letters: &[u8]) -> Option<NetAddr>
    requires { IsLettered net }
    ensures found { IfSome result (HasLetters net (map to_ascii_lowercase letters.now)) }
    ensures only { (a : Address) → HasLetters net (map to_ascii_lowercase letters.now) a →
        result ≡ Some a }
{
    if letters.len() > 56 {
        return None;
    }
    let lower = lowered(letters);
    let Some(addr) = decoded_address(net, &lower) else {
        return None;
    };
    if has_letters(&addr, &lower[..letters.len()]) {
        Some(addr)
    } else {
        None
    }
}
