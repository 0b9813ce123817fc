//! `name_of` prints an address as a name with its suffix, or as IPv4 or IPv6 without brackets.

ghost use Rattle.std.specs.Prelude.{◌≡◌, ◌+◌, ◌≤◌, ◌++◌, length, IfOk};
ghost use Rattle.std.specs.String.{string_bytes};
ghost use Rattle.std.specs.Str.{IsAscii};
ghost use Rattle.arrayvec.specs.ArrayVec.{array_vec_len};
ghost use Rattle.net_addr.specs.Text.{ipv4_text, ipv6_text};
ghost use Rattle.names.specs.Name.{HasOwnName, IsName, letters_of, name_text};

use crate::name::letters_of;
use arrayvec::ArrayVec;
use net_addr::{Net, NetAddr, append, array_of, dotted, groups};
use std::alloc::{AllocError, Global};

/// The maximum number of bytes of a name: the letters of a key of Tor v3, and a suffix.
pub const NAME_TEXT: usize = 65;

/// Returns the name of an address. It takes no memory.
#[tactic(auto, using(crate::proofs::Printed::name_reads))]
pub fn name_text(addr: &NetAddr) -> ArrayVec<u8, NAME_TEXT>
    ensures text { result.items ≡ name_text addr.now }
    ensures ascii { IsAscii (name_text addr.now) }
    ensures reads_back { HasOwnName addr.now → IsName (name_text addr.now) addr.now }
{
    let bytes = addr.bytes();
    match addr.net() {
        Net::Ipv4 => text_of(dotted(array_of(bytes)).as_slice()),
        Net::Ipv6 | Net::Cjdns => text_of(groups(array_of(bytes)).as_slice()),
        Net::Onion => with_suffix(addr, b".onion"),
        Net::I2p => with_suffix(addr, b".b32.i2p"),
        Net::Internal => with_suffix(addr, b".internal"),
        Net::Unroutable => ArrayVec::new(),
    }
}

/// Returns the name of an address as a string.
pub fn name_of(alloc: Global, addr: &NetAddr) -> Result<String, AllocError>
    ensures text { IfOk result (λ text. string_bytes text ≡ name_text addr.now) }
    ensures reads_back { HasOwnName addr.now → IsName (name_text addr.now) addr.now }
{
    let name = name_text(addr);
    String::from_str(alloc, str_of(name.as_slice()))
}

/// Returns the letters of an address and a suffix.
fn with_suffix(addr: &NetAddr, suffix: &[u8]) -> ArrayVec<u8, NAME_TEXT>
    requires few { length suffix.now ≤ 9 }
    requires ascii { IsAscii suffix.now }
    ensures text { result.items ≡ letters_of addr.now.net addr.now.bytes ++ suffix.now }
    ensures ascii { IsAscii (letters_of addr.now.net addr.now.bytes ++ suffix.now) }
{
    let mut text = ArrayVec::new();
    append(&mut text, letters_of(addr).as_slice());
    append(&mut text, suffix);
    text
}

/// Returns a text with room for a name.
fn text_of(bytes: &[u8]) -> ArrayVec<u8, NAME_TEXT>
    requires { length bytes.now ≤ NAME_TEXT }
    ensures { result.items ≡ bytes.now }
{
    let mut text = ArrayVec::new();
    append(&mut text, bytes);
    text
}

/// Returns bytes as a text.
fn str_of(bytes: &[u8]) -> &str
    requires { IsAscii bytes.now }
    ensures { result.now ≡ bytes.now }
{
    std::str::from_utf8(bytes).unwrap()
}
