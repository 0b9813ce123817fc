//! Prints addresses and peers: dotted IPv4, IPv6 by RFC 5952 with `::`, brackets, and labels with
//! hexadecimal digits.

ghost use Rattle.std.specs.Prelude.{◌≡◌, ◌+◌, ◌*◌, ◌<◌, ◌≤◌, ◌^◌, ◌∷◌, ◌++◌, length, codes, decimal, OnOk, OnErr};
ghost use Rattle.std.specs.Int.{w32, w128, to_be_bytes};
ghost use Rattle.std.specs.Char.{digit_char};
ghost use Rattle.std.specs.Str.{IsAscii};
ghost use Rattle.std.specs.Net.Text.{hex, groups_text, hex_groups_text, leading_zero_digits, longest_zero_run};
ghost use Rattle.hex.specs.Hex.{encode_lower};
ghost use Rattle.net_addr.specs.Address.{IsAddress};
ghost use Rattle.net_addr.specs.Text.{ipv4_text, ipv6_text, label_of, addr_text, peer_text, IsIpv4Text, IsIpv6Text, IsAddrText, IsPeerText};
ghost use Rattle.net_addr.specs.declared.print.TheConstants.{ADDR_TEXT};
ghost use Rattle.arrayvec.specs.ArrayVec.{array_vec_len};

use crate::old_form::array_of;
use crate::text::{append, put_text};
use crate::{Memory, Net, NetAddr, Peer};
use arrayvec::ArrayVec;
use itoa::Buffer;
use std::net::Ipv6Addr;

/// The maximum number of bytes of an IPv4 address in text.
pub const IPV4_TEXT: usize = 15;

/// The maximum number of bytes of an IPv6 address in text: eight groups of four digits, and seven
/// colons.
pub const IPV6_TEXT: usize = 39;

/// The maximum number of bytes of an address in text: the label of an onion address, and two digits
/// for each of its bytes.
pub const ADDR_TEXT: usize = 70;

/// The maximum number of bytes of a peer in text: an address, a colon and the port.
pub const PEER_TEXT: usize = 76;

/// Returns the text of an IPv4 address, the first of its four bytes the highest.
pub fn ipv4_text(bits: u32) -> ArrayVec<u8, IPV4_TEXT>
    ensures text { result.items ≡ ipv4_text (to_be_bytes w32 bits) }
    ensures reads_back { IsIpv4Text (ipv4_text (to_be_bytes w32 bits)) bits }
{
    dotted(bits.to_be_bytes())
}

/// Returns the text of an IPv6 address in the form of RFC 5952, without brackets and always in
/// hexadecimal; the first of its sixteen bytes is the highest.
pub fn ipv6_text(bits: u128) -> ArrayVec<u8, IPV6_TEXT>
    ensures text { result.items ≡ ipv6_text (to_be_bytes w128 bits) }
    ensures reads_back { IsIpv6Text (ipv6_text (to_be_bytes w128 bits)) bits }
{
    groups(bits.to_be_bytes())
}

/// Appends the text of an IPv4 address, the first of its four bytes the highest.
pub fn put_ipv4(bits: u32, out: &mut Vec<u8>) -> Result<(), Memory>
    ensures ok { OnOk result (out.new.items ≡ out.old.items ++ ipv4_text (to_be_bytes w32 bits)) }
    ensures err { OnErr result (out.new.items ≡ out.old.items) }
    ensures reads_back { IsIpv4Text (ipv4_text (to_be_bytes w32 bits)) bits }
{
    put_text(ipv4_text(bits).as_slice(), out)
}

/// Appends the text of an IPv6 address in the form of RFC 5952, without brackets and always in
/// hexadecimal; the first of its sixteen bytes is the highest.
pub fn put_ipv6(bits: u128, out: &mut Vec<u8>) -> Result<(), Memory>
    ensures ok { OnOk result (out.new.items ≡ out.old.items ++ ipv6_text (to_be_bytes w128 bits)) }
    ensures err { OnErr result (out.new.items ≡ out.old.items) }
    ensures reads_back { IsIpv6Text (ipv6_text (to_be_bytes w128 bits)) bits }
{
    put_text(ipv6_text(bits).as_slice(), out)
}

/// Returns the text of an address. It takes no memory.
pub fn addr_text(addr: &NetAddr) -> ArrayVec<u8, ADDR_TEXT>
    ensures text { result.items ≡ addr_text addr.now }
    ensures reads_back { IsAddrText (addr_text addr.now) addr.now }
{
    let mut text = ArrayVec::new();
    append_addr(&mut text, addr);
    text
}

/// Returns the text of a peer. It takes no memory.
pub fn peer_text(peer: &Peer) -> ArrayVec<u8, PEER_TEXT>
    ensures text { result.items ≡ peer_text peer.now }
    ensures reads_back { IsPeerText (peer_text peer.now) peer.now }
{
    let port = peer.port;
    let mut text = ArrayVec::new();
    append_addr(&mut text, &peer.addr);
    text.push(b':');
    append(&mut text, Buffer::new().format(port).as_bytes());
    text
}

/// Appends the text of an address.
pub fn put_addr(addr: &NetAddr, out: &mut Vec<u8>) -> Result<(), Memory>
    ensures ok { OnOk result (out.new.items ≡ out.old.items ++ addr_text addr.now) }
    ensures err { OnErr result (out.new.items ≡ out.old.items) }
    ensures reads_back { IsAddrText (addr_text addr.now) addr.now }
{
    put_text(addr_text(addr).as_slice(), out)
}

/// Appends the text of a peer.
pub fn put_peer(peer: &Peer, out: &mut Vec<u8>) -> Result<(), Memory>
    ensures ok { OnOk result (out.new.items ≡ out.old.items ++ peer_text peer.now) }
    ensures err { OnErr result (out.new.items ≡ out.old.items) }
    ensures reads_back { IsPeerText (peer_text peer.now) peer.now }
{
    put_text(peer_text(peer).as_slice(), out)
}

/// Appends the text of an address, for which there is room.
fn append_addr<const N: usize>(out: &mut ArrayVec<u8, N>, addr: &NetAddr)
    requires { array_vec_len out.old + ADDR_TEXT ≤ N }
    ensures text { out.new.items ≡ out.old.items ++ addr_text addr.now }
    ensures short { array_vec_len out.new ≤ array_vec_len out.old + ADDR_TEXT }
    ensures address { IsAddress addr.now }
{
    let bytes = addr.bytes();
    match addr.net() {
        Net::Ipv4 => append(out, dotted(array_of(bytes)).as_slice()),
        Net::Ipv6 => append_bracketed(out, bytes),
        Net::Onion => append_labelled(out, Net::Onion, bytes),
        Net::I2p => append_labelled(out, Net::I2p, bytes),
        Net::Cjdns => append_labelled(out, Net::Cjdns, bytes),
        Net::Internal => append_labelled(out, Net::Internal, bytes),
        Net::Unroutable => {}
    }
}

/// Returns sixteen bytes as groups of hexadecimal digits with colons between them, in the form of
/// RFC 5952.
pub fn groups(bytes: [u8; 16]) -> ArrayVec<u8, IPV6_TEXT>
    ensures text { result.items ≡ ipv6_text bytes }
    ensures ascii { IsAscii (ipv6_text bytes) }
{
    let segments = Ipv6Addr::from_octets(bytes).segments();
    compressed(&segments)
}

/// Returns eight groups of hexadecimal digits with colons between them, and `::` in place of the
/// longest run of groups that are zero, if that has at least two (RFC 5952).
fn compressed(segments: &[u16]) -> ArrayVec<u8, IPV6_TEXT>
    requires { length segments.now ≡ 8 }
    ensures text { result.items ≡ hex_groups_text segments.now }
    ensures ascii { IsAscii (hex_groups_text segments.now) }
{
    let mut text = ArrayVec::new();
    let (start, len) = longest_zero_run(segments);
    if len > 1 {
        append_groups(&mut text, &segments[..start]);
        text.push(b':');
        text.push(b':');
        append_groups(&mut text, &segments[start + len..]);
    } else {
        append_groups(&mut text, segments);
    }
    text
}

/// Returns the start and the length of the longest run of zeros, the first one of that length.
fn longest_zero_run(segments: &[u16]) -> (usize, usize)
    ensures value { result ≡ longest_zero_run segments.now }
    ensures within { result.0 + result.1 ≤ length segments.now }
{
    let mut start = segments.len();
    let mut len = 0;
    let mut run = 0;
    for i in (0..segments.len()).rev() {
        run = if segments[i] == 0 { run + 1 } else { 0 };
        if run >= len {
            start = i;
            len = run;
        }
    }
    (start, len)
}

/// Appends groups of hexadecimal digits with colons between them, for which there is room.
fn append_groups<const N: usize>(out: &mut ArrayVec<u8, N>, segments: &[u16])
    requires { array_vec_len out.old + 5 * length segments.now ≤ N + 1 }
    ensures items { out.new.items ≡ out.old.items ++ groups_text segments.now }
    ensures short { array_vec_len out.new ≤ array_vec_len out.old + 5 * length segments.now }
{
    if let [first, rest @ ..] = segments {
        append_hex(out, *first);
        for segment in rest {
            out.push(b':');
            append_hex(out, *segment);
        }
    }
}

/// Appends a segment in hexadecimal with no leading zeros, for which there is room.
fn append_hex<const N: usize>(out: &mut ArrayVec<u8, N>, segment: u16)
    requires { array_vec_len out.old + 4 ≤ N }
    ensures items { out.new.items ≡ out.old.items ++ hex segment }
    ensures short { array_vec_len out.new ≤ array_vec_len out.old + 4 }
{
    let digits = [
        hex_digit(segment / 0x1000),
        hex_digit(segment / 0x100 % 16),
        hex_digit(segment / 0x10 % 16),
        hex_digit(segment % 16),
    ];
    let zeros = leading_zero_digits(segment);
    let Ok(()) = out.try_extend_from_slice(&digits[zeros..]) else {
        unreachable!()
    };
}

/// Returns how many of a segment's four digits are leading zeros, without the last digit.
fn leading_zero_digits(segment: u16) -> usize
    ensures value { result ≡ leading_zero_digits segment }
    ensures within { result < 4 }
{
    match segment {
        0x1000.. => 0,
        0x100.. => 1,
        0x10.. => 2,
        _ => 3,
    }
}

/// Returns a hexadecimal digit, in lower case.
fn hex_digit(digit: u16) -> u8
    requires { digit < 16 }
    ensures { result ≡ digit_char digit }
{
    if digit < 10 {
        b'0' + digit as u8
    } else {
        b'a' + (digit - 10) as u8
    }
}

/// Appends the text of an IPv6 address in square brackets, for which there is room.
fn append_bracketed<const N: usize>(out: &mut ArrayVec<u8, N>, bytes: &[u8])
    requires bytes { length bytes.now ≡ 16 }
    requires room { array_vec_len out.old + 41 ≤ N }
    ensures text { out.new.items
        ≡ out.old.items ++ codes "[" ++ ipv6_text bytes.now ++ codes "]" }
    ensures short { array_vec_len out.new ≤ array_vec_len out.old + 41 }
{
    out.push(b'[');
    append(out, groups(array_of(bytes)).as_slice());
    out.push(b']');
}

/// Appends the label of a network and the hexadecimal digits of the bytes, for which there is room.
fn append_labelled<const N: usize>(out: &mut ArrayVec<u8, N>, net: Net, bytes: &[u8])
    requires bytes { length (label_of net) + 2 * length bytes.now ≤ ADDR_TEXT }
    requires room { array_vec_len out.old + ADDR_TEXT ≤ N }
    ensures text { out.new.items ≡ out.old.items ++ label_of net ++ encode_lower bytes.now }
    ensures short { array_vec_len out.new ≤ array_vec_len out.old + ADDR_TEXT }
{
    let mut digits = [0; ADDR_TEXT];
    let digits = &mut digits[..2 * bytes.len()];
    let Ok(()) = hex::encode_to_slice(bytes, digits) else {
        unreachable!()
    };
    append(out, net.name());
    out.push(b':');
    append(out, digits);
}

/// Returns four decimal numbers with dots between them.
pub fn dotted(bytes: [u8; 4]) -> ArrayVec<u8, IPV4_TEXT>
    ensures text { result.items ≡ ipv4_text bytes }
    ensures ascii { IsAscii (ipv4_text bytes) }
{
    let [a, b, c, d] = bytes;
    let mut text = ArrayVec::new();
    append_byte(&mut text, a);
    append_dotted(&mut text, b);
    append_dotted(&mut text, c);
    append_dotted(&mut text, d);
    text
}

/// Appends a dot and a byte in decimal, for which there is room.
fn append_dotted<const N: usize>(out: &mut ArrayVec<u8, N>, byte: u8)
    requires { array_vec_len out.old + 4 ≤ N }
    ensures items { out.new.items ≡ out.old.items ++ 46 ∷ decimal byte }
    ensures short { array_vec_len out.new ≤ array_vec_len out.old + 4 }
{
    out.push(b'.');
    append_byte(out, byte);
}

/// Appends a byte in decimal, for which there is room.
fn append_byte<const N: usize>(out: &mut ArrayVec<u8, N>, byte: u8)
    requires { array_vec_len out.old + 3 ≤ N }
    ensures items { out.new.items ≡ out.old.items ++ decimal byte }
    ensures short { array_vec_len out.new ≤ array_vec_len out.old + 3 }
{
    if byte < 10 {
        out.push(b'0' + byte);
    } else if byte < 100 {
        out.push(b'0' + byte / 10);
        out.push(b'0' + byte % 10);
    } else {
        out.push(b'0' + byte / 100);
        out.push(b'0' + byte / 10 % 10);
        out.push(b'0' + byte % 10);
    }
}
