//! The usual errors in addresses, peers, subnets and names (`USUAL`).

/// An error that people often make in an address, a peer, a subnet or a name.
#[derive(Clone, Copy)]
enum Usual {
    Zone,
    OldName,
    WrongName,
    Name,
    LongFour,
    LongSix,
    Scheme,
    Subnet,
    Label,
    NoBrackets,
    Brackets,
    LargePart,
    LargePort,
    NoPort,
    Port,
}

/// The errors, the texts in whose place they are looked for (`A` an address, `P` a peer, `S` a
/// subnet, `N` a subnet after `--core`, `T` any text that `address` reads), and what is said.
static USUAL: [(Usual, &str, &str); 16] = [
    (Usual::Zone, "APSNT", "a zone such as %eth0 is not allowed"),
    (Usual::OldName, "APSNT", "Tor v2 names are no longer in use"),
    (
        Usual::WrongName,
        "NT",
        "its letters or its checksum are wrong",
    ),
    (Usual::Name, "AP", "only addrman address reads names"),
    (Usual::Name, "S", "names need --core"),
    (Usual::Label, "N", "with --core, write it as a name"),
    (Usual::LongFour, "SN", "an IPv4 prefix length is at most 32"),
    (Usual::LongSix, "SN", "an IPv6 prefix length is at most 128"),
    (
        Usual::Scheme,
        "APSNT",
        "leave out what comes before the address",
    ),
    (Usual::Subnet, "APT", "an address cannot contain /"),
    (
        Usual::NoBrackets,
        "P",
        "an IPv6 address with a port needs brackets",
    ),
    (
        Usual::Brackets,
        "SN",
        "a subnet takes neither brackets nor a port",
    ),
    (
        Usual::LargePart,
        "APSNT",
        "each part of an IPv4 address is at most 255",
    ),
    (Usual::LargePort, "PT", "a port is at most 65535"),
    (Usual::NoPort, "P", "the port is missing"),
    (Usual::Port, "ASN", "a port is not allowed here"),
];

/// Returns which usual error a text has, if it has one. It is none of the texts of this kind.
pub(crate) fn usual_error(kind: &str, text: &[u8]) -> Option<&'static str> {
    for (usual, kinds, said) in &USUAL {
        if kinds.contains(kind) && usual.is_in(text) {
            return Some(*said);
        }
    }
    None
}

impl Usual {
    /// Returns `true` if a text looks as if it had this error.
    fn is_in(self, text: &[u8]) -> bool {
        let host = host_of(text);
        match self {
            Usual::Zone => count_of(text, b'%') > 0,
            Usual::OldName => host.ends_with(b".onion") && host.len() == 22,
            Usual::WrongName | Usual::Name => {
                host.ends_with(b".onion") || host.ends_with(b".b32.i2p")
            }
            Usual::LongFour => count_of(text, b':') == 0 && number_after(text, b'/') > 32,
            Usual::LongSix => count_of(text, b':') > 0 && number_after(text, b'/') > 128,
            Usual::Scheme => text.windows(3).any(|part| part == b"://".as_slice()),
            Usual::Subnet => count_of(text, b'/') > 0,
            Usual::Label => {
                text.starts_with(b"onion:")
                    || text.starts_with(b"i2p:")
                    || text.starts_with(b"cjdns:")
            }
            Usual::NoBrackets => count_of(text, b':') > 1 && count_of(text, b'[') == 0,
            Usual::Brackets => count_of(text, b'[') > 0,
            Usual::LargePart => has_large_part(host),
            Usual::LargePort => number_after(text, b':') > 65_535,
            Usual::NoPort => host.len() == text.len(),
            Usual::Port => host.len() < text.len() && count_of(text, b'/') == 0,
        }
    }
}

/// Returns how often a text has a byte.
fn count_of(text: &[u8], wanted: u8) -> usize {
    let mut count = 0usize;
    for byte in text {
        if *byte == wanted {
            count = count.saturating_add(1);
        }
    }
    count
}

/// Returns what is before the port of a text, or all of it.
fn host_of(text: &[u8]) -> &[u8] {
    let mut end = text.len();
    for (i, byte) in text.iter().enumerate() {
        if *byte == b':' {
            end = i;
        } else if !byte.is_ascii_digit() {
            end = text.len();
        }
    }
    text.get(..end).unwrap_or(text)
}

/// Returns the number after the last of a byte, and 0 if no number follows. A larger one than
/// 2^32 - 1 counts as that.
fn number_after(text: &[u8], mark: u8) -> u32 {
    let mut number = 0u32;
    let mut is_after = false;
    for byte in text {
        if *byte == mark {
            is_after = true;
            number = 0;
        } else if !byte.is_ascii_digit() {
            is_after = false;
            number = 0;
        } else if is_after {
            number = next_number(number, *byte);
        }
    }
    number
}

/// Returns a number with one more decimal digit.
fn next_number(number: u32, digit: u8) -> u32 {
    number
        .saturating_mul(10)
        .saturating_add(u32::from(digit.saturating_sub(b'0')))
}

/// Returns `true` if a text of digits and points has a number above 255.
fn has_large_part(text: &[u8]) -> bool {
    let mut number = 0u32;
    let mut is_large = false;
    for byte in text {
        if byte.is_ascii_digit() {
            number = next_number(number, *byte);
            is_large = is_large || number > 255;
        } else if *byte == b'.' {
            number = 0;
        } else if *byte == b'/' {
            return is_large;
        } else {
            return false;
        }
    }
    is_large
}
