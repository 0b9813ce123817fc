//! `Wanted`: what a name in a form means, such as `PEER` or `TIME`.

use crate::common_errors::usual_error;
use ban_list::{BanRule, parse_subnet_by};
use gen_load::MAX_LINES;
use grammar::{AddrClasses, Field, Networks, Payload, Random};
use names::parse_text;
use net_addr::{parse_addr, parse_number, parse_peer};
use std::alloc::Global;

/// Which texts a name in a form means.
#[derive(Clone, Copy)]
enum Kind {
    Addr,
    Peer,
    Subnet,
    Text,
    Bytes,
    Words,
    Networks,
    Classes,
    /// The numbers from the first to the second.
    Number(u64, u64),
}

/// What a name in a form means.
#[derive(Clone, Copy)]
pub(crate) struct Wanted {
    name: &'static str,
    kind: Kind,
    /// What is said of it.
    pub text: &'static str,
}

/// The largest number of 32 bits.
const MAX: u64 = u32::MAX as u64;

/// What is said of a time.
const TIME: &str = "a time in seconds since 1970, at most 4294967295";

/// The names in forms, but for those of options.
static NAMES: [Wanted; 19] = [
    Wanted {
        name: "ADDR",
        kind: Kind::Addr,
        text: "ADDR, such as 1.2.3.4 or [2001:470::1]",
    },
    Wanted {
        name: "BYTES",
        kind: Kind::Number(1, MAX),
        text: "a number from 1 to 4294967295",
    },
    Wanted {
        name: "CLASSES",
        kind: Kind::Classes,
        text: "all, or a list of networks and unroutable, such as ipv4,unroutable",
    },
    Wanted {
        name: "CONNECTION",
        kind: Kind::Number(0, MAX),
        text: "a number from 0 to 4294967295",
    },
    Wanted {
        name: "HEX",
        kind: Kind::Bytes,
        text: "two hexadecimal digits for each byte, or - for no bytes",
    },
    Wanted {
        name: "LINES",
        kind: Kind::Number(1, MAX_LINES as u64),
        text: "a number from 1 to 100000",
    },
    Wanted {
        name: "MAX",
        kind: Kind::Number(0, MAX),
        text: "a number from 0 to 4294967295",
    },
    Wanted {
        name: "N",
        kind: Kind::Number(0, u64::MAX),
        text: "a number below 2^64",
    },
    Wanted {
        name: "NETS",
        kind: Kind::Networks,
        text: "all, or some of ipv4, ipv6, onion, i2p, cjdns and internal, such as ipv4,onion",
    },
    Wanted {
        name: "NOW",
        kind: Kind::Number(0, MAX),
        text: TIME,
    },
    Wanted {
        name: "PEER",
        kind: Kind::Peer,
        text: "ADDR:PORT, such as 1.2.3.4:8333 or [2001:470::1]:8333",
    },
    Wanted {
        name: "PERCENT",
        kind: Kind::Number(0, 100),
        text: "a number from 0 to 100",
    },
    Wanted {
        name: "S",
        kind: Kind::Number(0, MAX),
        text: "a number from 0 to 4294967295",
    },
    Wanted {
        name: "START",
        kind: Kind::Number(0, u64::MAX),
        text: "a number below 2^64",
    },
    Wanted {
        name: "SUBNET",
        kind: Kind::Subnet,
        text: "a subnet, such as 1.2.3.0/24 or 2001:470::/32",
    },
    Wanted {
        name: "T",
        kind: Kind::Number(0, MAX),
        text: TIME,
    },
    Wanted {
        name: "TEXT",
        kind: Kind::Text,
        text: "an address or a name, such as 1.2.3.4, 2001:470::1 or NAME.onion",
    },
    Wanted {
        name: "UNTIL",
        kind: Kind::Number(0, MAX),
        text: "a time after NOW, in seconds since 1970, at most 4294967295",
    },
    Wanted {
        name: "W",
        kind: Kind::Words,
        text: "random words such as 7,8 or @SEED:COUNT, or - for none",
    },
];

/// Returns what a name in a form means.
pub(crate) fn find_wanted(name: &str) -> Option<&'static Wanted> {
    for wanted in &NAMES {
        if wanted.name == name {
            return Some(wanted);
        }
    }
    None
}

impl Wanted {
    /// Returns `true` if this text is one of those, a subnet by the rule of a list of bans.
    pub(crate) fn has(&self, alloc: Global, rule: BanRule, text: &[u8]) -> bool {
        match self.kind {
            Kind::Addr => parse_addr(text).is_some(),
            Kind::Peer => parse_peer(text).is_some(),
            Kind::Subnet => parse_subnet_by(rule, text).is_some(),
            Kind::Text => parse_text(text).is_some(),
            Kind::Bytes => Payload::read(alloc, text).is_ok(),
            Kind::Words => Random::read(alloc, text).is_ok(),
            Kind::Networks => Networks::read(alloc, text).is_ok(),
            Kind::Classes => AddrClasses::read(alloc, text).is_ok(),
            Kind::Number(least, most) => match parse_number(text, most) {
                Some(number) => number >= least,
                None => false,
            },
        }
    }

    /// Returns which usual error a text has that is none of those.
    pub(crate) fn usual_error(&self, rule: BanRule, text: &[u8]) -> Option<&'static str> {
        let kind = match (self.kind, rule) {
            (Kind::Addr, _) => "A",
            (Kind::Peer, _) => "P",
            (Kind::Subnet, BanRule::Labels) => "S",
            (Kind::Subnet, BanRule::Names) => "N",
            (Kind::Text, _) => "T",
            _ => return None,
        };
        usual_error(kind, text)
    }
}
