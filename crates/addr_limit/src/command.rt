//! `LimitWord`, `KEYWORDS`, `Event` and `LimitCommand`: what a line says.

ghost use Rattle.addr_limit.specs.Lines.{limit_word};

use addr_codecs::{Entries, MsgFault};
use grammar::{Keyword, Words};
use net_addr::NetAddr;

/// The keyword of a line that the limit carries out.
#[derive(Clone, Copy, Debug, PartialEq, Eq)]
pub enum LimitWord {
    Now,
    Open,
    Close,
    GetAddr,
    From,
    From2,
    Stat,
}

/// All of them, each once.
pub(crate) const KEYWORDS: [LimitWord; 7] = [
    LimitWord::Now,
    LimitWord::Open,
    LimitWord::Close,
    LimitWord::GetAddr,
    LimitWord::From,
    LimitWord::From2,
    LimitWord::Stat,
];

impl Keyword for LimitWord {
    ghost word = { limit_word };

    fn word(self) -> &'static [u8] {
        match self {
            LimitWord::Now => b"now",
            LimitWord::Open => b"open",
            LimitWord::Close => b"close",
            LimitWord::GetAddr => b"getaddr",
            LimitWord::From => b"from",
            LimitWord::From2 => b"from2",
            LimitWord::Stat => b"stat",
        }
    }
}

/// What a line says.
#[derive(Drop)]
pub enum Event {
    /// The time, in seconds since 1970.
    Now { time: u32 },
    /// A request about the connection of a number.
    Of { number: u32, request: LimitCommand },
    /// Nothing: the line is passed on as it is.
    Nothing,
}

/// What a line asks of the connection whose number it names.
#[derive(Drop)]
pub enum LimitCommand {
    /// It opens.
    Open {
        addr: NetAddr,
        unlimited: bool,
    },
    /// It closes.
    Close,
    /// Getaddr is sent to it.
    GetAddr,
    /// A message comes from it, whose payload reads as entries or has a fault. Each entry uses one
    /// random word.
    Message {
        read: Result<Entries, MsgFault>,
        words: Words,
    },
    /// Its counts are printed.
    Stat,
}
