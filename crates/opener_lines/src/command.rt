//! `OpenerWord`, `KEYWORDS` and `OpenerCommand`: what a line asks for.

ghost use Rattle.opener_lines.specs.Grammar.{opener_word};

use grammar::Keyword;
use log_lines::Command;
use net_addr::Peer;

/// The keyword of a line.
#[derive(Clone, Copy)]
pub enum OpenerWord {
    Outbound,
    Feeler,
    Close,
    /// A keyword of the address manager's log.
    Log(log_lines::CommandWord),
}

/// All of them, each once. None of them saves.
pub(crate) const KEYWORDS: [OpenerWord; 17] = [
    OpenerWord::Outbound,
    OpenerWord::Feeler,
    OpenerWord::Close,
    OpenerWord::Log(log_lines::CommandWord::Now),
    OpenerWord::Log(log_lines::CommandWord::Addr),
    OpenerWord::Log(log_lines::CommandWord::Addr2),
    OpenerWord::Log(log_lines::CommandWord::Good),
    OpenerWord::Log(log_lines::CommandWord::Attempt),
    OpenerWord::Log(log_lines::CommandWord::Connected),
    OpenerWord::Log(log_lines::CommandWord::Services),
    OpenerWord::Log(log_lines::CommandWord::Find),
    OpenerWord::Log(log_lines::CommandWord::Size),
    OpenerWord::Log(log_lines::CommandWord::Select),
    OpenerWord::Log(log_lines::CommandWord::Sample),
    OpenerWord::Log(log_lines::CommandWord::Resolve),
    OpenerWord::Log(log_lines::CommandWord::Clash),
    OpenerWord::Log(log_lines::CommandWord::Dump),
];

impl Keyword for OpenerWord {
    ghost word = { opener_word };

    fn word(self) -> &'static [u8] {
        match self {
            OpenerWord::Outbound => b"outbound",
            OpenerWord::Feeler => b"feeler",
            OpenerWord::Close => b"close",
            OpenerWord::Log(verb) => verb.word(),
        }
    }
}

/// What a line of an opener's log asks for.
#[derive(Drop)]
pub enum OpenerCommand {
    /// Open an outbound connection. Try i takes the random words of the seed `seed + i`.
    Outbound { seed: u32 },
    /// Open a connection to test a peer: the occupant of the slot of the collision that the word
    /// selects, or a peer of the new table.
    Feeler { seed: u32, word: u64 },
    /// An outbound peer was closed.
    Close { peer: Peer },
    /// A command of the address manager that does not save.
    Machine(Command),
}
