//! `CommandWord` and `KEYWORDS`: the 18 keywords (`now`, `addr`, `good`, `select`, `save`, ..).

ghost use Rattle.log_lines.specs.Spelling.{word_of};

use grammar::Keyword;

/// The keyword of a line, its first field, which says what the line asks for.
#[derive(Clone, Copy)]
pub enum CommandWord {
    Now,
    Addr,
    Addr2,
    Good,
    Attempt,
    Connected,
    Services,
    Find,
    Size,
    Select,
    Sample,
    Resolve,
    Clash,
    Dump,
    Save,
    SaveBegin,
    SaveStep,
    SaveEnd,
}

/// All of them, each once.
pub const KEYWORDS: [CommandWord; 18] = [
    CommandWord::Now,
    CommandWord::Addr,
    CommandWord::Addr2,
    CommandWord::Good,
    CommandWord::Attempt,
    CommandWord::Connected,
    CommandWord::Services,
    CommandWord::Find,
    CommandWord::Size,
    CommandWord::Select,
    CommandWord::Sample,
    CommandWord::Resolve,
    CommandWord::Clash,
    CommandWord::Dump,
    CommandWord::Save,
    CommandWord::SaveBegin,
    CommandWord::SaveStep,
    CommandWord::SaveEnd,
];

impl Keyword for CommandWord {
    ghost word = { word_of };

    fn word(self) -> &'static [u8] {
        match self {
            CommandWord::Now => b"now",
            CommandWord::Addr => b"addr",
            CommandWord::Addr2 => b"addrv2",
            CommandWord::Good => b"good",
            CommandWord::Attempt => b"attempt",
            CommandWord::Connected => b"connected",
            CommandWord::Services => b"services",
            CommandWord::Find => b"find",
            CommandWord::Size => b"size",
            CommandWord::Select => b"select",
            CommandWord::Sample => b"sample",
            CommandWord::Resolve => b"resolve",
            CommandWord::Clash => b"clash",
            CommandWord::Dump => b"dump",
            CommandWord::Save => b"save",
            CommandWord::SaveBegin => b"save-begin",
            CommandWord::SaveStep => b"save-step",
            CommandWord::SaveEnd => b"save-end",
        }
    }
}
