//! The forms of commands and of lines as texts (`COMMANDS`, `LINES`), and `Reader`.

/// The forms of the command line, one a command.
static COMMANDS: [&str; 24] = [
    "replay [--key HEX64] [--net CHAIN] [--core]",
    "opener [--key HEX64] [--net CHAIN] [--core] [--exempt NETS] [--services N] [--skip-bad-ports]",
    "limit",
    "show [--anchors] [--net CHAIN] [--no-key] [--core]",
    "picture [--by network|source|group|age] [--net CHAIN] [--core|--raw -] [--mark SET..]",
    "raw [--net CHAIN] [--core]",
    "info [--net CHAIN] [--core|--raw -]",
    "groups [--net CHAIN] [--core|--raw -]",
    "risk source|peer|network|- [--net CHAIN] [--core|--raw -]",
    "from-raw --key HEX64 [--net CHAIN] [--core]",
    "compile",
    "decompile",
    "diff [--peers [--net CHAIN] [--core]]",
    "check",
    "lookup PEER",
    "address TEXT",
    "ban SUBNET NOW UNTIL",
    "unban SUBNET",
    "banned PEER NOW",
    "bans NOW",
    "gen START LINES",
    "trial START LINES",
    "help [COMMAND]",
    "version",
];

/// The forms of the commands on a list of bans that is Bitcoin Core's. `--core` comes first.
static CORE_BANS: [&str; 4] = [
    "ban --core SUBNET NOW UNTIL",
    "unban --core SUBNET",
    "banned --core PEER NOW",
    "bans --core NOW",
];

/// How many of `LINES` only an opener's log has: the first ones.
const ONLY_OPENER: usize = 3;

/// How many of `LINES` only a replay's log has, since they save: the last ones.
const ONLY_REPLAY: usize = 4;

/// The forms of the lines of an opener's log and of a replay's.
static LINES: [&str; 21] = [
    "outbound S",
    "feeler S N",
    "close PEER",
    "now T",
    "addr ADDR HEX W",
    "addrv2 ADDR HEX W",
    "find PEER",
    "good PEER test|force",
    "attempt PEER count|nocount",
    "connected PEER",
    "services PEER N",
    "size",
    "select new|any NETS W",
    "sample MAX PERCENT CLASSES W",
    "resolve",
    "clash N",
    "dump",
    "save",
    "save-begin",
    "save-step BYTES",
    "save-end",
];

/// The forms of the lines of a log of events.
static LIMIT: [&str; 7] = [
    "now T",
    "open CONNECTION ADDR unlimited|limited",
    "close CONNECTION",
    "getaddr CONNECTION",
    "from CONNECTION HEX W",
    "from2 CONNECTION HEX W",
    "stat CONNECTION",
];

/// What a keyword and the texts after it are read as.
#[derive(Clone, Copy, PartialEq, Eq)]
pub(crate) enum Reader {
    /// The command line.
    Arguments,
    /// That of a command on a list of bans, with `--core`.
    CoreBans,
    /// A line of a replay's log.
    Replay,
    /// A line of an opener's log.
    Opener,
    /// A line of a log of events.
    Limit,
}

/// The readers of logs.
static LOGS: [Reader; 3] = [Reader::Replay, Reader::Opener, Reader::Limit];

impl Reader {
    /// Returns the reader of the log of a command.
    pub(crate) fn of_log(command: &[u8]) -> Option<Reader> {
        for reader in LOGS {
            if reader.command().as_bytes() == command {
                return Some(reader);
            }
        }
        None
    }

    /// Returns another reader of logs, which knows this keyword. The command line has none.
    pub(crate) fn that_knows(self, keyword: &[u8]) -> Option<Reader> {
        if self == Reader::Arguments || self == Reader::CoreBans {
            return None;
        }
        for reader in LOGS {
            if reader.find_form(keyword).is_some() {
                return Some(reader);
            }
        }
        None
    }

    /// Returns what a keyword is called.
    pub(crate) fn keyword_name(self) -> &'static str {
        match self {
            Reader::Arguments | Reader::CoreBans => "command",
            _ => "keyword",
        }
    }

    /// Returns the command that reads a log in this way.
    pub(crate) fn command(self) -> &'static str {
        match self {
            Reader::Arguments | Reader::CoreBans => "addrman",
            Reader::Replay => "replay",
            Reader::Opener => "opener",
            Reader::Limit => "limit",
        }
    }

    /// Returns the forms of what is read.
    pub(crate) fn forms(self) -> &'static [&'static str] {
        match self {
            Reader::Arguments => &COMMANDS,
            Reader::CoreBans => &CORE_BANS,
            Reader::Replay => &LINES[ONLY_OPENER..],
            Reader::Opener => &LINES[..LINES.len() - ONLY_REPLAY],
            Reader::Limit => &LIMIT,
        }
    }

    /// Returns the form that begins with this keyword.
    pub(crate) fn find_form(self, keyword: &[u8]) -> Option<&'static str> {
        for form in self.forms() {
            if keyword_of(*form).as_bytes() == keyword {
                return Some(*form);
            }
        }
        None
    }
}

/// Returns the keyword that a form begins with.
pub(crate) fn keyword_of(form: &'static str) -> &'static str {
    match form.split_once(' ') {
        Some((keyword, _)) => keyword,
        None => form,
    }
}
