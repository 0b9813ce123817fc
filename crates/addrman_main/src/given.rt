//! `Given`, the options that `run` does not have: `-C`, `--key-file`, and the files after
//! `--peers`, `--asmap`, `--bans` and `--anchors`.

use crate::in_order::{NO_ARGUMENT, is_dashed};
use hints::{ANCHORS, Paths, expected_text, tilde_hint};
use host_io::Name;
use std::alloc::{AllocError, Global};
use std::fs::File;
use std::io;
use std::io::Read;
use std::rt::Files;

/// How many hexadecimal digits a key has.
const KEY_DIGITS: usize = 64;

/// How many bytes of a file with a key are read at once: more than it may have.
const PIECE: usize = 80;

/// The commands that take `--raw -`.
static RAW_COMMANDS: [&str; 4] = ["picture", "info", "groups", "risk"];

/// The commands that take `--key-file FILE`.
static KEY_COMMANDS: [&str; 3] = ["replay", "opener", "from-raw"];

/// The commands that take `--peers FILE`.
static PEERS_FILE: [&str; 7] = ["show", "picture", "raw", "info", "groups", "risk", "diff"];

/// The commands that take `--asmap FILE`.
static ASMAP_FILE: [&str; 11] = [
    "picture",
    "raw",
    "info",
    "groups",
    "risk",
    "from-raw",
    "diff",
    "check",
    "lookup",
    "decompile",
    "address",
];

/// The commands that place the records of peers.dat under an asmap: the one beside it.
static PLACING: [&str; 5] = ["picture", "raw", "info", "groups", "risk"];

/// The commands that take `--bans FILE`.
static BANS_FILE: [&str; 2] = ["banned", "bans"];

/// The commands that take `--anchors` and perhaps a file.
static ANCHORS_FILE: [&str; 1] = ["show"];

/// The arguments of a run: those of the command line, but for what the program does around `run`.
#[derive(Drop)]
pub(crate) struct Given<'a> {
    pub words: Vec<String>,
    /// The files that are read in the place of those of the current folder.
    pub paths: Paths<'a>,
    /// What is said of an option that the program takes itself, if its value is wrong. `run`
    /// refuses the arguments then.
    pub hint: String,
}

/// What the next argument is.
#[derive(Clone, Copy)]
enum Next {
    /// An argument that is not the value of an option.
    Any,
    /// The file of `--key-file`.
    KeyFile,
    /// The file that is read in the place of this one.
    File(Name),
    /// The same, unless it begins as an option.
    FileOrOption(Name),
}

/// Returns the folder of the option that the arguments begin with, and how many arguments it is.
pub(crate) fn folder_of(words: &[String]) -> Option<(&str, usize)> {
    match words {
        [first, second, ..] if first.as_str() == "-C" || first.as_str() == "--dir" => {
            Some((second.as_str(), 2))
        }
        [first, ..] => match first.as_str().strip_prefix("--dir=") {
            Some(folder) => Some((folder, 1)),
            None => None,
        },
        [] => None,
    }
}

/// Returns the path of the asmap beside a peers.dat that an option names for a command under an
/// asmap; nothing if the file is in the current folder, where the asmap is anyway.
pub(crate) fn asmap_beside(alloc: Global, words: &[String]) -> Result<String, AllocError> {
    let mut is_named = false;
    let is_placing = match words {
        [command, ..] => is_among(&PLACING, command.as_str()),
        [] => false,
    };
    for word in words {
        let word = word.as_str();
        let path = if is_named {
            Some(word)
        } else {
            word.strip_prefix("--peers=")
        };
        is_named = word == "--peers";
        let folder = match path {
            Some(path) => path.rsplit_once('/'),
            None => None,
        };
        match folder {
            Some((folder, _)) if is_placing => {
                return format!(in alloc; "{folder}/{}", Name::Asmap.file_name());
            }
            _ => {}
        }
    }
    Ok(String::new(alloc))
}

impl<'a> Given<'a> {
    /// Makes the arguments of a run: `help COMMAND` if an option asks for it, `version` for `-V`,
    /// and for `--key-file FILE` the key in the file, so that the list of processes doesn't have
    /// it. Options that name a file to be read are left out. The arguments are in the order of
    /// `put_in_order`. `beside` is the asmap beside a named peers.dat, or empty.
    pub(crate) fn of<R: Files>(
        alloc: Global,
        rt: &R,
        words: &'a [String],
        beside: &'a str,
    ) -> Result<Given<'a>, AllocError> {
        let mut given = Given {
            words: Vec::new(alloc),
            paths: Paths::none(),
            hint: String::new(alloc),
        };
        let Some((command, rest)) = words.split_first() else {
            return Ok(given);
        };
        let command = command.as_str();
        if !command.starts_with("-") && asks_help(rest) {
            given.add(alloc, "help")?;
            given.add(alloc, command)?;
            return Ok(given);
        }
        given.add(alloc, if command == "-V" { "version" } else { command })?;
        given.add_all(alloc, rt, command, rest)?;
        given.place_asmap(beside);
        Ok(given)
    }

    /// Adds the arguments after the command.
    fn add_all<R: Files>(
        &mut self,
        alloc: Global,
        rt: &R,
        command: &str,
        rest: &'a [String],
    ) -> Result<(), AllocError> {
        if command == "show" && anchors_options(rest) > 0 {
            self.add(alloc, "--anchors")?;
            self.paths.has_anchors = true;
        }
        self.paths.has_listing = is_among(&RAW_COMMANDS, command) && has_listing(rest);
        let mut next = Next::Any;
        for word in rest {
            next = self.take(alloc, rt, command, next, word.as_str())?;
        }
        self.place_anchors(alloc, rest)
    }

    /// Has this asmap read, if there is one, unless an option names another.
    fn place_asmap(&mut self, beside: &'a str) {
        if !beside.is_empty() && self.paths.asmap.is_none() {
            self.paths.asmap = Some(beside);
            self.paths.is_beside = true;
        }
    }

    /// Has the folder's anchors.dat read, if no option names another file. The option comes once.
    fn place_anchors(&mut self, alloc: Global, rest: &[String]) -> Result<(), AllocError> {
        if !self.paths.has_anchors {
            return Ok(());
        }
        if anchors_options(rest) > 1 {
            return self.refuse(alloc, Name::Peers, "given twice");
        }
        if self.paths.peers.is_none() {
            self.paths.peers = Some(ANCHORS);
        }
        Ok(())
    }

    /// Adds an argument, or does what it asks for. Returns what comes after it.
    fn take<R: Files>(
        &mut self,
        alloc: Global,
        rt: &R,
        command: &str,
        next: Next,
        word: &'a str,
    ) -> Result<Next, AllocError> {
        match next {
            Next::KeyFile if is_dashed(word) => {
                self.hint = String::from_str(alloc, "--key-file: expected a file")?;
                self.add(alloc, NO_ARGUMENT)?;
                return Ok(Next::Any);
            }
            Next::KeyFile => {
                self.add_key(alloc, rt, word)?;
                return Ok(Next::Any);
            }
            Next::File(name) if is_dashed(word) => {
                self.refuse(alloc, name, "expected a file")?;
                return Ok(Next::Any);
            }
            Next::File(name) => return self.set_path(alloc, name, word),
            Next::FileOrOption(name) if !word.starts_with("-") => {
                return self.set_path(alloc, name, word);
            }
            _ => {}
        }
        let (flag, value) = match word.split_once('=') {
            Some((flag, value)) => (flag, Some(value)),
            None => (word, None),
        };
        if flag == "--peers" && (self.paths.has_anchors || self.paths.has_listing) {
            return self.refuse_peers(alloc);
        }
        if let Some(name) = file_option(command, flag) {
            return self.take_file(alloc, command, name, value);
        }
        if flag != "--key-file" || !is_among(&KEY_COMMANDS, command) {
            self.add(alloc, word)?;
            return Ok(Next::Any);
        }
        match value {
            Some(path) => {
                self.add_key(alloc, rt, path)?;
                Ok(Next::Any)
            }
            None => Ok(Next::KeyFile),
        }
    }

    /// Refuses `--peers`, since something else is read in the place of peers.dat.
    fn refuse_peers(&mut self, alloc: Global) -> Result<Next, AllocError> {
        let why = if self.paths.has_anchors {
            "--peers: cannot be combined with --anchors"
        } else {
            "--peers: cannot be combined with --raw -"
        };
        self.hint = String::from_str(alloc, why)?;
        self.add(alloc, NO_ARGUMENT)?;
        Ok(Next::Any)
    }

    /// Takes an option that names a file, perhaps with its value. `diff` has `--peers` without a
    /// file, too, and knows by it that it reads one; `show` has `--anchors` without one.
    fn take_file(
        &mut self,
        alloc: Global,
        command: &str,
        name: Name,
        value: Option<&'a str>,
    ) -> Result<Next, AllocError> {
        let is_flag = command == "diff" && name == Name::Peers;
        if is_flag {
            self.add(alloc, "--peers")?;
        }
        match value {
            Some(path) => self.set_path(alloc, name, path),
            None if is_flag || self.paths.has_anchors => Ok(Next::FileOrOption(name)),
            None => Ok(Next::File(name)),
        }
    }

    /// Has this path read in the place of a file. It is not `-`, and comes once.
    fn set_path(&mut self, alloc: Global, name: Name, path: &'a str) -> Result<Next, AllocError> {
        if path.is_empty() || path == "-" {
            self.refuse(alloc, name, "expected a file")?;
        } else if self.paths.of(name).is_some() {
            self.refuse(alloc, name, "given twice")?;
        } else {
            match name {
                Name::Peers => self.paths.peers = Some(path),
                Name::Asmap => self.paths.asmap = Some(path),
                _ => self.paths.bans = Some(path),
            }
        }
        Ok(Next::Any)
    }

    /// Adds an argument that `run` refuses, and says why.
    fn refuse(&mut self, alloc: Global, name: Name, why: &str) -> Result<(), AllocError> {
        let flag = if self.paths.has_anchors {
            "--anchors"
        } else {
            flag_of(name)
        };
        self.hint = format!(in alloc; "{flag}: {why}")?;
        self.add(alloc, NO_ARGUMENT)
    }

    /// Adds an argument.
    fn add(&mut self, alloc: Global, word: &str) -> Result<(), AllocError> {
        let word = String::from_str(alloc, word)?;
        self.words.push(word)?;
        Ok(())
    }

    /// Adds the key in a file, or what is said if there is none.
    fn add_key<R: Files>(&mut self, alloc: Global, rt: &R, path: &str) -> Result<(), AllocError> {
        if path == "-" {
            self.hint = String::from_str(
                alloc,
                "--key-file: expected a file, not standard input, which has the log",
            )?;
            return self.add(alloc, "--key-file");
        }
        match read_key(alloc, rt, path) {
            Ok(text) => self.add_digits(alloc, path, text),
            Err(error) => {
                let tilde = tilde_hint(path);
                self.hint = format!(in alloc; "{path} cannot be read: {error}{tilde}")?;
                self.add(alloc, "--key-file")
            }
        }
    }

    /// Adds the key of these digits, or what is said if they are none.
    fn add_digits(&mut self, alloc: Global, path: &str, text: Vec<u8>) -> Result<(), AllocError> {
        if !is_key(text.as_slice()) {
            let expected = "a file of 64 hexadecimal digits";
            self.hint = expected_text(alloc, expected, path.as_bytes(), "")?;
            return self.add(alloc, "--key-file");
        }
        let digits = String::from_utf8(text).unwrap_or(String::new(alloc));
        let mut word = String::from_str(alloc, "--key=")?;
        word.push_str(digits.as_str())?;
        self.words.push(word)?;
        Ok(())
    }
}

/// Returns `true` if a command is one of these.
fn is_among(names: &[&'static str], command: &str) -> bool {
    for name in names {
        if *name == command {
            return true;
        }
    }
    false
}

/// Returns the option that names the file which is read in the place of this one.
fn flag_of(name: Name) -> &'static str {
    match name {
        Name::Peers => "--peers",
        Name::Asmap => "--asmap",
        _ => "--bans",
    }
}

/// Returns the file in whose place the file of an option of this command is read.
fn file_option(command: &str, flag: &str) -> Option<Name> {
    let (name, commands) = match flag {
        "--peers" => (Name::Peers, PEERS_FILE.as_slice()),
        "--asmap" => (Name::Asmap, ASMAP_FILE.as_slice()),
        "--bans" => (Name::Bans, BANS_FILE.as_slice()),
        "--anchors" => (Name::Peers, ANCHORS_FILE.as_slice()),
        _ => return None,
    };
    if is_among(commands, command) {
        Some(name)
    } else {
        None
    }
}

/// Returns how many of the arguments are `--anchors`, some with a file.
fn anchors_options(words: &[String]) -> usize {
    let mut count: usize = 0;
    for word in words {
        let word = word.as_str();
        if word == "--anchors" || word.starts_with("--anchors=") {
            count = count.saturating_add(1);
        }
    }
    count
}

/// Returns `true` if the arguments ask for the listing on standard input.
fn has_listing(words: &[String]) -> bool {
    let mut is_raw = false;
    for word in words {
        let word = word.as_str();
        if word == "--raw=-" || is_raw && word == "-" {
            return true;
        }
        is_raw = word == "--raw";
    }
    false
}

/// Returns `true` if an option asks for the page of the command.
fn asks_help(words: &[String]) -> bool {
    for word in words {
        if word.as_str() == "--help" || word.as_str() == "-h" {
            return true;
        }
    }
    false
}

/// Returns `true` if these are the digits of a key.
fn is_key(text: &[u8]) -> bool {
    for byte in text {
        if !byte.is_ascii_hexdigit() {
            return false;
        }
    }
    text.len() == KEY_DIGITS
}

/// Reads the first bytes of a file, more than a key has, without a line feed at their end.
fn read_key<R: Files>(alloc: Global, rt: &R, path: &str) -> io::Result<Vec<u8>> {
    let mut file = File::open(rt, path)?;
    let mut text = Vec::new(alloc);
    let mut piece = [0u8; PIECE];
    for _ in 0..PIECE {
        let count = file.read(&mut piece)?;
        text.extend_from_slice(&piece[..count])?;
        if count == 0 || text.len() > KEY_DIGITS.saturating_add(1) {
            break;
        }
    }
    if text.last() == Some(&b'\n') {
        text.truncate(text.len().saturating_sub(1));
    }
    Ok(text)
}
