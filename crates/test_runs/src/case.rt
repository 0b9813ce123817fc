//! `Case` reads a case: arguments, log lines, files, failing calls, and what has to come of them.

use crate::images::{Images, Mark};
use crate::unread::Unread;
use gen_load::{Gen, MAX_LINES};
use host_io::{NAMES, Name};
use std::alloc::{AllocError, Global};

/// A file of the folder.
#[derive(Drop)]
pub(crate) struct File {
    pub name: Name,
    pub bytes: Vec<u8>,
}

/// What is to be at a name of the folder after the run.
#[derive(Drop)]
pub(crate) struct Left {
    pub name: Name,
    /// The bytes of the file, or none if it is to be absent.
    pub bytes: Option<Vec<u8>>,
}

/// What a run is given, and what is wanted of it.
#[derive(Drop)]
pub(crate) struct Case {
    alloc: Global,
    /// The arguments.
    pub arguments: Vec<String>,
    pub log: Vec<u8>,
    /// What the log has after the lines of the case.
    after: Vec<u8>,
    /// How many bytes a read of the log gives at most.
    pub piece: usize,
    /// How many bytes of the log the run is to leave, if the case says so.
    pub unread: Option<u64>,
    pub files: Vec<File>,
    /// The numbers of the reads of the log that fail.
    pub failing_reads: Vec<u64>,
    /// The numbers of the writes that fail.
    pub failing_writes: Vec<u64>,
    /// The numbers of the folder's calls that fail, and whether they change it all the same.
    pub failing_calls: Vec<(u64, bool)>,
    /// What is to be written.
    pub replies: Vec<u8>,
    /// How the run is to end: the exit code, and after a space the text of the status.
    pub end: String,
    /// The names that are not to be as before, and what is to be there.
    pub left: Vec<Left>,
    /// The folder's calls, if they are to be compared.
    pub calls: Option<String>,
    /// The files that have a mark.
    pub marks: Vec<Mark>,
    /// What crashes are to leave, if it is to be compared.
    pub images: Option<Images>,
    /// The SHA-256 in hexadecimal of what is to be written, in place of the text.
    pub sum: Option<String>,
    /// The SHA-256 in hexadecimal of what a replay of `dump` writes in the folder that is left, if
    /// it is to be compared.
    pub dump_sum: Option<String>,
}

/// Appends the line with its line feed.
fn add_line(text: &mut Vec<u8>, line: &str) -> Result<(), AllocError> {
    text.extend_from_slice(line.as_bytes())?;
    text.push(b'\n')?;
    Ok(())
}

/// Returns the text before the first space, and the text after it.
fn first_word(text: &str) -> (&str, &str) {
    match text.split_once(" ") {
        Some(parts) => parts,
        None => (text, ""),
    }
}

/// Returns the file name.
fn name_of(text: &str) -> Result<Name, Unread> {
    for name in NAMES {
        if name.file_name() == text {
            return Ok(name);
        }
    }
    Err(Unread::Form)
}

/// Parses a number.
fn number(text: &str) -> Result<u64, Unread> {
    match text.parse::<u64>() {
        Ok(number) => Ok(number),
        Err(_) => Err(Unread::Form),
    }
}

/// Decodes bytes in hexadecimal.
fn bytes(alloc: Global, text: &str) -> Result<Vec<u8>, Unread> {
    match hex::decode(alloc, text) {
        Ok(bytes) => Ok(bytes),
        Err(_) => Err(Unread::Form),
    }
}

/// Returns as many bytes, all the same, as `COUNT HEX` says.
fn filled(alloc: Global, text: &str) -> Result<Vec<u8>, Unread> {
    let (count, byte) = first_word(text);
    let count = number(count)?;
    match bytes(alloc, byte)?.as_slice() {
        [byte] => Ok(vec![in alloc; *byte; count as usize]?),
        _ => Err(Unread::Form),
    }
}

/// Returns a line with its line feed.
fn line_of(alloc: Global, text: &str) -> Result<Vec<u8>, Unread> {
    let mut line = Vec::new(alloc);
    add_line(&mut line, text)?;
    Ok(line)
}

/// Returns the arguments, which have one space between two of them; `-` is none.
fn arguments_of(alloc: Global, text: &str) -> Result<Vec<String>, Unread> {
    let mut arguments = Vec::new(alloc);
    if text != "-" {
        for argument in text.split(" ") {
            arguments.push(String::from_str(alloc, argument)?)?;
        }
    }
    Ok(arguments)
}

impl Case {
    /// A replay of an empty log under the key of 64 zeros, which is done and writes nothing. The
    /// folder is empty, and no call fails.
    pub fn new(alloc: Global) -> Result<Case, Unread> {
        let replay =
            "replay --key 0000000000000000000000000000000000000000000000000000000000000000";
        Ok(Case {
            alloc,
            arguments: arguments_of(alloc, replay)?,
            log: Vec::new(alloc),
            after: Vec::new(alloc),
            piece: 65_536,
            unread: None,
            files: Vec::new(alloc),
            failing_reads: Vec::new(alloc),
            failing_writes: Vec::new(alloc),
            failing_calls: Vec::new(alloc),
            replies: Vec::new(alloc),
            end: String::from_str(alloc, "0")?,
            left: Vec::new(alloc),
            calls: None,
            marks: Vec::new(alloc),
            images: None,
            sum: None,
            dump_sum: None,
        })
    }

    /// Takes the lines of a case.
    pub fn read_lines(&mut self, lines: &str) -> Result<(), Unread> {
        for line in lines.lines() {
            self.read(line)?;
        }
        Ok(())
    }

    /// Takes a case of one line: the lines of a case with ` ; ` between two of them, and after
    /// ` => ` how it ends.
    pub fn read_row(&mut self, row: &str) -> Result<(), Unread> {
        let (lines, end) = match row.split_once(" => ") {
            Some(parts) => parts,
            None => (row, "0"),
        };
        self.end = String::from_str(self.alloc, end)?;
        for line in lines.split(" ; ") {
            self.read(line)?;
        }
        self.log.extend_from_slice(self.after.as_slice())?;
        Ok(())
    }

    /// Takes a line: `COMMAND -> REPLY`, a command with no reply, `-> REPLY` for a further line of
    /// a reply, or a line that begins with a colon.
    fn read(&mut self, line: &str) -> Result<(), Unread> {
        if let Some(given) = line.strip_prefix(":") {
            let (what, rest) = first_word(given);
            return self.give(what, rest);
        }
        if let Some(reply) = line.strip_prefix("-> ") {
            add_line(&mut self.replies, reply)?;
        } else if let Some((command, reply)) = line.split_once(" -> ") {
            add_line(&mut self.log, command)?;
            add_line(&mut self.replies, reply)?;
        } else {
            add_line(&mut self.log, line)?;
        }
        Ok(())
    }

    /// Takes what a line that begins with a colon gives.
    fn give(&mut self, what: &str, rest: &str) -> Result<(), Unread> {
        match what {
            "ask" | "arguments" => self.ask(rest),
            "end" => {
                self.end = String::from_str(self.alloc, rest)?;
                Ok(())
            }
            "file" | "file-text" | "file-fill" => self.file(what, rest),
            "file-cut" => self.cut(rest),
            "left" => self.leave(rest),
            "mark" | "images" => self.image(what, rest),
            "calls" | "sum" | "dump-sum" => self.text(what, rest),
            "generated" => self.generate(rest),
            "log" | "text" | "log-fill" | "then" => self.bytes_of_log(what, rest),
            _ => self.count(what, number(rest)?),
        }
    }

    /// Takes the calls of the folder, or the sum of a text.
    fn text(&mut self, what: &str, rest: &str) -> Result<(), Unread> {
        let text = Some(String::from_str(self.alloc, rest)?);
        match what {
            "calls" => self.calls = text,
            "sum" => self.sum = text,
            _ => self.dump_sum = text,
        }
        Ok(())
    }

    /// Takes the mark of a file, `MARK HEX`, or what crashes are to leave, `NAME MARKS`.
    fn image(&mut self, what: &str, rest: &str) -> Result<(), Unread> {
        let (word, rest) = first_word(rest);
        if what == "mark" {
            self.marks.push(Mark {
                text: String::from_str(self.alloc, word)?,
                bytes: bytes(self.alloc, rest)?,
            })?;
        } else {
            self.images = Some(Images {
                name: name_of(word)?,
                marks: String::from_str(self.alloc, rest)?,
            });
        }
        Ok(())
    }

    /// Appends a generated log, `START LINES`, to the log.
    fn generate(&mut self, rest: &str) -> Result<(), Unread> {
        let (start, lines) = first_word(rest);
        let lines = number(lines)?.min(MAX_LINES as u64) as u32;
        let mut log = Gen::make(number(start)?, lines);
        for _ in 0..lines {
            log.next(&mut self.log)?;
        }
        Ok(())
    }

    /// Takes the arguments, and after ` -> ` the line that they give.
    fn ask(&mut self, rest: &str) -> Result<(), Unread> {
        let arguments = match rest.split_once(" -> ") {
            Some((arguments, reply)) => {
                add_line(&mut self.replies, reply)?;
                arguments
            }
            None => rest,
        };
        self.arguments = arguments_of(self.alloc, arguments)?;
        Ok(())
    }

    /// Takes the length of a piece, how many bytes are left, or the number of a call that fails.
    fn count(&mut self, what: &str, number: u64) -> Result<(), Unread> {
        match what {
            "piece" => self.piece = number as usize,
            "unread" => self.unread = Some(number),
            "fail-read" => self.failing_reads.push(number)?,
            "fail-write" => self.failing_writes.push(number)?,
            "fail-call" => self.failing_calls.push((number, false))?,
            "fail-after-call" => self.failing_calls.push((number, true))?,
            "fail-from" => self.fail_from(number)?,
            _ => return Err(Unread::Form),
        }
        Ok(())
    }

    /// Lets the folder's calls fail from one on, sixteen of them, so that none changes it.
    fn fail_from(&mut self, call: u64) -> Result<(), AllocError> {
        for more in 0..16u64 {
            self.failing_calls.push((call.saturating_add(more), false))?;
        }
        Ok(())
    }

    /// Appends bytes, a text without a line feed, or as many bytes of one kind, to the log; or a
    /// line to what it has after the lines of the case.
    fn bytes_of_log(&mut self, what: &str, rest: &str) -> Result<(), Unread> {
        let alloc = self.alloc;
        match what {
            "log" => self.log.extend_from_slice(bytes(alloc, rest)?.as_slice())?,
            "text" => self.log.extend_from_slice(rest.as_bytes())?,
            "log-fill" => self.log.extend_from_slice(filled(alloc, rest)?.as_slice())?,
            _ => add_line(&mut self.after, rest)?,
        }
        Ok(())
    }

    /// Puts a file, `NAME HEX`, `NAME LINE` or `NAME COUNT HEX`, into the folder. Of a name that is
    /// there it is the next part.
    fn file(&mut self, what: &str, rest: &str) -> Result<(), Unread> {
        let (name, rest) = first_word(rest);
        let name = name_of(name)?;
        let part = match what {
            "file" => bytes(self.alloc, rest)?,
            "file-fill" => filled(self.alloc, rest)?,
            _ => line_of(self.alloc, rest)?,
        };
        for file in self.files.iter_mut() {
            if file.name == name {
                file.bytes.extend_from_slice(part.as_slice())?;
                return Ok(());
            }
        }
        self.files.push(File { name, bytes: part })?;
        Ok(())
    }

    /// Shortens a file, `NAME LENGTH`.
    fn cut(&mut self, rest: &str) -> Result<(), Unread> {
        let (name, length) = first_word(rest);
        let name = name_of(name)?;
        let length = number(length)? as usize;
        for file in self.files.iter_mut() {
            if file.name == name {
                file.bytes.truncate(length);
            }
        }
        Ok(())
    }

    /// Takes what is to be at a name after the run, `NAME HEX`, or `NAME -` for no file.
    fn leave(&mut self, rest: &str) -> Result<(), Unread> {
        let (name, rest) = first_word(rest);
        let name = name_of(name)?;
        let bytes = if rest == "-" {
            None
        } else {
            Some(bytes(self.alloc, rest)?)
        };
        self.left.push(Left { name, bytes })?;
        Ok(())
    }
}
