//! `Paths` of options, missing files, gzip, byte order marks, the asmap, and the JSON of bans.

use asmap_compile::{CompileFault, MAX_BITS};
use asmap_vm::CodeFault;
use ban_list::{BanFault, MAX_BANS, MAX_FILE};
use bit_code::MAX_ASMAP;
use host_io::Name;
use serde_json::Value;
use std::alloc::{AllocError, Global};

/// The file of a node's anchors.
pub const ANCHORS: &str = "anchors.dat";

/// The paths of files that are read in the place of those of the current folder.
#[derive(Clone, Copy)]
pub struct Paths<'a> {
    /// In the place of peers.dat.
    pub peers: Option<&'a str>,
    /// In the place of asmap.dat.
    pub asmap: Option<&'a str>,
    /// In the place of banlist.json.
    pub bans: Option<&'a str>,
    /// Whether the asmap is the one beside peers.dat, which may be missing.
    pub is_beside: bool,
    /// Whether what is read in the place of peers.dat is a file of anchors.
    pub has_anchors: bool,
    /// Whether the listing in standard input is read in the place of peers.dat.
    pub has_listing: bool,
}

impl<'a> Paths<'a> {
    /// Returns no path: all files are those of the current folder.
    pub fn none() -> Paths<'a> {
        Paths {
            peers: None,
            asmap: None,
            bans: None,
            is_beside: false,
            has_anchors: false,
            has_listing: false,
        }
    }

    /// Returns the path of the file that is read in the place of this one, if there is one.
    pub fn of(&self, name: Name) -> Option<&'a str> {
        match name {
            Name::Peers => self.peers,
            Name::Asmap => self.asmap,
            Name::Bans => self.bans,
            _ => None,
        }
    }

    /// Returns the name of the file in whose place a file is read.
    pub fn replaced(&self, name: Name) -> &'static str {
        if self.has_anchors && name == Name::Peers {
            ANCHORS
        } else {
            name.file_name()
        }
    }

    /// Returns what a file is called in a text: its path, or its name in the current folder.
    pub fn text_of(&self, name: Name) -> &'a str {
        match self.of(name) {
            Some(path) => path,
            None => name.file_name(),
        }
    }
}

/// Says that a file is packed, if it begins as one of gzip (RFC 1952), xz, zip, zstd (RFC 8878) or
/// bzip2.
pub(crate) fn packed_text(bytes: &[u8]) -> Option<&'static str> {
    if bytes.starts_with(b"\x1f\x8b") {
        return Some("it is a gzip file: unpack it first");
    }
    if bytes.starts_with(b"\xfd7zXZ\x00") {
        return Some("it is an xz file: unpack it first");
    }
    if bytes.starts_with(b"PK\x03\x04") {
        return Some("it is a zip file: unpack it first");
    }
    if bytes.starts_with(b"\x28\xb5\x2f\xfd") {
        return Some("it is a zstd file: unpack it first");
    }
    if bytes.starts_with(b"BZh") {
        return Some("it is a bzip2 file: unpack it first");
    }
    None
}

/// Returns what is said of a path that begins with `~`, which the shell replaces only where an
/// argument begins; nothing of another path.
pub fn tilde_hint(path: &str) -> &'static str {
    if path.starts_with("~") {
        ": write a space instead of =, so that the shell expands ~"
    } else {
        ""
    }
}

/// What is said of a text that begins with a byte order mark.
pub(crate) const MARKED: &str = "the file begins with a byte order mark";

/// Returns `true` if a text begins with a byte order mark, of UTF-8 or UTF-16.
pub(crate) fn is_marked(text: &[u8]) -> bool {
    text.starts_with(b"\xef\xbb\xbf")
        || text.starts_with(b"\xff\xfe")
        || text.starts_with(b"\xfe\xff")
}

/// Where a file of anchors comes from.
const NO_ANCHORS: &str =
    "it must be in the current directory: a node writes it when it stops and removes it when it \
     starts; or name another file with --anchors FILE";

/// Says why an asmap is refused, which begins with these bytes.
pub fn asmap_hint(alloc: Global, fault: &CodeFault, head: &[u8]) -> Result<String, AllocError> {
    if let Some(said) = packed_text(head) {
        return String::from_str(alloc, said);
    }
    match fault {
        CodeFault::TooLarge { size } => {
            format!(in alloc; "it has {size} bytes; an asmap has at most {MAX_ASMAP}")
        }
        CodeFault::Insane => String::from_str(
            alloc,
            "it is not an asmap, or only part of one: addrman compile makes one from prefixes.txt",
        ),
    }
}

/// Says why a table is not compiled.
pub fn compile_hint(alloc: Global, fault: &CompileFault) -> Result<String, AllocError> {
    match fault {
        CompileFault::Empty => {
            String::from_str(alloc, "it has no rows: a row looks like 1.2.0.0/16 AS6")
        }
        CompileFault::TooLarge { bits } => {
            format!(in alloc; "it compiles to {bits} bits; an asmap has at most {MAX_BITS}")
        }
        CompileFault::Memory => Ok(String::new(alloc)),
    }
}

/// Says why banlist.json is refused, which has this text.
pub fn bans_hint(alloc: Global, fault: &BanFault, text: &[u8]) -> Result<String, AllocError> {
    match fault {
        BanFault::Json => json_hint(alloc, text, "an empty list is {\"banned_nets\":[]}"),
        BanFault::Form => {
            String::from_str(alloc, "expected an object with an array named banned_nets")
        }
        BanFault::TooMany => format!(in alloc; "it has more than {MAX_BANS} bans"),
        BanFault::TooLarge { size } => {
            format!(in alloc; "it has {size} bytes; at most {MAX_FILE} are allowed")
        }
        BanFault::Memory => Ok(String::new(alloc)),
    }
}

/// Says why a text is no JSON. `expected` says what it has to be.
pub(crate) fn json_hint(alloc: Global, text: &[u8], expected: &str) -> Result<String, AllocError> {
    if let Some(said) = packed_text(text) {
        return String::from_str(alloc, said);
    }
    if is_marked(text) {
        return String::from_str(alloc, MARKED);
    }
    match Value::from_slice(alloc, text) {
        Err(error) => {
            let (line, column) = (error.line(), error.column().max(1));
            format!(in alloc; "line {line}, column {column}: not JSON; {expected}")
        }
        Ok(_) => Ok(String::new(alloc)),
    }
}

/// Says where a file comes from that is missing; of one with a path, that it is the one.
pub fn missing_hint(alloc: Global, name: Name, paths: &Paths<'_>) -> Result<String, AllocError> {
    if let Some(path) = paths.of(name) {
        let replaced = paths.replaced(name);
        if path == replaced {
            return String::from_str(alloc, NO_ANCHORS);
        }
        let tilde = tilde_hint(path);
        if !tilde.is_empty() {
            return format!(in alloc; "{path} is missing{tilde}");
        }
        return format!(in alloc; "{path} is missing: it was given instead of {replaced}");
    }
    let text = match name {
        Name::Asmap =>
            "make it with addrman compile from prefixes.txt in the current directory, or name \
             another file with --asmap FILE",
        Name::AsmapOld => "it must be in the current directory: the previous asmap",
        Name::Prefixes => "it must be in the current directory, with rows such as 1.2.0.0/16 AS6",
        _ => "it must be in the current directory: copy it from a stopped node, or name another \
             file with --peers FILE",
    };
    String::from_str(alloc, text)
}

/// Says which file is read in the place of this one, if another is.
pub fn place_hint(alloc: Global, name: Name, paths: &Paths<'_>) -> Result<String, AllocError> {
    match paths.of(name) {
        Some(path) if path != paths.replaced(name) => {
            format!(in alloc; "{path} is read instead of {}", paths.replaced(name))
        }
        _ => Ok(String::new(alloc)),
    }
}
