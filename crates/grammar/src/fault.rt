//! `LineFault`: an unknown keyword, a wrong number of fields, or a field with an error.

ghost use Rattle.std.specs.Prelude.{◌≡◌};
ghost use Rattle.grammar.specs.FaultTexts.{line_fault_text};

use thiserror::Error;

/// Why a line is refused: an unknown keyword, a wrong number of fields, or the first field with an
/// error.
#[derive(Clone, Copy, Debug, PartialEq, Eq, Error)]
pub enum LineFault {
    /// The keyword of the line is unknown, or a field is none of its keywords or names.
    #[error("word")]
    Word,
    /// The line has too few or too many fields.
    #[error("fields")]
    Fields,
    /// A number is not decimal or out of range.
    #[error("number")]
    Number,
    /// A field is not an address or not a peer.
    #[error("peer")]
    Peer,
    /// Bytes are not in hexadecimal digits.
    #[error("hex")]
    Hex,
    /// A field is no list of random words.
    #[error("words")]
    Words,
    /// Out of memory.
    #[error("out of memory")]
    Memory,
}

impl LineFault {
    /// Returns the word for the fault, as it is printed.
    pub fn word(&self) -> &'static [u8]
        ensures { result.now ≡ line_fault_text self.now }
    {
        match self {
            LineFault::Word => b"word",
            LineFault::Fields => b"fields",
            LineFault::Number => b"number",
            LineFault::Peer => b"peer",
            LineFault::Hex => b"hex",
            LineFault::Words => b"words",
            LineFault::Memory => b"out of memory",
        }
    }
}
