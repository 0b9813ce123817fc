//! `TableFault`: why a text is not a table, with the number of the line.

ghost use Rattle.std.specs.Prelude.{◌≡◌, IfOk};
ghost use Rattle.prefix_table.specs.FaultTexts.{at_line, table_fault_text};
ghost use Rattle.prefix_table.specs.declared.fault.TableFault.TheVariants as fault;

use net_addr::{Memory, put_number};
use std::alloc::{AllocError, Global};
use thiserror::Error;

/// Why a text is not read as a table. Lines are counted from 1; the first line with a fault
/// decides.
#[derive(Clone, Copy, Debug, PartialEq, Eq, Error)]
pub enum TableFault {
    /// The line is neither empty, nor a comment, nor a row.
    #[error("form")]
    Form {
        /// The line.
        line: u32,
    },
    /// The length of the prefix or the AS number is out of range.
    #[error("number")]
    Number {
        /// The line.
        line: u32,
    },
    /// A bit is set after the prefix.
    #[error("host-bits")]
    HostBits {
        /// The line.
        line: u32,
    },
    /// An earlier line has the same prefix.
    #[error("repeated")]
    Repeated {
        /// The line.
        line: u32,
    },
    /// There are more than `MAX_ROWS` rows.
    #[error("too-many")]
    TooMany,
    /// The file of the text has more bytes than `MAX_TEXT`.
    #[error("too-large")]
    TooLarge {
        /// The length of the file in bytes.
        size: u64,
    },
    /// Out of memory.
    #[error("out of memory")]
    Memory,
}

impl From<AllocError> for TableFault {
    ghost from_gives = { λ _ e. e ≡ fault.Memory };

    fn from(_: AllocError) -> TableFault {
        TableFault::Memory
    }
}

impl TableFault {
    /// Returns the text for the fault, as it is printed: its word, and the line if there is one.
    pub fn text(&self, alloc: Global) -> Result<Vec<u8>, Memory>
        ensures { IfOk result (λ text. text.items ≡ table_fault_text self.now) }
    {
        match self {
            TableFault::Form { line } => at_line(alloc, b"form", *line),
            TableFault::Number { line } => at_line(alloc, b"number", *line),
            TableFault::HostBits { line } => at_line(alloc, b"host-bits", *line),
            TableFault::Repeated { line } => at_line(alloc, b"repeated", *line),
            TableFault::TooMany => Ok(Vec::from_slice(alloc, b"too-many")?),
            TableFault::TooLarge { .. } => Ok(Vec::from_slice(alloc, b"too-large")?),
            TableFault::Memory => Ok(Vec::from_slice(alloc, b"out of memory")?),
        }
    }
}

/// Returns a word and the number of a line.
fn at_line(alloc: Global, word: &[u8], line: u32) -> Result<Vec<u8>, Memory>
    ensures { IfOk result (λ text. text.items ≡ at_line word.now line) }
{
    let mut text = Vec::from_slice(alloc, word)?;
    put_number(b" at line ", u64::from(line), &mut text)?;
    Ok(text)
}
