//! `TablesFault`: why `prefixes.txt` is refused.

ghost use Rattle.std.specs.Prelude.{◌≡◌, IfOk};
ghost use Rattle.addrman_run.specs.FaultTexts.{tables_fault_text};

use crate::Memory;
use asmap_compile::CompileFault;
use prefix_table::TableFault;
use std::alloc::Global;

/// Why prefixes.txt is refused.
#[derive(Clone, Copy, Debug, PartialEq, Eq)]
pub enum TablesFault {
    /// Its size or its text.
    Rows(TableFault),
    /// The table cannot be compiled.
    Compile(CompileFault),
}

impl TablesFault {
    /// Returns the text for the fault, as it is printed.
    pub fn text(&self, alloc: Global) -> Result<Vec<u8>, Memory>
        ensures { IfOk result (λ text. text.items ≡ tables_fault_text self.now) }
    {
        match self {
            TablesFault::Rows(fault) => fault.text(alloc),
            TablesFault::Compile(fault) => Ok(Vec::from_slice(alloc, fault.word())?),
        }
    }
}
