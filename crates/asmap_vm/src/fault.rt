//! `CodeFault`: why a file is refused.

ghost use Rattle.std.specs.Prelude.{◌≡◌};
ghost use Rattle.asmap_vm.specs.FaultTexts.{code_fault_text};

/// Why a file is refused.
#[derive(Clone, Copy, Debug, PartialEq, Eq)]
pub enum CodeFault {
    /// The file has more than `MAX_ASMAP` bytes.
    TooLarge {
        /// Its size in bytes.
        size: u64,
    },
    /// The file is that of no sane tree.
    Insane,
}

impl CodeFault {
    /// Returns the word for the fault, as it is printed.
    pub fn word(&self) -> &'static [u8]
        ensures { result.now ≡ code_fault_text self.now }
    {
        match self {
            CodeFault::TooLarge { .. } => b"too-large",
            CodeFault::Insane => b"insane",
        }
    }
}
