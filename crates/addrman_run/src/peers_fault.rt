//! `PeersFault`: why `peers.dat` is refused, which is its fault or a duplicate.

ghost use Rattle.std.specs.Prelude.{◌≡◌};
ghost use Rattle.addrman_run.specs.FaultTexts.{peers_fault_text};

use peers_file::FileFault;

/// Why peers.dat is refused.
#[derive(Clone, Copy, Debug, PartialEq, Eq)]
pub enum PeersFault {
    /// Its size or its bytes.
    File(FileFault),
    /// Two of its valid records have the same peer. Only a command that restores the tables refuses
    /// such a file.
    Duplicate {
        /// The index of the first record whose peer an earlier one has. Records are counted from 0,
        /// the new ones first.
        index: u32,
    },
}

impl PeersFault {
    /// Returns the word for the fault, as it is printed.
    pub fn word(&self) -> &'static [u8]
        ensures { result.now ≡ peers_fault_text self.now }
    {
        match self {
            PeersFault::File(fault) => fault.word(),
            PeersFault::Duplicate { .. } => b"duplicate",
        }
    }
}
