//! Calls that fail: `Failed`, `ReadFault` and `Failure`, the count of faults, and `FailingCalls`,
//! which says which calls of an object in memory fail.

ghost use Rattle.host_io.specs.declared.failed.ReadFault.TheVariants as fault;
ghost use Rattle.std.specs.Prelude.{◌≡◌, ◌≤◌, ◌↔◌, Contains, IsErr, IfOk, OnOk, OnErr};
ghost use Rattle.host_io.specs.Faults.{Rose, StillCountHasNotRisen, raised};

use crate::name::Name;
use memory::Memory;
use std::alloc::{AllocError, Global};
use std::io;

/// The outside failed a call. The object's count of faults rose in it.
#[derive(Clone, Copy, PartialEq, Eq, Debug)]
pub struct Failed;

/// Counts a fault; the count stops at 2^64 - 1.
pub(crate) fn fault(faults: &mut u64) -> Failed
    ensures counted { faults.new ≡ raised faults.old }
    ensures cause { Rose faults.old faults.new }
    ensures never_falls { faults.old ≤ faults.new }
{
    *faults = faults.saturating_add(1);
    Failed
}

/// An object whose count of faults never changes, and is below 2^64 - 1, never answers `Failed`.
pub fn still_count_has_not_risen()
    ensures { StillCountHasNotRisen }
{}

/// Why bytes are not read.
#[derive(Clone, Copy)]
pub enum ReadFault {
    /// A read failed.
    Failed,
    /// There is no memory for the bytes.
    Memory,
}

impl From<Failed> for ReadFault {
    ghost from_gives = { λ _ e. e ≡ fault.Failed };

    fn from(_: Failed) -> ReadFault {
        ReadFault::Failed
    }
}

impl From<AllocError> for ReadFault {
    ghost from_gives = { λ _ e. e ≡ fault.Memory };

    fn from(_: AllocError) -> ReadFault {
        ReadFault::Memory
    }
}

/// The calls of a source or a sink in memory, some of which its maker chose to fail.
#[derive(Drop)]
pub struct FailingCalls {
    /// The numbers, from 0, of the calls that fail.
    pub fails: Vec<u64>,
    /// How many calls there were; the count stops at 2^64 - 1.
    pub calls: u64,
    /// How many calls failed; the count stops at 2^64 - 1.
    pub faults: u64,
}

impl FailingCalls {
    /// Makes the record of no calls. The calls whose numbers are in `fails` will fail.
    pub fn make(alloc: Global, fails: &[u64]) -> Result<FailingCalls, Memory>
        ensures fails { IfOk result (λ chosen. chosen.fails.items ≡ fails.now) }
        ensures calls { IfOk result (λ chosen. chosen.calls ≡ 0) }
        ensures faults { IfOk result (λ chosen. chosen.faults ≡ 0) }
    {
        Ok(FailingCalls {
            fails: fails.to_vec(alloc)?,
            calls: 0,
            faults: 0,
        })
    }

    /// Counts a call. Fails if the call was chosen to.
    pub fn begin(&mut self) -> Result<(), Failed>
        ensures chosen { IsErr result ↔ Contains self.old.fails.items self.old.calls }
        ensures ok { OnOk result (self.new ≡ record self.old { calls = raised self.old.calls }) }
        ensures err { OnErr result (self.new ≡ record self.old {
          calls = raised self.old.calls;
          faults = raised self.old.faults;
        }) }
        ensures cause { OnErr result (Rose self.old.faults self.new.faults) }
        ensures never_falls { self.old.faults ≤ self.new.faults }
    {
        let chosen = self.fails.contains(&self.calls);
        self.calls = self.calls.saturating_add(1);
        if chosen {
            return Err(fault(&mut self.faults));
        }
        Ok(())
    }
}

/// What was tried when a call on a file failed.
#[derive(Clone, Copy, Debug, PartialEq, Eq)]
pub enum Tried {
    Lock,
    Read,
    Create,
    Write,
    Sync,
    Rename,
}

/// A call on a file, or on the folder itself, that failed.
#[derive(Clone, Copy)]
pub struct Failure {
    /// The file; `None` for the folder.
    pub name: Option<Name>,
    /// What was tried.
    pub tried: Tried,
    /// The system's error; `InvalidInput` if what has the name is no regular file.
    pub error: io::Error,
}
