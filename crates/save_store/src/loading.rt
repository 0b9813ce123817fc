//! `load` reads a file up to a limit; `LoadFault` has the size of one that is too large.

ghost use Rattle.host_io.specs.declared.failed.ReadFault.TheVariants as read;
ghost use Rattle.save_store.specs.declared.loading.LoadFault.TheVariants as fault;
ghost use Rattle.std.specs.Prelude.{◌≡◌, ℕ, ◌<◌, ◌≤◌, ◌⊎◌, length, IfOk, IfSome, IsErrOf};
ghost use Rattle.std.specs.Option.{option_map};
ghost use Rattle.host_io.specs.Calls.{IsReadOf, OnlyCalls};
ghost use Rattle.host_io.specs.Faults.{Rose};
ghost use Rattle.host_io.specs.Files.{known_bytes};
ghost use Rattle.host_io.specs.Past.{files_of};
ghost use Rattle.host_io.specs.PerName.{under};

use host_io::{Bytes, Failed, Folder, Name, ReadFault, read_past};
use std::alloc::Global;

/// Why a file is not loaded.
#[derive(Clone, Copy, PartialEq, Eq, Debug)]
pub enum LoadFault {
    /// The folder failed.
    Disk,
    /// The file has more bytes than the limit.
    TooLarge {
        /// The length of the file in bytes.
        size: u64,
    },
    /// There is no memory for the bytes.
    Memory,
}

impl From<Failed> for LoadFault {
    ghost from_gives = { λ _ e. e ≡ fault.Disk };

    fn from(_: Failed) -> LoadFault {
        LoadFault::Disk
    }
}

impl From<ReadFault> for LoadFault {
    ghost from_gives = { λ why e.
        (why ≡ read.Failed → e ≡ fault.Disk) × (why ≡ read.Memory → e ≡ fault.Memory) };

    fn from(fault: ReadFault) -> LoadFault {
        match fault {
            ReadFault::Failed => LoadFault::Disk,
            ReadFault::Memory => LoadFault::Memory,
        }
    }
}

/// Returns the bytes of a file as it was when its size was asked, or `None` if it is absent. If the
/// size is above `limit`, no byte is read. Otherwise the file is read at least once. A folder whose
/// files contracts do not know may give fewer bytes than the size; then those are the result.
#[tactic(auto, using(host_io::proofs::Asking::size_ok, host_io::proofs::Asking::size_err, host_io::proofs::Asking::size_then))]
pub fn load<F: Folder>(
    alloc: Global,
    folder: &mut F,
    name: Name,
    limit: u64,
) -> Result<Option<Bytes>, LoadFault>
    ensures found { IfOk result (λ loaded.
        IfSome (files_of (F.past folder.old)) (λ files. loaded ≡ under files name)) }
    ensures within { IfOk result (λ loaded. IfSome loaded (λ bytes. length bytes ≤ limit)) }
    ensures absent { IfSome (files_of (F.past folder.old)) (λ files. under files name ≡ None →
        (result ≡ Ok None) ⊎ (result ≡ Err LoadFault.Disk)) }
    ensures larger { IfSome (known_bytes (files_of (F.past folder.old)) name) (λ bytes.
        limit < length bytes →
        (result ≡ Err (LoadFault.TooLarge (length bytes))) ⊎ (result ≡ Err LoadFault.Disk)) }
    ensures too_large { (size : ℕ) → result ≡ Err (LoadFault.TooLarge size) → limit < size }
    ensures size { (size : ℕ) → result ≡ Err (LoadFault.TooLarge size) →
        IfSome (files_of (F.past folder.old)) (λ files.
        option_map length (under files name) ≡ Some size) }
    ensures cause { IsErrOf result LoadFault.Disk →
        Rose (F.faults folder.old) (F.faults folder.new) }
    ensures same { F.past folder.new ≡ F.past folder.old }
    ensures never_falls { F.faults folder.old ≤ F.faults folder.new }
    ensures asks { OnlyCalls (IsReadOf name) (F.calls folder.old) (F.calls folder.new) }
{
    let Some(size) = folder.size(name)? else {
        return Ok(None);
    };
    if limit < size {
        return Err(LoadFault::TooLarge { size });
    }
    let mut bytes = read_past(alloc, folder, name, size)?;
    bytes.truncate(size as usize);
    Ok(Some(Bytes::of(bytes)))
}
