//! `load_bans`, `save_bans` and `ListFault`: the `banlist.json` of a folder.

ghost use Rattle.std.specs.Prelude.{◌≡◌, ◌≢◌, ◌<◌, ◌≤◌, ◌⊎◌, length, None, Ok, Err, IfOk, IfErr, IfSome, OnOk};
ghost use Rattle.host_io.specs.Faults.{Rose};
ghost use Rattle.host_io.specs.Files.{known_bytes};
ghost use Rattle.host_io.specs.Past.{Always, files_of};
ghost use Rattle.host_io.specs.PerName.{under};
ghost use Rattle.host_io.specs.declared.name.Name.TheVariants as name;
ghost use Rattle.save_store.specs.Saves.{IsStored, PublishesOrNot};
ghost use Rattle.ban_list.specs.BanFile.{IsBanFile, bans_text};
ghost use Rattle.ban_list.specs.declared.read_file.TheConstants.{MAX_FILE};
ghost use Rattle.node_face.specs.BanFiles.{IsListOf, IsListFault};

use crate::SaveFault;
use ban_list::{BanFault, Bans, MAX_FILE, read_bans, write_bans};
use host_io::{Folder, Name};
use save_store::LoadFault;
use std::alloc::Global;

/// Why the list of bans of a folder is not read.
#[derive(Clone, Copy, Debug, PartialEq, Eq)]
pub enum ListFault {
    /// The folder failed.
    Disk,
    /// The file has more bytes than `ban_list::MAX_FILE`.
    TooLarge { size: u64 },
    /// The bytes are no list of bans.
    File(BanFault),
    /// Out of memory.
    Memory,
}

/// Reads the list of bans that the `banlist.json` of a folder has, or returns `None` if there is no
/// such file.
pub fn load_bans<F: Folder>(alloc: Global, folder: &mut F) -> Result<Option<Bans>, ListFault>
    ensures absent { result ≡ Ok None → IfSome (files_of (F.past folder.old)) (λ files.
        under files name.Bans ≡ None) }
    ensures no_file { IfSome (files_of (F.past folder.old)) (λ files. under files name.Bans ≡ None →
        (result ≡ Ok None) ⊎ (result ≡ Err ListFault.Disk)) }
    ensures larger { IfSome (known_bytes (files_of (F.past folder.old)) name.Bans) (λ bytes.
        MAX_FILE < length bytes → (result ≡ Err (ListFault.TooLarge (length bytes)))
        ⊎ (result ≡ Err ListFault.Disk)) }
    ensures found { IfOk result (λ loaded. IfSome loaded
        (λ bans. IsListOf (files_of (F.past folder.old)) bans)) }
    ensures cause { IfErr result (IsListFault (files_of (F.past folder.old))) }
    ensures disk { result ≡ Err ListFault.Disk →
        Rose (F.faults folder.old) (F.faults folder.new) }
    ensures same { F.past folder.new ≡ F.past folder.old }
    ensures never_falls { F.faults folder.old ≤ F.faults folder.new }
{
    let bytes = match save_store::load(alloc, folder, Name::Bans, MAX_FILE as u64) {
        Ok(Some(bytes)) => bytes,
        Ok(None) => return Ok(None),
        Err(LoadFault::Disk) => return Err(ListFault::Disk),
        Err(LoadFault::TooLarge { size }) => {
            return Err(ListFault::TooLarge { size });
        }
        Err(LoadFault::Memory) => return Err(ListFault::Memory),
    };
    match read_bans(alloc, bytes.items()) {
        Ok(bans) => Ok(Some(bans)),
        Err(BanFault::Memory) => Err(ListFault::Memory),
        Err(fault) => Err(ListFault::File(fault)),
    }
}

/// Puts the file that keeps the list in the place of `banlist.json`. Until `Ok`, a crash leaves the
/// old file or the new one; afterwards always the new one (`save_store::save`).
pub fn save_bans<F: Folder>(alloc: Global, bans: &Bans, folder: &mut F) -> Result<(), SaveFault>
    ensures any_moment { result ≢ Err SaveFault.Memory →
        Always (F.past folder.old) (F.past folder.new)
        (PublishesOrNot name.BansTemp name.Bans (bans_text bans.now)) }
    ensures stored { OnOk result (IfSome (F.past folder.new) (λ p.
        IsStored name.Bans (bans_text bans.now) p.now)) }
    ensures reads_back { OnOk result (IsBanFile (bans_text bans.now) bans.now) }
    ensures memory { result ≡ Err SaveFault.Memory → folder.new ≡ folder.old }
    ensures cause { result ≡ Err SaveFault.Disk →
        Rose (F.faults folder.old) (F.faults folder.new) }
    ensures never_falls { F.faults folder.old ≤ F.faults folder.new }
{
    let Ok(bytes) = write_bans(alloc, bans) else {
        return Err(SaveFault::Memory);
    };
    match save_store::save(folder, Name::BansTemp, Name::Bans, bytes.items()) {
        Ok(()) => Ok(()),
        Err(_) => Err(SaveFault::Disk),
    }
}
