//! `write`, `save` and `SaveFault`: tables into bytes, or into a folder.

ghost use Rattle.std.specs.Prelude.{◌≡◌, ◌≢◌, ◌≤◌, Err, IfOk, IfSome, OnOk};
ghost use Rattle.host_io.specs.Faults.{Rose};
ghost use Rattle.host_io.specs.Past.{Always};
ghost use Rattle.host_io.specs.declared.name.Name.TheVariants.{Peers, PeersTemp};
ghost use Rattle.save_store.specs.Saves.{IsStored, PublishesOrNot};
ghost use Rattle.peers_file.specs.Texts.{file_text};
ghost use Rattle.table_machine.specs.Snapshot.{snapshot_of};

use host_io::{Bytes, Folder, Name};
use peers_file::{Chain, write_file};
use std::alloc::Global;
use std::hash::BuildHasher;
use tables::{Memory, Tables};

/// Why tables are not saved.
#[derive(Clone, Copy, Debug, PartialEq, Eq)]
pub enum SaveFault {
    /// The folder failed.
    Disk,
    /// Out of memory. Nothing was written.
    Memory,
}

/// Returns the bytes of the `peers.dat` that keeps the tables.
pub fn write<H: BuildHasher>(
    alloc: Global,
    tables: &Tables<'_, H>,
    chain: Chain,
) -> Result<Bytes, Memory>
    ensures found { IfOk result (λ bytes. bytes ≡ file_text chain (snapshot_of tables.now)) }
{
    let Ok(snap) = node_calls::snapshot(tables) else {
        return Err(Memory);
    };
    match write_file(alloc, &snap, chain) {
        Ok(bytes) => Ok(bytes),
        Err(_) => Err(Memory),
    }
}

/// Puts the file that keeps the tables in the place of `peers.dat`. Until `Ok`, a crash leaves the
/// old file or the new one; afterwards always the new one (`save_store::save`).
pub fn save<F: Folder, H: BuildHasher>(
    alloc: Global,
    tables: &Tables<'_, H>,
    chain: Chain,
    folder: &mut F,
) -> Result<(), SaveFault>
    ensures any_moment { result ≢ Err SaveFault.Memory →
        Always (F.past folder.old) (F.past folder.new)
        (PublishesOrNot PeersTemp Peers (file_text chain (snapshot_of tables.now))) }
    ensures stored { OnOk result (IfSome (F.past folder.new) (λ p.
        IsStored Peers (file_text chain (snapshot_of tables.now)) p.now)) }
    ensures memory { result ≡ Err SaveFault.Memory → folder.new ≡ folder.old }
    ensures cause { result ≡ Err SaveFault.Disk →
        Rose (F.faults folder.old) (F.faults folder.new) }
    ensures never_falls { F.faults folder.old ≤ F.faults folder.new }
{
    let Ok(bytes) = write(alloc, tables, chain) else {
        return Err(SaveFault::Memory);
    };
    match save_store::save(folder, Name::PeersTemp, Name::Peers, bytes.items()) {
        Ok(()) => Ok(()),
        Err(_) => Err(SaveFault::Disk),
    }
}
