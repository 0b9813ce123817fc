//! `open`, `read`, `load` and `OpenFault`: tables from nothing, from bytes, or from a folder.

ghost use Rattle.std.specs.Prelude.{◌≡◌, ◌<◌, ◌≤◌, ◌⊎◌, length, None, Ok, Err, IfOk, IfErr, IfSome};
ghost use Rattle.host_io.specs.Faults.{Rose};
ghost use Rattle.host_io.specs.Files.{known_bytes};
ghost use Rattle.host_io.specs.Past.{files_of};
ghost use Rattle.host_io.specs.PerName.{under};
ghost use Rattle.host_io.specs.declared.name.Name.TheVariants.{Peers};
ghost use Rattle.peers_file.specs.declared.read.TheConstants.{MAX_FILE};
ghost use Rattle.placing.specs.Inside.{map_of};
ghost use Rattle.node_face.specs.Files.{IsOpened, IsLoaded, IsOpenFault, IsFromFolder, IsFolderFault};

use asmap_vm::Sane;
use host_io::{Folder, Name};
use peers_file::{Chain, FileFault, MAX_FILE, read_file};
use placing::{Placer, SumRule};
use save_store::LoadFault;
use std::alloc::Global;
use std::hash::BuildHasher;
use tables::{Memory, RestoreFault, Tables};

/// Why tables are not read.
#[derive(Clone, Copy, Debug, PartialEq, Eq)]
pub enum OpenFault {
    /// The folder failed.
    Disk,
    /// The file has more bytes than `MAX_FILE`; `read` never returns this.
    TooLarge { size: u64 },
    /// The bytes are no file of the chain.
    File(FileFault),
    /// Two valid records have one peer: the index of the later one.
    Duplicate { index: u32 },
    /// Out of memory.
    Memory,
}

/// Makes a placer that has a copy of the asmap and a rule for its checksum.
fn placer_of(
    alloc: Global,
    key: [u8; 32],
    map: Option<Sane<'_>>,
    rule: SumRule,
) -> Result<Placer<'static>, Memory>
    ensures { IfOk result (λ placer.
        placer ≡ record { key = key; map = map_of map.entry; rule = rule }) }
{
    let Some(map) = map else {
        return Ok(Placer::make(key, None).with_rule(rule));
    };
    match Placer::with_copy(alloc, key, &map) {
        Ok(placer) => Ok(placer.with_rule(rule)),
        Err(_) => Err(Memory),
    }
}

/// Makes empty tables, which keep a copy of the asmap and the rule for its checksum.
pub fn open<H: BuildHasher + Drop>(
    alloc: Global,
    key: [u8; 32],
    map: Option<Sane<'_>>,
    rule: SumRule,
    hasher: H,
) -> Result<Tables<'static, H>, Memory>
    ensures { IfOk result (IsOpened key (map_of map.entry) rule) }
{
    let placer = placer_of(alloc, key, map, rule)?;
    Tables::open(alloc, placer, hasher)
}

/// Makes the tables that the bytes of a `peers.dat` have. If the file was placed by another asmap,
/// by the checksums of this rule, the new records are placed again.
pub fn read<H: BuildHasher + Drop>(
    alloc: Global,
    bytes: &[u8],
    chain: Chain,
    map: Option<Sane<'_>>,
    rule: SumRule,
    hasher: H,
) -> Result<Tables<'static, H>, OpenFault>
    ensures found { IfOk result (λ t. IsLoaded chain bytes.now (map_of map.entry) rule t) }
    ensures cause { IfErr result (IsOpenFault chain bytes.now) }
{
    let snap = match read_file(alloc, bytes, chain) {
        Ok(snap) => snap,
        Err(FileFault::Memory) => return Err(OpenFault::Memory),
        Err(fault) => return Err(OpenFault::File(fault)),
    };
    let Ok(placer) = placer_of(alloc, snap.key(), map, rule) else {
        return Err(OpenFault::Memory);
    };
    match node_calls::restore(alloc, &snap, placer, hasher) {
        Ok(tables) => Ok(tables),
        Err(RestoreFault::Memory) => Err(OpenFault::Memory),
        Err(RestoreFault::Duplicate { index }) => Err(OpenFault::Duplicate { index }),
    }
}

/// Makes the tables that the `peers.dat` of a folder has, or returns `None` if there is no such
/// file.
pub fn load<F: Folder, H: BuildHasher + Drop>(
    alloc: Global,
    folder: &mut F,
    chain: Chain,
    map: Option<Sane<'_>>,
    rule: SumRule,
    hasher: H,
) -> Result<Option<Tables<'static, H>>, OpenFault>
    ensures absent { result ≡ Ok None → IfSome (files_of (F.past folder.old)) (λ files.
        under files Peers ≡ None) }
    ensures no_file { IfSome (files_of (F.past folder.old)) (λ files. under files Peers ≡ None →
        (result ≡ Ok None) ⊎ (result ≡ Err OpenFault.Disk)) }
    ensures larger { IfSome (known_bytes (files_of (F.past folder.old)) Peers) (λ bytes.
        MAX_FILE < length bytes → (result ≡ Err (OpenFault.TooLarge (length bytes)))
        ⊎ (result ≡ Err OpenFault.Disk)) }
    ensures found { IfOk result (λ loaded. IfSome loaded
        (λ t. IsFromFolder (files_of (F.past folder.old)) chain (map_of map.entry) rule t)) }
    ensures cause { IfErr result (IsFolderFault (files_of (F.past folder.old)) chain) }
    ensures disk { result ≡ Err OpenFault.Disk →
        Rose (F.faults folder.old) (F.faults folder.new) }
    ensures same { F.past folder.new ≡ F.past folder.old }
    ensures never_falls { F.faults folder.old ≤ F.faults folder.new }
{
    let bytes = match save_store::load(alloc, folder, Name::Peers, MAX_FILE as u64) {
        Ok(Some(bytes)) => bytes,
        Ok(None) => return Ok(None),
        Err(LoadFault::Disk) => return Err(OpenFault::Disk),
        Err(LoadFault::TooLarge { size }) => {
            return Err(OpenFault::TooLarge { size });
        }
        Err(LoadFault::Memory) => return Err(OpenFault::Memory),
    };
    match read(alloc, bytes.items(), chain, map, rule, hasher) {
        Ok(tables) => Ok(Some(tables)),
        Err(fault) => Err(fault),
    }
}
