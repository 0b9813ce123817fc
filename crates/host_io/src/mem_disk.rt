//! `MemDisk`, the disk of a folder in memory, and the image that a crash with a given choice
//! leaves.

ghost use Rattle.std.specs.Prelude.{◌≡◌, ◌<◌, [], IfOk, OnOk, OnErr};
ghost use Rattle.host_io.specs.Disk.{IsImage, MayHave, after_sync_dir, files_on, safe};
ghost use Rattle.host_io.specs.MemFolder.{after_change, disk_of, log_with};
ghost use Rattle.host_io.specs.PerName.{each, under};
ghost use Rattle.host_io.specs.declared.call.Change.TheVariants as change;

use crate::call::Change;
use crate::entry::{DirEntry, Fate, copy_file};
use crate::list::Bytes;
use crate::name::{Name, PerName};
use std::alloc::{AllocError, Global};
use std::marker::Model;

/// The bytes of a file that was not synced, after a crash.
const TORN: &[u8] = b"torn";

/// The bytes of such a file if the crash took all of them.
const EMPTY: &[u8] = b"";

/// The disk of a folder in memory: what it had at first, its changes, and what they made of it.
#[derive(Drop)]
pub struct MemDisk {
    alloc: Global,
    first: PerName<Option<Bytes>>,
    changes: Vec<Change>,
    entries: PerName<DirEntry>,
}

impl Model for MemDisk {
    ghost use Rattle.std.specs.Prelude.{◌≡◌};
    ghost use Rattle.host_io.specs.MemFolder.{DiskLog, disk_of};

    ghost Value = { DiskLog };

    ghost view = { λ d. record { first = d.first; changes = d.changes.items } };

    ghost invariant = { λ d.
        d.entries ≡ disk_of (record { first = d.first; changes = d.changes.items }) };
}

impl MemDisk {
    /// Makes a disk with these files, all of them safe.
    pub fn make(alloc: Global, first: PerName<Option<Bytes>>) -> Result<MemDisk, AllocError>
        ensures first { IfOk result (λ disk. disk.first ≡ first) }
        ensures changes { IfOk result (λ disk. disk.changes ≡ []) }
    {
        let entries = safe_entries(alloc, &first)?;
        Ok(MemDisk {
            alloc,
            first,
            changes: Vec::new(alloc),
            entries,
        })
    }

    /// Makes a change.
    pub fn change(&mut self, change: Change) -> Result<(), AllocError>
        ensures ok { OnOk result (self.new ≡ log_with self.old change) }
        ensures err { OnErr result (self.new ≡ self.old) }
    {
        self.changes.reserve(1)?;
        make_change(self.alloc, &mut self.entries, &change)?;
        self.changes.push_reserved(change);
        Ok(())
    }

    /// Returns the files that a crash leaves, as `MemFolder::crash` says.
    pub fn image(&self, choice: u64) -> Result<PerName<Option<Bytes>>, AllocError>
        ensures image { IfOk result (λ files. IsImage (disk_of self.now) files) }
        ensures as_read { choice ≡ 0 → IfOk result (λ files.
            files ≡ files_on (disk_of self.now)) }
    {
        let mut files = PerName::none();
        self.find_all(choice, &mut files)?;
        Ok(files)
    }

    /// Puts the files that a crash leaves under their names. A function that owned them would drop
    /// them at each way out.
    fn find_all(&self, choice: u64, files: &mut PerName<Option<Bytes>>) -> Result<(), AllocError>
        ensures image { OnOk result (IsImage (disk_of self.now) files.new) }
        ensures as_read { choice ≡ 0 → OnOk result (files.new ≡ files_on (disk_of self.now)) }
    {
        let mut rest = choice.saturating_sub(3);
        files.peers = self.found(Name::Peers, choice, &mut rest)?;
        files.peers_temp = self.found(Name::PeersTemp, choice, &mut rest)?;
        files.asmap = self.found(Name::Asmap, choice, &mut rest)?;
        files.asmap_temp = self.found(Name::AsmapTemp, choice, &mut rest)?;
        files.asmap_old = self.found(Name::AsmapOld, choice, &mut rest)?;
        files.prefixes = self.found(Name::Prefixes, choice, &mut rest)?;
        files.bans = self.found(Name::Bans, choice, &mut rest)?;
        files.bans_temp = self.found(Name::BansTemp, choice, &mut rest)?;
        Ok(())
    }

    /// Returns the file that a crash leaves at a name, or none. From choice 3 on, `rest` picks the
    /// fate, and what is left of it picks those of the other names.
    #[tactic(auto, using(crate::proofs::Fates::allows_at))]
    fn found(&self, name: Name, choice: u64, rest: &mut u64) -> Result<Option<Bytes>, AllocError>
        ensures allowed { IfOk result (λ found. MayHave (under (disk_of self.now) name) found) }
        ensures as_read { choice ≡ 0 → IfOk result (λ found.
            found ≡ (under (disk_of self.now) name).file) }
    {
        let entry = self.entry(name);
        if choice == 0 {
            return entry.as_read(self.alloc);
        }
        let fates = entry.fates(self.alloc)?;
        let index = match choice {
            1 if self.is_target(name) => oldest(&fates),
            1 if entry.is_loose() => usize::from(entry.is_torn()) + 1,
            1 => 0,
            2 => usize::from(entry.is_torn()),
            _ => take_digit(rest, fates.len()),
        };
        let any = if choice == 2 { EMPTY } else { TORN };
        fates[index.min(fates.len() - 1)].found(self.alloc, any)
    }

    /// Returns `true` if the name was the target of a rename since the folder was synced and since
    /// it was created.
    fn is_target(&self, name: Name) -> bool {
        for change in self.changes.iter().rev() {
            match change {
                Change::Renamed { from: _, to } if *to == name => return true,
                Change::Put {
                    name: put,
                    bytes: _,
                } if *put == name => return false,
                Change::Created { name: created } if *created == name => return false,
                Change::FolderSynced => return false,
                _ => {}
            }
        }
        false
    }

    /// Returns what the disk has at a name.
    pub fn entry(&self, name: Name) -> &DirEntry
        ensures { result.now ≡ under (disk_of self.now) name }
    {
        self.entries.get(name)
    }
}

/// Makes names with these files, all of them safe.
fn safe_entries(
    alloc: Global,
    files: &PerName<Option<Bytes>>,
) -> Result<PerName<DirEntry>, AllocError>
    ensures { IfOk result (λ entries. entries ≡ each safe files.now) }
{
    let mut entries = PerName {
        peers: DirEntry::safe(alloc, None),
        peers_temp: DirEntry::safe(alloc, None),
        asmap: DirEntry::safe(alloc, None),
        asmap_temp: DirEntry::safe(alloc, None),
        asmap_old: DirEntry::safe(alloc, None),
        prefixes: DirEntry::safe(alloc, None),
        bans: DirEntry::safe(alloc, None),
        bans_temp: DirEntry::safe(alloc, None),
    };
    copy_files(alloc, files, &mut entries)?;
    Ok(entries)
}

/// Puts copies of these files, all of them safe, under their names.
fn copy_files(
    alloc: Global,
    files: &PerName<Option<Bytes>>,
    entries: &mut PerName<DirEntry>,
) -> Result<(), AllocError>
    ensures { OnOk result (entries.new ≡ each safe files.now) }
{
    entries.set(Name::Peers, safe_entry(alloc, &files.peers)?);
    entries.set(Name::PeersTemp, safe_entry(alloc, &files.peers_temp)?);
    entries.set(Name::Asmap, safe_entry(alloc, &files.asmap)?);
    entries.set(Name::AsmapTemp, safe_entry(alloc, &files.asmap_temp)?);
    entries.set(Name::AsmapOld, safe_entry(alloc, &files.asmap_old)?);
    entries.set(Name::Prefixes, safe_entry(alloc, &files.prefixes)?);
    entries.set(Name::Bans, safe_entry(alloc, &files.bans)?);
    entries.set(Name::BansTemp, safe_entry(alloc, &files.bans_temp)?);
    Ok(())
}

/// Makes a name with a copy of this file, or with none, that is safe.
fn safe_entry(alloc: Global, file: &Option<Bytes>) -> Result<DirEntry, AllocError>
    ensures { IfOk result (λ entry. entry ≡ safe file.now) }
{
    Ok(DirEntry::safe(alloc, copy_file(alloc, file)?))
}

/// Makes a change of the names.
fn make_change(
    alloc: Global,
    entries: &mut PerName<DirEntry>,
    change: &Change,
) -> Result<(), AllocError>
    ensures ok { OnOk result (entries.new ≡ after_change change.now entries.old) }
    ensures err { OnErr result (entries.new ≡ entries.old) }
{
    match change {
        Change::Put { name, bytes } => {
            let copy = Bytes::of(bytes.items().to_vec(alloc)?);
            entries.set(*name, DirEntry::safe(alloc, Some(copy)));
            Ok(())
        }
        Change::Created { name } => {
            entries.set(*name, DirEntry::created(alloc));
            Ok(())
        }
        Change::Appended { name, bytes } => {
            let entry = entries.get(*name).appended(alloc, bytes.items())?;
            entries.set(*name, entry);
            Ok(())
        }
        Change::Synced { name } => {
            let entry = entries.get(*name).synced(alloc)?;
            entries.set(*name, entry);
            Ok(())
        }
        Change::Renamed { from, to } => rename(alloc, entries, *from, *to),
        Change::FolderSynced => {
            settle(entries);
            Ok(())
        }
    }
}

/// Renames a file.
fn rename(
    alloc: Global,
    entries: &mut PerName<DirEntry>,
    from: Name,
    to: Name,
) -> Result<(), AllocError>
    ensures ok { OnOk result (entries.new ≡ after_change (change.Renamed from to) entries.old) }
    ensures err { OnErr result (entries.new ≡ entries.old) }
{
    let target = entries.get(to).target(alloc, entries.get(from))?;
    let left = entries.get(from).left(alloc)?;
    entries.set(to, target);
    entries.set(from, left);
    Ok(())
}

/// Changes the names to what they are after the folder was synced.
fn settle(entries: &mut PerName<DirEntry>)
    ensures { entries.new ≡ after_sync_dir entries.old }
{
    entries.peers.settle();
    entries.peers_temp.settle();
    entries.asmap.settle();
    entries.asmap_temp.settle();
    entries.asmap_old.settle();
    entries.prefixes.settle();
    entries.bans.settle();
    entries.bans_temp.settle();
}

/// Returns the index of the last fate that is a certain file or no file.
fn oldest(fates: &[Fate]) -> usize {
    let mut last = 0;
    for (index, fate) in fates.iter().enumerate() {
        if !matches!(fate, Fate::AnyBytes) {
            last = index;
        }
    }
    last
}

/// Takes the last digit of `rest`, with `base` digits, and returns it.
fn take_digit(rest: &mut u64, base: usize) -> usize
    requires { 0 < base }
{
    let digit = *rest % base as u64;
    *rest /= base as u64;
    digit as usize
}
