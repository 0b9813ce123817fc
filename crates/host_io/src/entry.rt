//! A file in memory with all that a crash may leave at its name: `Fate` and `DirEntry`.

ghost use Rattle.std.specs.Prelude.{◌≡◌, IfOk, ◌<◌, ◌≤◌, [], ◌++◌, OnOk, vec_len};
ghost use Rattle.host_io.specs.Disk.{Allows, MayHave, appended, created, exactly, fates, file_fates, left, safe, settled, synced, target};
ghost use Rattle.std.specs.Option.{option_map};

use crate::list::Bytes;
use std::alloc::{AllocError, Global};
use std::marker::Model;

/// What a crash may leave at a name of a folder.
#[derive(Drop)]
pub enum Fate {
    /// No file.
    Absent,
    /// A file with these bytes.
    Exactly(Bytes),
    /// A file with any bytes.
    AnyBytes,
}

impl Fate {
    /// Returns a file, or none, as the fate allows: with the bytes `any` if it may have any.
    pub fn found(&self, alloc: Global, any: &[u8]) -> Result<Option<Bytes>, AllocError>
        ensures { IfOk result (λ found. Allows self.now found) }
    {
        match self {
            Fate::Absent => Ok(None),
            Fate::Exactly(bytes) => Ok(Some(Bytes::of(bytes.items().to_vec(alloc)?))),
            Fate::AnyBytes => Ok(Some(Bytes::of(any.to_vec(alloc)?))),
        }
    }

    /// Copies the fate.
    pub fn copy(&self, alloc: Global) -> Result<Fate, AllocError>
        ensures { IfOk result (λ copy. copy ≡ self.now) }
    {
        match self {
            Fate::Absent => Ok(Fate::Absent),
            Fate::Exactly(bytes) => Ok(Fate::Exactly(Bytes::of(bytes.items().to_vec(alloc)?))),
            Fate::AnyBytes => Ok(Fate::AnyBytes),
        }
    }
}

/// What a folder in memory has at a name: the file as it reads, and all that a crash may leave.
#[derive(Drop)]
pub struct DirEntry {
    file: Option<Bytes>,
    is_torn: bool,
    is_loose: bool,
    others: Vec<Fate>,
}

impl Model for DirEntry {
    ghost use Rattle.host_io.specs.Disk.{DiskEntry};

    ghost Value = { DiskEntry };

    ghost view = { λ e. record {
      file = e.file;
      is_torn = e.is_torn;
      is_loose = e.is_loose;
      others = e.others.items;
    } };
}

impl DirEntry {
    /// Makes the entry of this file, or of none, whose bytes and name are safe.
    pub fn safe(alloc: Global, file: Option<Bytes>) -> DirEntry
        ensures { result ≡ safe file }
    {
        DirEntry {
            file,
            is_torn: false,
            is_loose: false,
            others: Vec::new(alloc),
        }
    }

    /// Makes the entry of a file that was created.
    pub fn created(alloc: Global) -> DirEntry
        ensures { result ≡ created }
    {
        DirEntry {
            file: Some(Bytes::of(Vec::new(alloc))),
            is_torn: true,
            is_loose: true,
            others: Vec::new(alloc),
        }
    }

    /// Returns the bytes of the file as it reads, or `None` if it is absent.
    pub fn file(&self) -> Option<&[u8]>
        ensures { option_map (λ bytes. bytes.now) result ≡ self.now.file }
    {
        match &self.file {
            Some(bytes) => Some(bytes.items()),
            None => None,
        }
    }

    /// Returns the entry after `bytes` were appended to the file.
    pub fn appended(&self, alloc: Global, bytes: &[u8]) -> Result<DirEntry, AllocError>
        ensures { IfOk result (λ entry. entry ≡ appended bytes.now self.now) }
    {
        Ok(DirEntry {
            file: joined(alloc, &self.file, bytes)?,
            is_torn: true,
            is_loose: self.is_loose,
            others: copy_fates(alloc, &self.others)?,
        })
    }

    /// Returns the entry after the file was synced.
    pub fn synced(&self, alloc: Global) -> Result<DirEntry, AllocError>
        ensures { IfOk result (λ entry. entry ≡ synced self.now) }
    {
        let mut entry = self.copy(alloc)?;
        entry.is_torn = false;
        Ok(entry)
    }

    /// Copies the entry.
    fn copy(&self, alloc: Global) -> Result<DirEntry, AllocError>
        ensures { IfOk result (λ copy. copy ≡ self.now) }
    {
        Ok(DirEntry {
            file: copy_file(alloc, &self.file)?,
            is_torn: self.is_torn,
            is_loose: self.is_loose,
            others: copy_fates(alloc, &self.others)?,
        })
    }

    /// Changes the entry to what it is after the folder was synced.
    pub fn settle(&mut self)
        ensures { self.new ≡ settled self.old }
    {
        self.is_loose = false;
        self.others.clear();
    }

    /// Returns the entry of this name after the file of `source` was renamed to it.
    pub fn target(&self, alloc: Global, source: &DirEntry) -> Result<DirEntry, AllocError>
        ensures { IfOk result (λ entry. entry ≡ target source.now self.now) }
    {
        let mut others = Vec::new(alloc);
        source.put_file_fates(alloc, &mut others)?;
        self.put_fates(alloc, &mut others)?;
        Ok(DirEntry {
            file: copy_file(alloc, &source.file)?,
            is_torn: source.is_torn,
            is_loose: false,
            others,
        })
    }

    /// Returns the entry of this name after its file was renamed to another.
    pub fn left(&self, alloc: Global) -> Result<DirEntry, AllocError>
        ensures { IfOk result (λ entry. entry ≡ left self.now) }
    {
        let mut others = Vec::new(alloc);
        self.put_file_fates(alloc, &mut others)?;
        append_fates(alloc, &mut others, &self.others)?;
        Ok(DirEntry {
            file: None,
            is_torn: false,
            is_loose: false,
            others,
        })
    }

    /// Returns `true` if the file was created or appended to since it was synced.
    pub fn is_torn(&self) -> bool {
        self.is_torn
    }

    /// Returns `true` if the file was created since the folder was synced.
    pub fn is_loose(&self) -> bool {
        self.is_loose
    }

    /// Copies the file as it reads, which a crash may always leave.
    #[tactic(auto, using(crate::proofs::Fates::may_have_file))]
    pub fn as_read(&self, alloc: Global) -> Result<Option<Bytes>, AllocError>
        ensures reads { IfOk result (λ file. file ≡ self.now.file) }
        ensures allowed { IfOk result (λ file. MayHave self.now file) }
    {
        copy_file(alloc, &self.file)
    }

    /// Returns what a crash may leave at the name: first the file as it reads, then any bytes if it
    /// is torn, then no file if it is loose, then what renames may leave, the oldest last.
    pub fn fates(&self, alloc: Global) -> Result<Vec<Fate>, AllocError>
        ensures all { IfOk result (λ list. list.items ≡ fates self.now) }
        ensures some { IfOk result (λ list. 0 < vec_len list) }
    {
        let mut list = Vec::new(alloc);
        self.put_fates(alloc, &mut list)?;
        Ok(list)
    }

    /// Appends what a crash may leave at the name.
    fn put_fates(&self, alloc: Global, to: &mut Vec<Fate>) -> Result<(), AllocError>
        ensures all { OnOk result (to.new.items ≡ to.old.items ++ fates self.now) }
        ensures some { OnOk result (0 < vec_len to.new) }
    {
        self.put_file_fates(alloc, to)?;
        if self.is_loose {
            to.push(Fate::Absent)?;
        }
        append_fates(alloc, to, &self.others)
    }

    /// Appends what a crash may leave of the file.
    fn put_file_fates(&self, alloc: Global, to: &mut Vec<Fate>) -> Result<(), AllocError>
        ensures all { OnOk result (to.new.items ≡ to.old.items ++ file_fates self.now []) }
        ensures some { OnOk result (0 < vec_len to.new) }
    {
        to.push(fate_of(copy_file(alloc, &self.file)?))?;
        if self.is_torn {
            to.push(Fate::AnyBytes)?;
        }
        Ok(())
    }
}

/// Returns the fate of a name that has this file, or none.
fn fate_of(file: Option<Bytes>) -> Fate
    ensures { result ≡ exactly file }
{
    match file {
        Some(bytes) => Fate::Exactly(bytes),
        None => Fate::Absent,
    }
}

/// Copies a file, or its absence.
pub(crate) fn copy_file(alloc: Global, file: &Option<Bytes>) -> Result<Option<Bytes>, AllocError>
    ensures { IfOk result (λ copy. copy ≡ file.now) }
{
    match file {
        Some(bytes) => Ok(Some(Bytes::of(bytes.items().to_vec(alloc)?))),
        None => Ok(None),
    }
}

/// Copies a file with `bytes` at its end.
fn joined(alloc: Global, file: &Option<Bytes>, bytes: &[u8]) -> Result<Option<Bytes>, AllocError>
    ensures { IfOk result (λ copy. copy ≡ option_map (λ old. old ++ bytes.now) file.now) }
{
    match file {
        Some(old) => {
            let mut all = old.items().to_vec(alloc)?;
            all.extend_from_slice(bytes)?;
            Ok(Some(Bytes::of(all)))
        }
        None => Ok(None),
    }
}

/// Copies fates.
fn copy_fates(alloc: Global, fates: &[Fate]) -> Result<Vec<Fate>, AllocError>
    ensures { IfOk result (λ copy. copy.items ≡ fates.now) }
{
    let mut copy = Vec::new(alloc);
    append_fates(alloc, &mut copy, fates)?;
    Ok(copy)
}

/// Appends a copy of each of the fates.
fn append_fates(alloc: Global, to: &mut Vec<Fate>, fates: &[Fate]) -> Result<(), AllocError>
    ensures all { OnOk result (to.new.items ≡ to.old.items ++ fates.now) }
    ensures no_fewer { vec_len to.old ≤ vec_len to.new }
{
    for fate in fates {
        to.push(fate.copy(alloc)?)?;
    }
    Ok(())
}
