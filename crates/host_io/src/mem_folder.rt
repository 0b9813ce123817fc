//! `MemFolder`: a folder in memory with its history, the calls that fail, and `crash`.

ghost use Rattle.std.specs.Prelude.{◌≡◌, ◌≢◌, ◌<◌, ◌≤◌, ◌++◌, [], length, min, take, drop, IsErr, IsSome, IfOk, IfSome, OnOk, OnErr, Some, None};
ghost use Rattle.std.specs.Option.{option_map};
ghost use Rattle.host_io.specs.Calls.{MayAddCall, with_call};
ghost use Rattle.host_io.specs.Disk.{IsImage, Partly, PartlyAppended, after_append, after_create, after_rename, after_sync, after_sync_dir};
ghost use Rattle.host_io.specs.Faults.{Rose};
ghost use Rattle.host_io.specs.MemFolder.{FailsToChange, FailsWithoutChange, after_change, calls_of, disk_of, files_in, folder_after_call, folder_after_change, folder_after_no_memory, log_with, next_fault, past_of};
ghost use Rattle.host_io.specs.Past.{after, AfterFault};
ghost use Rattle.host_io.specs.PerName.{under};
ghost use Rattle.host_io.specs.declared.call.Change.TheVariants as change;
ghost use Rattle.host_io.specs.declared.name.Name.{Name};

use crate::call::{Action, Call, Change};
use crate::failed::{Failed, fault};
use crate::folder::Folder;
use crate::list::Bytes;
use crate::mem_disk::MemDisk;
use crate::name::{Name, PerName};
use memory::Memory;
use std::alloc::Global;
use std::marker::Model;

/// A folder in memory. It records every call of `Folder`, and fails the calls that its maker chose.
/// A call also fails if there is no memory for what it keeps.
#[derive(Drop)]
pub struct MemFolder {
    alloc: Global,
    disk: Box<MemDisk>,
    fails: Vec<(u64, bool)>,
    history: Vec<Call>,
    calls: u64,
    faults: u64,
    starved: u64,
}

impl Model for MemFolder {
    ghost use Rattle.host_io.specs.MemFolder.{FolderState};

    ghost Value = { FolderState };

    ghost view = { λ f. record {
      log = f.disk.value;
      fails = f.fails.items;
      history = f.history.items;
      calls = f.calls;
      faults = f.faults;
      starved = f.starved;
    } };
}

impl MemFolder {
    /// Makes a folder without files. The calls of `Folder` whose numbers, from 0, are in `fails`
    /// will fail; the truth value says whether such a call changes the folder all the same.
    pub fn make(alloc: Global, fails: &[(u64, bool)]) -> Result<MemFolder, Memory>
        ensures empty { IfOk result (λ folder. (name : Name) →
            under folder.log.first name ≡ None) }
        ensures unchanged { IfOk result (λ folder. folder.log.changes ≡ []) }
        ensures chosen { IfOk result (λ folder. folder.fails ≡ fails.now) }
        ensures history { IfOk result (λ folder. folder.history ≡ []) }
        ensures calls { IfOk result (λ folder. folder.calls ≡ 0) }
        ensures faults { IfOk result (λ folder. folder.faults ≡ 0) }
        ensures starved { IfOk result (λ folder. folder.starved ≡ 0) }
    {
        MemFolder::with_files(alloc, PerName::none(), fails)
    }

    /// Makes a folder with these files, all of them safe. The calls in `fails` will fail.
    fn with_files(
        alloc: Global,
        first: PerName<Option<Bytes>>,
        fails: &[(u64, bool)],
    ) -> Result<MemFolder, Memory>
        ensures first { IfOk result (λ folder. folder.log.first ≡ first) }
        ensures unchanged { IfOk result (λ folder. folder.log.changes ≡ []) }
        ensures chosen { IfOk result (λ folder. folder.fails ≡ fails.now) }
        ensures history { IfOk result (λ folder. folder.history ≡ []) }
        ensures calls { IfOk result (λ folder. folder.calls ≡ 0) }
        ensures faults { IfOk result (λ folder. folder.faults ≡ 0) }
        ensures starved { IfOk result (λ folder. folder.starved ≡ 0) }
    {
        let fails = fails.to_vec(alloc)?;
        let disk = boxed(alloc, MemDisk::make(alloc, first)?)?;
        Ok(MemFolder {
            alloc,
            disk,
            fails,
            history: Vec::new(alloc),
            calls: 0,
            faults: 0,
            starved: 0,
        })
    }

    /// Creates or replaces a file. This is not a call of `Folder`. The file's bytes and its name
    /// are safe, and nothing that was at the name before may come back.
    pub fn put(&mut self, name: Name, bytes: &[u8]) -> Result<(), Memory>
        ensures put { OnOk result (self.new ≡ record self.old {
          log = log_with self.old.log (change.Put name bytes.now);
        }) }
        ensures err { OnErr result (self.new ≡ self.old) }
    {
        let copy = bytes.to_vec(self.alloc)?;
        self.disk.change(Change::Put {
            name,
            bytes: Bytes::of(copy),
        })?;
        Ok(())
    }

    /// Returns the bytes of a file as it reads, or `None` if it is absent.
    pub fn get(&self, name: Name) -> Option<&[u8]>
        ensures { option_map (λ bytes. bytes.now) result ≡ under (files_in self.now) name }
    {
        self.disk.entry(name).file()
    }

    /// Returns the folder that a crash leaves, in which every file is safe and no call fails.
    ///
    /// Choice 0 leaves the files as they read. Choice 1 undoes what was not synced with the folder:
    /// the target of a rename has the oldest file that may be there, and a file that was created is
    /// absent. Choice 2 empties each file that was not synced. The choices from 3 on count through
    /// what may be at the names.
    pub fn crash(&self, choice: u64) -> Result<MemFolder, Memory>
        ensures image { IfOk result (λ folder.
            IsImage (disk_of self.now.log) folder.log.first) }
        ensures as_read { choice ≡ 0 → IfOk result (λ folder.
            folder.log.first ≡ files_in self.now) }
        ensures unchanged { IfOk result (λ folder. folder.log.changes ≡ []) }
        ensures chosen { IfOk result (λ folder. folder.fails ≡ []) }
        ensures history { IfOk result (λ folder. folder.history ≡ []) }
        ensures calls { IfOk result (λ folder. folder.calls ≡ 0) }
        ensures faults { IfOk result (λ folder. folder.faults ≡ 0) }
        ensures starved { IfOk result (λ folder. folder.starved ≡ 0) }
    {
        let files = self.disk.image(choice)?;
        MemFolder::with_files(self.alloc, files, &[])
    }

    /// Returns the calls of `Folder` in order, without those that found no memory.
    pub fn history(&self) -> &[Call]
        ensures { result.now ≡ self.now.history }
    {
        &self.history
    }

    /// Returns how many calls of `Folder` there were; the count stops at 2^64 - 1.
    pub fn calls(&self) -> u64
        ensures { result ≡ self.now.calls }
    {
        self.calls
    }

    /// Returns how many calls found no memory for what they keep; the count stops at 2^64 - 1.
    pub fn starved(&self) -> u64
        ensures { result ≡ self.now.starved }
    {
        self.starved
    }

    /// Returns `None` if the next call is not to fail, and otherwise whether it changes the folder
    /// all the same.
    fn next_fault(&self) -> Option<bool>
        ensures { result ≡ next_fault self.now }
    {
        self.fails
            .iter()
            .find(|fail| fail.0 == self.calls)
            .map(|fail| fail.1)
    }

    /// Counts a call that found no memory.
    fn starve(&mut self) -> Failed
        ensures after { self.new ≡ folder_after_no_memory self.old }
        ensures cause { Rose self.old.faults self.new.faults }
        ensures forgotten { calls_of self.new ≡ calls_of self.old }
        ensures never_falls { self.old.faults ≤ self.new.faults }
    {
        self.calls = self.calls.saturating_add(1);
        self.starved = self.starved.saturating_add(1);
        fault(&mut self.faults)
    }

    /// Counts and records a call. Fails if there is no memory.
    #[tactic(auto, using(crate::proofs::Asking::called, crate::proofs::Asking::not_called))]
    fn record(&mut self, action: Action) -> Result<(), Failed>
        ensures ok { OnOk result (self.new ≡ folder_after_call self.old action) }
        ensures err { OnErr result (self.new ≡ folder_after_no_memory self.old) }
        ensures cause { OnErr result (Rose self.old.faults self.new.faults) }
        ensures asked { OnOk result (calls_of self.new ≡ with_call action (calls_of self.old)) }
        ensures forgotten { OnErr result (calls_of self.new ≡ calls_of self.old) }
        ensures never_falls { self.old.faults ≤ self.new.faults }
    {
        let number = self.calls;
        if self.history.push(Call { number, action }).is_err() {
            return Err(self.starve());
        }
        self.calls = number.saturating_add(1);
        Ok(())
    }

    /// Counts and records a call, and makes its change. Fails if there is no memory.
    #[tactic(auto, using(crate::proofs::Changes::late, crate::proofs::Changes::moved, crate::proofs::Changes::stayed, crate::proofs::Asking::called, crate::proofs::Asking::changed, crate::proofs::Asking::not_called, crate::proofs::Asking::not_changed))]
    fn record_change(&mut self, action: Action, change: Change) -> Result<(), Failed>
        ensures ok { OnOk result (self.new ≡ folder_after_change self.old action change) }
        ensures err { OnErr result (self.new ≡ folder_after_no_memory self.old) }
        ensures moved { OnOk result (Some (past_of self.new.log)
            ≡ after (after_change change) (Some (past_of self.old.log))) }
        ensures partly { OnErr result (AfterFault (Partly (after_change change))
            (Some (past_of self.old.log)) (Some (past_of self.new.log))) }
        ensures cause { OnErr result (Rose self.old.faults self.new.faults) }
        ensures asked { OnOk result (calls_of self.new ≡ with_call action (calls_of self.old)) }
        ensures forgotten { OnErr result (calls_of self.new ≡ calls_of self.old) }
        ensures never_falls { self.old.faults ≤ self.new.faults }
    {
        if self.history.reserve(1).is_err() {
            return Err(self.starve());
        }
        if self.disk.change(change).is_err() {
            return Err(self.starve());
        }
        let number = self.calls;
        self.history.push_reserved(Call { number, action });
        self.calls = number.saturating_add(1);
        Ok(())
    }

    /// Makes a call that changes nothing. Fails if the call was chosen to, or if there is no
    /// memory.
    #[tactic(auto, using(crate::proofs::Asking::called, crate::proofs::Asking::not_called))]
    fn begin(&mut self, action: Action) -> Result<(), Failed>
        ensures chosen { IsSome (next_fault self.old) → IsErr result }
        ensures ok { OnOk result (self.new ≡ folder_after_call self.old action) }
        ensures err { OnErr result (FailsWithoutChange self.old action self.new) }
        ensures cause { OnErr result (Rose self.old.faults self.new.faults) }
        ensures asked { OnOk result (calls_of self.new ≡ with_call action (calls_of self.old)) }
        ensures tried { OnErr result (MayAddCall action (calls_of self.old) (calls_of self.new)) }
        ensures never_falls { self.old.faults ≤ self.new.faults }
    {
        match self.next_fault() {
            None => self.record(action),
            Some(_) => {
                self.record(action)?;
                Err(fault(&mut self.faults))
            }
        }
    }

    /// Makes a call that makes a change. Fails if the call was chosen to, or if there is no memory.
    #[tactic(auto, using(crate::proofs::Changes::late, crate::proofs::Changes::moved, crate::proofs::Changes::stayed, crate::proofs::Asking::called, crate::proofs::Asking::changed, crate::proofs::Asking::not_called, crate::proofs::Asking::not_changed))]
    fn carry_out(&mut self, action: Action, change: Change) -> Result<(), Failed>
        ensures chosen { IsSome (next_fault self.old) → IsErr result }
        ensures ok { OnOk result (self.new ≡ folder_after_change self.old action change) }
        ensures err { OnErr result (FailsToChange self.old action change self.new) }
        ensures moved { OnOk result (Some (past_of self.new.log)
            ≡ after (after_change change) (Some (past_of self.old.log))) }
        ensures partly { OnErr result (AfterFault (Partly (after_change change))
            (Some (past_of self.old.log)) (Some (past_of self.new.log))) }
        ensures cause { OnErr result (Rose self.old.faults self.new.faults) }
        ensures asked { OnOk result (calls_of self.new ≡ with_call action (calls_of self.old)) }
        ensures tried { OnErr result (MayAddCall action (calls_of self.old) (calls_of self.new)) }
        ensures never_falls { self.old.faults ≤ self.new.faults }
    {
        match self.next_fault() {
            None => self.record_change(action, change),
            Some(true) => {
                self.record_change(action, change)?;
                Err(fault(&mut self.faults))
            }
            Some(false) => {
                self.record(action)?;
                Err(fault(&mut self.faults))
            }
        }
    }
}

/// Puts an object into a box, so that a function that owns it has little to drop.
fn boxed<T: Drop>(alloc: Global, object: T) -> Result<Box<T>, Memory>
    ensures { IfOk result (λ made. made.value ≡ object) }
{
    match Box::new(alloc, object) {
        Ok(made) => Ok(made),
        Err(_) => Err(Memory),
    }
}

impl Folder for MemFolder {
    ghost past = { λ f. Some (past_of f.log) };

    ghost faults = { λ f. f.faults };

    ghost calls = { λ f. calls_of f };

    /// Fails if the call was chosen to, or if there is no memory for its record.
    fn size(&mut self, name: Name) -> Result<Option<u64>, Failed>
        ensures chosen { IsSome (next_fault self.old) → IsErr result }
        ensures found { IfOk result (λ size.
            size ≡ option_map length (under (files_in self.old) name)) }
        ensures there { IfOk result (λ size.
            IfSome size (λ _. IsSome (under (files_in self.old) name))) }
        ensures after { OnOk result (self.new ≡ folder_after_call self.old (Action.Size name)) }
        ensures err { OnErr result (FailsWithoutChange self.old (Action.Size name) self.new) }
        ensures same { self.new.log ≡ self.old.log }
        ensures cause { OnErr result (Rose self.old.faults self.new.faults) }
        ensures asked { OnOk result
            (calls_of self.new ≡ with_call (Action.Size name) (calls_of self.old)) }
        ensures tried { OnErr result
            (MayAddCall (Action.Size name) (calls_of self.old) (calls_of self.new)) }
        ensures never_falls { self.old.faults ≤ self.new.faults }
    {
        self.begin(Action::Size { name })?;
        match self.get(name) {
            Some(bytes) => Ok(Some(bytes.len() as u64)),
            None => Ok(None),
        }
    }

    /// Copies as many bytes as fit, up to the end of the file. Fails if the call was chosen to, or
    /// if there is no memory for its record.
    fn read(&mut self, name: Name, at: u64, buf: &mut [u8]) -> Result<usize, Failed>
        requires room { 0 < length buf.old }
        requires there { IsSome (under (files_in self.old) name) }
        ensures chosen { IsSome (next_fault self.old) → IsErr result }
        ensures many { IfOk result (λ n. IfSome (under (files_in self.old) name) (λ bytes.
            n ≡ min (length buf.old) (length (drop at bytes)))) }
        ensures copied { IfOk result (λ n. IfSome (under (files_in self.old) name) (λ bytes.
            buf.new ≡ take n (drop at bytes) ++ drop n buf.old)) }
        ensures kept { OnErr result (buf.new ≡ buf.old) }
        ensures after { OnOk result (self.new ≡ folder_after_call self.old (Action.Read name at)) }
        ensures err { OnErr result (FailsWithoutChange self.old (Action.Read name at) self.new) }
        ensures same { self.new.log ≡ self.old.log }
        ensures cause { OnErr result (Rose self.old.faults self.new.faults) }
        ensures asked { OnOk result
            (calls_of self.new ≡ with_call (Action.Read name at) (calls_of self.old)) }
        ensures tried { OnErr result
            (MayAddCall (Action.Read name at) (calls_of self.old) (calls_of self.new)) }
        ensures never_falls { self.old.faults ≤ self.new.faults }
    {
        self.begin(Action::Read { name, at })?;
        match self.get(name) {
            Some(bytes) => Ok(copy_from(bytes, at, buf)),
            None => unreachable!(),
        }
    }

    /// Makes the file empty. Fails if the call was chosen to, or if there is no memory.
    fn create(&mut self, name: Name) -> Result<(), Failed>
        ensures chosen { IsSome (next_fault self.old) → IsErr result }
        ensures after { OnOk result (self.new ≡ folder_after_change self.old
            (Action.Create name) (change.Created name)) }
        ensures fault { OnErr result (FailsToChange self.old
            (Action.Create name) (change.Created name) self.new) }
        ensures ok { OnOk result (Some (past_of self.new.log)
            ≡ after (after_create name) (Some (past_of self.old.log))) }
        ensures err { OnErr result (AfterFault (Partly (after_create name))
            (Some (past_of self.old.log)) (Some (past_of self.new.log))) }
        ensures cause { OnErr result (Rose self.old.faults self.new.faults) }
        ensures asked { OnOk result
            (calls_of self.new ≡ with_call (Action.Create name) (calls_of self.old)) }
        ensures tried { OnErr result
            (MayAddCall (Action.Create name) (calls_of self.old) (calls_of self.new)) }
        ensures never_falls { self.old.faults ≤ self.new.faults }
    {
        self.carry_out(Action::Create { name }, Change::Created { name })
    }

    /// Appends `bytes` to the file. Fails if this call was chosen to fail, or if memory runs
    /// out.
    fn append(&mut self, name: Name, bytes: &[u8]) -> Result<(), Failed>
        requires { IsSome (under (files_in self.old) name) }
        ensures chosen { IsSome (next_fault self.old) → IsErr result }
        ensures after { OnOk result (self.new ≡ folder_after_change self.old
            (Action.Append name (length bytes.now)) (change.Appended name bytes.now)) }
        ensures fault { OnErr result (FailsToChange self.old
            (Action.Append name (length bytes.now)) (change.Appended name bytes.now) self.new) }
        ensures ok { OnOk result (Some (past_of self.new.log)
            ≡ after (after_append name bytes.now) (Some (past_of self.old.log))) }
        ensures err { OnErr result (AfterFault (PartlyAppended name bytes.now)
            (Some (past_of self.old.log)) (Some (past_of self.new.log))) }
        ensures cause { OnErr result (Rose self.old.faults self.new.faults) }
        ensures asked { OnOk result
            (calls_of self.new
            ≡ with_call (Action.Append name (length bytes.now)) (calls_of self.old)) }
        ensures tried { OnErr result
            (MayAddCall (Action.Append name (length bytes.now))
            (calls_of self.old) (calls_of self.new)) }
        ensures never_falls { self.old.faults ≤ self.new.faults }
    {
        let Ok(copy) = bytes.to_vec(self.alloc) else {
            return Err(self.starve());
        };
        let count = bytes.len() as u64;
        let bytes = Bytes::of(copy);
        self.carry_out(
            Action::Append { name, count },
            Change::Appended { name, bytes },
        )
    }

    /// Makes the bytes of the file safe. Fails if the call was chosen to, or if there is no memory.
    fn sync(&mut self, name: Name) -> Result<(), Failed>
        requires { IsSome (under (files_in self.old) name) }
        ensures chosen { IsSome (next_fault self.old) → IsErr result }
        ensures after { OnOk result (self.new ≡ folder_after_change self.old
            (Action.Sync name) (change.Synced name)) }
        ensures fault { OnErr result (FailsToChange self.old
            (Action.Sync name) (change.Synced name) self.new) }
        ensures ok { OnOk result (Some (past_of self.new.log)
            ≡ after (after_sync name) (Some (past_of self.old.log))) }
        ensures err { OnErr result (AfterFault (Partly (after_sync name))
            (Some (past_of self.old.log)) (Some (past_of self.new.log))) }
        ensures cause { OnErr result (Rose self.old.faults self.new.faults) }
        ensures asked { OnOk result
            (calls_of self.new ≡ with_call (Action.Sync name) (calls_of self.old)) }
        ensures tried { OnErr result
            (MayAddCall (Action.Sync name) (calls_of self.old) (calls_of self.new)) }
        ensures never_falls { self.old.faults ≤ self.new.faults }
    {
        self.carry_out(Action::Sync { name }, Change::Synced { name })
    }

    /// Renames the file. Fails if the call was chosen to, or if there is no memory.
    fn rename(&mut self, from: Name, to: Name) -> Result<(), Failed>
        requires there { IsSome (under (files_in self.old) from) }
        requires apart { from ≢ to }
        ensures chosen { IsSome (next_fault self.old) → IsErr result }
        ensures after { OnOk result (self.new ≡ folder_after_change self.old
            (Action.Rename from to) (change.Renamed from to)) }
        ensures fault { OnErr result (FailsToChange self.old
            (Action.Rename from to) (change.Renamed from to) self.new) }
        ensures ok { OnOk result (Some (past_of self.new.log)
            ≡ after (after_rename from to) (Some (past_of self.old.log))) }
        ensures err { OnErr result (AfterFault (Partly (after_rename from to))
            (Some (past_of self.old.log)) (Some (past_of self.new.log))) }
        ensures cause { OnErr result (Rose self.old.faults self.new.faults) }
        ensures asked { OnOk result
            (calls_of self.new ≡ with_call (Action.Rename from to) (calls_of self.old)) }
        ensures tried { OnErr result
            (MayAddCall (Action.Rename from to) (calls_of self.old) (calls_of self.new)) }
        ensures never_falls { self.old.faults ≤ self.new.faults }
    {
        self.carry_out(Action::Rename { from, to }, Change::Renamed { from, to })
    }

    /// Makes the names safe. Fails if the call was chosen to, or if there is no memory.
    fn sync_dir(&mut self) -> Result<(), Failed>
        ensures chosen { IsSome (next_fault self.old) → IsErr result }
        ensures after { OnOk result (self.new ≡ folder_after_change self.old
            (Action.SyncDir) (change.FolderSynced)) }
        ensures fault { OnErr result (FailsToChange self.old
            (Action.SyncDir) (change.FolderSynced) self.new) }
        ensures ok { OnOk result (Some (past_of self.new.log)
            ≡ after after_sync_dir (Some (past_of self.old.log))) }
        ensures err { OnErr result (AfterFault (Partly after_sync_dir)
            (Some (past_of self.old.log)) (Some (past_of self.new.log))) }
        ensures cause { OnErr result (Rose self.old.faults self.new.faults) }
        ensures asked { OnOk result
            (calls_of self.new ≡ with_call Action.SyncDir (calls_of self.old)) }
        ensures tried { OnErr result
            (MayAddCall Action.SyncDir (calls_of self.old) (calls_of self.new)) }
        ensures never_falls { self.old.faults ≤ self.new.faults }
    {
        self.carry_out(Action::SyncDir, Change::FolderSynced)
    }
}

/// Copies the bytes from offset `at` on to the start of `buf`, as many as fit, and returns how
/// many.
fn copy_from(bytes: &[u8], at: u64, buf: &mut [u8]) -> usize
    ensures many { result ≡ min (length buf.old) (length (drop at bytes.now)) }
    ensures copied { buf.new ≡ take result (drop at bytes.now) ++ drop result buf.old }
{
    let start = bytes.len().min(at as usize);
    let rest = &bytes[start..];
    let count = buf.len().min(rest.len());
    buf[..count].copy_from_slice(&rest[..count]);
    count
}
