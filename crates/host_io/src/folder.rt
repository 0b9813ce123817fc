//! The trait `Folder` (`size`, `read`, `create`, `append`, `sync`, `rename`, `sync_dir`), and
//! `SureFolder`, whose calls never fail.

ghost use Rattle.std.specs.Prelude.{◌≡◌, ◌≢◌, ℕ, List, ◌<◌, ◌≤◌, ◌↔◌, ◌++◌, length, take, drop, Option, IfOk, IfSome, OnOk, OnErr, None, Ok};
ghost use Rattle.std.specs.Option.{option_map};
ghost use Rattle.host_io.specs.Calls.{MayAddCall, with_call};
ghost use Rattle.host_io.specs.Disk.{after_create, after_append, after_sync, after_rename, after_sync_dir, Partly, PartlyAppended};
ghost use Rattle.host_io.specs.Faults.{Rose};
ghost use Rattle.host_io.specs.Files.{IsThere, known_bytes};
ghost use Rattle.host_io.specs.Past.{Past, after, AfterFault, IsNew, files_of};
ghost use Rattle.host_io.specs.PerName.{under};
ghost use Rattle.host_io.specs.declared.call.Action.{Action};

use crate::failed::Failed;
use crate::name::Name;

/// A folder of files.
///
/// After `Failed`, a call that changes the folder was made, was not, or was made in part.
///
/// Conditions keep a caller from making a folder fail on purpose: `read` begins inside the file
/// (`inside`), and only a file that was created since the folder was synced last is appended to,
/// synced and renamed (`own`).
pub trait Folder {
    /// The disk of the folder now and at each moment until now; `None` if contracts do not know its
    /// files.
    ghost past: { Self → Option Past };

    /// How often it has failed; the count stops at 2^64 - 1.
    ghost faults: { Self → ℕ };

    /// The calls of these methods until now, the first one first; `None` if contracts do not know
    /// them.
    ghost calls: { Self → Option (List Action) };

    /// Returns the length of the file in bytes, or `None` if it is absent.
    fn size(&mut self, name: Name) -> Result<Option<u64>, Failed>
        ensures found { IfOk result (λ size. IfSome (files_of (past self.old)) (λ all.
            size ≡ option_map length (under all name))) }
        ensures there { IfOk result (λ size.
            IfSome size (λ _. IsThere (files_of (past self.old)) name)) }
        ensures same { past self.new ≡ past self.old }
        ensures cause { OnErr result (Rose (faults self.old) (faults self.new)) }
        ensures asked { OnOk result
            (calls self.new ≡ with_call (Action.Size name) (calls self.old)) }
        ensures tried { OnErr result
            (MayAddCall (Action.Size name) (calls self.old) (calls self.new)) }
        ensures never_falls { faults self.old ≤ faults self.new };

    /// Copies the bytes at offset `at` to the start of `buf` and returns how many; 0 is the end of
    /// the file.
    fn read(&mut self, name: Name, at: u64, buf: &mut [u8]) -> Result<usize, Failed>
        requires room { 0 < length buf.old }
        requires there { IsThere (files_of (past self.old)) name }
        requires inside { IfSome (known_bytes (files_of (past self.old)) name) (λ bytes.
            at ≤ length bytes) }
        ensures within { IfOk result (λ n. n ≤ length buf.old) }
        ensures available { IfOk result (λ n.
            IfSome (known_bytes (files_of (past self.old)) name) (λ bytes.
            n ≤ length (drop at bytes))) }
        ensures copied { IfOk result (λ n.
            IfSome (known_bytes (files_of (past self.old)) name) (λ bytes.
            buf.new ≡ take n (drop at bytes) ++ drop n buf.old)) }
        ensures end { IfOk result (λ n.
            IfSome (known_bytes (files_of (past self.old)) name) (λ bytes.
            (n ≡ 0) ↔ (length bytes ≤ at))) }
        ensures same { past self.new ≡ past self.old }
        ensures cause { OnErr result (Rose (faults self.old) (faults self.new)) }
        ensures asked { OnOk result
            (calls self.new ≡ with_call (Action.Read name at) (calls self.old)) }
        ensures tried { OnErr result
            (MayAddCall (Action.Read name at) (calls self.old) (calls self.new)) }
        ensures never_falls { faults self.old ≤ faults self.new };

    /// Makes the file empty, whether it is there or not.
    fn create(&mut self, name: Name) -> Result<(), Failed>
        ensures ok { OnOk result (past self.new ≡ after (after_create name) (past self.old)) }
        ensures err { OnErr result
            (AfterFault (Partly (after_create name)) (past self.old) (past self.new)) }
        ensures cause { OnErr result (Rose (faults self.old) (faults self.new)) }
        ensures asked { OnOk result
            (calls self.new ≡ with_call (Action.Create name) (calls self.old)) }
        ensures tried { OnErr result
            (MayAddCall (Action.Create name) (calls self.old) (calls self.new)) }
        ensures never_falls { faults self.old ≤ faults self.new };

    /// Adds bytes at the end of the file.
    fn append(&mut self, name: Name, bytes: &[u8]) -> Result<(), Failed>
        requires there { IsThere (files_of (past self.old)) name }
        requires own { IsNew (past self.old) name }
        ensures ok { OnOk result
            (past self.new ≡ after (after_append name bytes.now) (past self.old)) }
        ensures err { OnErr result
            (AfterFault (PartlyAppended name bytes.now) (past self.old) (past self.new)) }
        ensures cause { OnErr result (Rose (faults self.old) (faults self.new)) }
        ensures asked { OnOk result
            (calls self.new ≡ with_call (Action.Append name (length bytes.now)) (calls self.old)) }
        ensures tried { OnErr result
            (MayAddCall (Action.Append name (length bytes.now)) (calls self.old) (calls self.new)) }
        ensures never_falls { faults self.old ≤ faults self.new };

    /// Makes the bytes of the file safe from a crash, as `fsync` of the file does.
    fn sync(&mut self, name: Name) -> Result<(), Failed>
        requires there { IsThere (files_of (past self.old)) name }
        requires own { IsNew (past self.old) name }
        ensures ok { OnOk result (past self.new ≡ after (after_sync name) (past self.old)) }
        ensures err { OnErr result
            (AfterFault (Partly (after_sync name)) (past self.old) (past self.new)) }
        ensures cause { OnErr result (Rose (faults self.old) (faults self.new)) }
        ensures asked { OnOk result
            (calls self.new ≡ with_call (Action.Sync name) (calls self.old)) }
        ensures tried { OnErr result
            (MayAddCall (Action.Sync name) (calls self.old) (calls self.new)) }
        ensures never_falls { faults self.old ≤ faults self.new };

    /// Puts the file `from` in the place of the file `to`, which may be absent. `from` is absent
    /// afterwards.
    fn rename(&mut self, from: Name, to: Name) -> Result<(), Failed>
        requires there { IsThere (files_of (past self.old)) from }
        requires own { IsNew (past self.old) from }
        requires apart { from ≢ to }
        ensures ok { OnOk result (past self.new ≡ after (after_rename from to) (past self.old)) }
        ensures err { OnErr result
            (AfterFault (Partly (after_rename from to)) (past self.old) (past self.new)) }
        ensures cause { OnErr result (Rose (faults self.old) (faults self.new)) }
        ensures asked { OnOk result
            (calls self.new ≡ with_call (Action.Rename from to) (calls self.old)) }
        ensures tried { OnErr result
            (MayAddCall (Action.Rename from to) (calls self.old) (calls self.new)) }
        ensures never_falls { faults self.old ≤ faults self.new };

    /// Makes the names of the folder safe from a crash, as `fsync` of the folder does.
    fn sync_dir(&mut self) -> Result<(), Failed>
        ensures ok { OnOk result (past self.new ≡ after after_sync_dir (past self.old)) }
        ensures err { OnErr result
            (AfterFault (Partly after_sync_dir) (past self.old) (past self.new)) }
        ensures cause { OnErr result (Rose (faults self.old) (faults self.new)) }
        ensures asked { OnOk result (calls self.new ≡ with_call Action.SyncDir (calls self.old)) }
        ensures tried { OnErr result (MayAddCall Action.SyncDir (calls self.old) (calls self.new)) }
        ensures never_falls { faults self.old ≤ faults self.new };
}

/// A folder that never fails and keeps nothing: every file is absent. Contracts do not know that.
#[derive(Clone, Copy)]
pub struct SureFolder;

impl SureFolder {
    /// Makes a folder without files.
    pub fn make() -> SureFolder {
        SureFolder
    }
}

impl Folder for SureFolder {
    ghost past = { λ _. None };

    ghost faults = { λ _. 0 };

    ghost calls = { λ _. None };

    /// Returns `None`: every file is absent.
    fn size(&mut self, _name: Name) -> Result<Option<u64>, Failed>
        ensures absent { result ≡ Ok None }
    {
        Ok(None)
    }

    /// Returns 0: every file is at its end.
    fn read(&mut self, _name: Name, _at: u64, buf: &mut [u8]) -> Result<usize, Failed>
        requires { 0 < length buf.old }
        ensures nothing { result ≡ Ok 0 }
        ensures kept { buf.new ≡ buf.old }
    {
        Ok(0)
    }

    /// Does nothing.
    fn create(&mut self, _name: Name) -> Result<(), Failed>
        ensures ok { result ≡ Ok tt }
    {
        Ok(())
    }

    /// Does nothing.
    fn append(&mut self, _name: Name, _bytes: &[u8]) -> Result<(), Failed>
        ensures ok { result ≡ Ok tt }
    {
        Ok(())
    }

    /// Does nothing.
    fn sync(&mut self, _name: Name) -> Result<(), Failed>
        ensures ok { result ≡ Ok tt }
    {
        Ok(())
    }

    /// Does nothing.
    fn rename(&mut self, _from: Name, _to: Name) -> Result<(), Failed>
        ensures ok { result ≡ Ok tt }
    {
        Ok(())
    }

    /// Does nothing.
    fn sync_dir(&mut self) -> Result<(), Failed>
        ensures ok { result ≡ Ok tt }
    {
        Ok(())
    }
}
