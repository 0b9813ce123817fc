//! A whole save by temporary name, fsync and rename: `save`, `write_temp` and `publish`.

ghost use Rattle.std.specs.Prelude.{◌≡◌, ◌≢◌, ◌≤◌, ℕ, List, length, IfSome, OnOk, OnErr};
ghost use Rattle.host_io.specs.Calls.{IsSaveOf, OnlyCalls, calls_to_publish, calls_to_write};
ghost use Rattle.host_io.specs.Faults.{Rose};
ghost use Rattle.host_io.specs.Past.{Always};
ghost use Rattle.save_store.specs.Saves.{KeepsOthers, PublishesOrNot, IsFree, IsSafe, IsSynced, IsStored};
ghost use Rattle.host_io.specs.declared.name.Name.{Name};

use host_io::{Failed, Folder, Name};

/// Writes a file under its temporary name, and makes its bytes safe. `publish` then puts it in the
/// place of the file that it is for.
pub fn write_temp<F: Folder>(folder: &mut F, temp: Name, bytes: &[u8]) -> Result<(), Failed>
    ensures any_moment { Always (F.past folder.old) (F.past folder.new) (KeepsOthers temp) }
    ensures safe { OnOk result (IfSome (F.past folder.new) (λ p. IsSafe temp bytes.now p.now)) }
    ensures synced { OnOk result
        (IfSome (F.past folder.new) (λ p. IsSynced temp bytes.now p.now)) }
    ensures cause { OnErr result (Rose (F.faults folder.old) (F.faults folder.new)) }
    ensures never_falls { F.faults folder.old ≤ F.faults folder.new }
    ensures order { OnOk result
        (F.calls folder.new ≡ calls_to_write temp (length bytes.now) (F.calls folder.old)) }
    ensures asks { (name : Name) →
        OnlyCalls (IsSaveOf temp name) (F.calls folder.old) (F.calls folder.new) }
{
    folder.create(temp)?;
    folder.append(temp, bytes)?;
    folder.sync(temp)
}

/// Puts a temporary file that is synced in the place of the file that it is for, and makes the
/// names safe. Until `Ok`, a crash leaves the file as it was or the new one; afterwards always the
/// new one, and none under the temporary name.
#[tactic(auto, using(crate::proofs::Published::moved_and_synced, crate::proofs::Published::moved_only, crate::proofs::Published::not_renamed, crate::proofs::Published::stored, crate::proofs::Temp::synced_there, crate::proofs::Temp::synced_new))]
pub fn publish<F: Folder>(folder: &mut F, temp: Name, name: Name) -> Result<(), Failed>
    requires apart { temp ≢ name }
    requires synced { IfSome (F.past folder.old) (λ p.
        (bytes : List ℕ) × IsSynced temp bytes p.now) }
    ensures any_moment { (bytes : List ℕ) →
        IfSome (F.past folder.old) (λ p. IsSynced temp bytes p.now) →
        Always (F.past folder.old) (F.past folder.new) (PublishesOrNot temp name bytes) }
    ensures stored { (bytes : List ℕ) →
        IfSome (F.past folder.old) (λ p. IsSynced temp bytes p.now) →
        OnOk result (IfSome (F.past folder.new) (λ p. IsStored name bytes p.now)) }
    ensures free { OnOk result (IfSome (F.past folder.new) (λ p. IsFree temp p.now)) }
    ensures cause { OnErr result (Rose (F.faults folder.old) (F.faults folder.new)) }
    ensures never_falls { F.faults folder.old ≤ F.faults folder.new }
    ensures order { OnOk result
        (F.calls folder.new ≡ calls_to_publish temp name (F.calls folder.old)) }
    ensures asks { OnlyCalls (IsSaveOf temp name) (F.calls folder.old) (F.calls folder.new) }
{
    folder.rename(temp, name)?;
    folder.sync_dir()
}

/// Puts a file with these bytes in the place of another: writes it under its temporary name, makes
/// it safe, and renames it. Until `Ok`, a crash leaves the file as it was or the new one;
/// afterwards always the new one, and none under the temporary name.
pub fn save<F: Folder>(folder: &mut F, temp: Name, name: Name, bytes: &[u8]) -> Result<(), Failed>
    requires apart { temp ≢ name }
    ensures any_moment { Always (F.past folder.old) (F.past folder.new)
        (PublishesOrNot temp name bytes.now) }
    ensures stored { OnOk result
        (IfSome (F.past folder.new) (λ p. IsStored name bytes.now p.now)) }
    ensures free { OnOk result (IfSome (F.past folder.new) (λ p. IsFree temp p.now)) }
    ensures cause { OnErr result (Rose (F.faults folder.old) (F.faults folder.new)) }
    ensures never_falls { F.faults folder.old ≤ F.faults folder.new }
    ensures order { OnOk result (F.calls folder.new ≡ calls_to_publish temp name
        (calls_to_write temp (length bytes.now) (F.calls folder.old))) }
    ensures asks { OnlyCalls (IsSaveOf temp name) (F.calls folder.old) (F.calls folder.new) }
{
    write_temp(folder, temp, bytes)?;
    publish(folder, temp, name)
}
