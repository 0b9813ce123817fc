//! `SaveJob`, a save in pieces with the bytes written and those left: `begin`, `step` and `end`.

ghost use Rattle.std.specs.Prelude.{◌≡◌, ◌≢◌, ◌≤◌, ◌++◌, ℕ, List, [], take, drop, length, IfOk, IfSome, OnOk, OnErr};
ghost use Rattle.host_io.specs.Calls.{IsSaveOf, OnlyCalls, calls_to_publish, with_call};
ghost use Rattle.host_io.specs.Faults.{Rose};
ghost use Rattle.host_io.specs.Past.{Always};
ghost use Rattle.host_io.specs.declared.call.Action.{Action};
ghost use Rattle.host_io.specs.declared.name.Name.{Name};
ghost use Rattle.save_store.specs.Job.{ReadsAs, whole};
ghost use Rattle.save_store.specs.Saves.{KeepsOthers, PublishesOrNot, IsFree, IsSynced, IsStored};

use crate::saving::publish;
use host_io::{Bytes, Failed, Folder, Name};
use std::marker::Model;

/// A save that is written in pieces: `begin`, any number of `step`s, and `end`. After `Failed` it
/// is gone, and the next save begins anew.
#[derive(Debug, Drop)]
pub struct SaveJob {
    temp: Name,
    bytes: Bytes,
    done: usize,
}

impl Model for SaveJob {
    ghost use Rattle.std.specs.Prelude.{◌≤◌, length, take, drop};
    ghost use Rattle.save_store.specs.Job.{Job};

    ghost Value = { Job };

    ghost view = { λ s. record {
      temp = s.temp;
      written = take s.done s.bytes;
      left = drop s.done s.bytes;
    } };

    ghost invariant = { λ s. s.done ≤ length s.bytes };
}

impl SaveJob {
    /// Creates the temporary file. None of the bytes is written yet.
    pub fn begin<F: Folder>(folder: &mut F, temp: Name, bytes: Bytes) -> Result<SaveJob, Failed>
        ensures any_moment { Always (F.past folder.old) (F.past folder.new) (KeepsOthers temp) }
        ensures job { IfOk result (λ job.
            job ≡ record { temp = temp; written = []; left = bytes }) }
        ensures reads { IfOk result (λ job. ReadsAs job.temp job.written (F.past folder.new)) }
        ensures cause { OnErr result (Rose (F.faults folder.old) (F.faults folder.new)) }
        ensures order { OnOk result
            (F.calls folder.new ≡ with_call (Action.Create temp) (F.calls folder.old)) }
        ensures asks { (name : Name) →
            OnlyCalls (IsSaveOf temp name) (F.calls folder.old) (F.calls folder.new) }
        ensures never_falls { F.faults folder.old ≤ F.faults folder.new }
    {
        folder.create(temp)?;
        Ok(SaveJob {
            temp,
            bytes,
            done: 0,
        })
    }

    /// Appends the first of the bytes left to the temporary file: `count` of them, or all if they
    /// are fewer.
    pub fn step<F: Folder>(self, folder: &mut F, count: u32) -> Result<SaveJob, Failed>
        requires reads { ReadsAs self.temp self.written (F.past folder.old) }
        ensures any_moment { Always (F.past folder.old) (F.past folder.new)
            (KeepsOthers self.temp) }
        ensures job { IfOk result (λ job. job ≡ record {
          temp = self.temp;
          written = self.written ++ take count self.left;
          left = drop count self.left;
        }) }
        ensures reads { IfOk result (λ job. ReadsAs job.temp job.written (F.past folder.new)) }
        ensures cause { OnErr result (Rose (F.faults folder.old) (F.faults folder.new)) }
        ensures order { OnOk result (F.calls folder.new
            ≡ with_call (Action.Append self.temp (length (take count self.left)))
            (F.calls folder.old)) }
        ensures asks { (name : Name) →
            OnlyCalls (IsSaveOf self.temp name) (F.calls folder.old) (F.calls folder.new) }
        ensures never_falls { F.faults folder.old ≤ F.faults folder.new }
    {
        let SaveJob { temp, bytes, done } = self;
        let more = write_next(folder, temp, &bytes.items()[done..], count)?;
        Ok(SaveJob {
            temp,
            bytes,
            done: done + more,
        })
    }

    /// Returns how many bytes are left.
    pub fn left(&self) -> u64
        ensures { result ≡ length self.now.left }
    {
        (self.bytes.items().len() - self.done) as u64
    }

    /// Appends the bytes left, makes them safe, and puts the file in the place of the one that it
    /// is for. Until `Ok`, a crash leaves that file as it was or the new one; afterwards always the
    /// new one, and none under the temporary name.
    pub fn end<F: Folder>(self, folder: &mut F, name: Name) -> Result<(), Failed>
        requires apart { self.temp ≢ name }
        requires reads { ReadsAs self.temp self.written (F.past folder.old) }
        ensures any_moment { Always (F.past folder.old) (F.past folder.new)
            (PublishesOrNot self.temp name (whole self)) }
        ensures stored { OnOk result
            (IfSome (F.past folder.new) (λ p. IsStored name (whole self) p.now)) }
        ensures cause { OnErr result (Rose (F.faults folder.old) (F.faults folder.new)) }
        ensures free { OnOk result (IfSome (F.past folder.new) (λ p. IsFree self.temp p.now)) }
        ensures order { OnOk result (F.calls folder.new ≡ calls_to_publish self.temp name
            (with_call (Action.Sync self.temp)
            (with_call (Action.Append self.temp (length self.left)) (F.calls folder.old)))) }
        ensures asks { OnlyCalls (IsSaveOf self.temp name)
            (F.calls folder.old) (F.calls folder.new) }
        ensures never_falls { F.faults folder.old ≤ F.faults folder.new }
    {
        finish(folder, self.temp, name, &self.bytes.items()[self.done..])
    }
}

/// Returns the first `count` bytes, or all if they are fewer.
fn first_of(bytes: &[u8], count: u32) -> &[u8]
    ensures { result.now ≡ take count bytes.now }
{
    if bytes.len() <= count as usize {
        bytes
    } else {
        &bytes[..count as usize]
    }
}

/// Appends the first `count` bytes, or all if they are fewer, to the temporary file, and returns
/// how many.
fn write_next<F: Folder>(
    folder: &mut F,
    temp: Name,
    bytes: &[u8],
    count: u32,
) -> Result<usize, Failed>
    requires reads { (written : List ℕ) × ReadsAs temp written (F.past folder.old) }
    ensures any_moment { Always (F.past folder.old) (F.past folder.new) (KeepsOthers temp) }
    ensures count { IfOk result (λ n. n ≡ length (take count bytes.now)) }
    ensures reads { (written : List ℕ) → ReadsAs temp written (F.past folder.old) →
        OnOk result (ReadsAs temp (written ++ take count bytes.now) (F.past folder.new)) }
    ensures cause { OnErr result (Rose (F.faults folder.old) (F.faults folder.new)) }
    ensures order { OnOk result (F.calls folder.new
        ≡ with_call (Action.Append temp (length (take count bytes.now))) (F.calls folder.old)) }
    ensures asks { (name : Name) →
        OnlyCalls (IsSaveOf temp name) (F.calls folder.old) (F.calls folder.new) }
    ensures never_falls { F.faults folder.old ≤ F.faults folder.new }
{
    let next = first_of(bytes, count);
    folder.append(temp, next)?;
    Ok(next.len())
}

/// Appends bytes to the temporary file, and makes all of it safe.
fn write_rest<F: Folder>(folder: &mut F, temp: Name, bytes: &[u8]) -> Result<(), Failed>
    requires reads { (written : List ℕ) × ReadsAs temp written (F.past folder.old) }
    ensures any_moment { Always (F.past folder.old) (F.past folder.new) (KeepsOthers temp) }
    ensures synced { (written : List ℕ) → ReadsAs temp written (F.past folder.old) →
        OnOk result (IfSome (F.past folder.new) (λ p.
        IsSynced temp (written ++ bytes.now) p.now)) }
    ensures cause { OnErr result (Rose (F.faults folder.old) (F.faults folder.new)) }
    ensures order { OnOk result (F.calls folder.new ≡ with_call (Action.Sync temp)
        (with_call (Action.Append temp (length bytes.now)) (F.calls folder.old))) }
    ensures asks { (name : Name) →
        OnlyCalls (IsSaveOf temp name) (F.calls folder.old) (F.calls folder.new) }
    ensures never_falls { F.faults folder.old ≤ F.faults folder.new }
{
    folder.append(temp, bytes)?;
    folder.sync(temp)
}

/// Appends bytes to the temporary file, makes all of it safe, and puts it in the place of another.
fn finish<F: Folder>(folder: &mut F, temp: Name, name: Name, bytes: &[u8]) -> Result<(), Failed>
    requires apart { temp ≢ name }
    requires reads { (written : List ℕ) × ReadsAs temp written (F.past folder.old) }
    ensures any_moment { (written : List ℕ) → ReadsAs temp written (F.past folder.old) →
        Always (F.past folder.old) (F.past folder.new)
        (PublishesOrNot temp name (written ++ bytes.now)) }
    ensures stored { (written : List ℕ) → ReadsAs temp written (F.past folder.old) →
        OnOk result (IfSome (F.past folder.new) (λ p.
        IsStored name (written ++ bytes.now) p.now)) }
    ensures cause { OnErr result (Rose (F.faults folder.old) (F.faults folder.new)) }
    ensures free { OnOk result (IfSome (F.past folder.new) (λ p. IsFree temp p.now)) }
    ensures order { OnOk result (F.calls folder.new ≡ calls_to_publish temp name
        (with_call (Action.Sync temp)
        (with_call (Action.Append temp (length bytes.now)) (F.calls folder.old)))) }
    ensures asks { OnlyCalls (IsSaveOf temp name) (F.calls folder.old) (F.calls folder.new) }
    ensures never_falls { F.faults folder.old ≤ F.faults folder.new }
{
    write_rest(folder, temp, bytes)?;
    publish(folder, temp, name)
}
