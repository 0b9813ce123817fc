//! `SaveRequests`, `SaveRequest` and `Stage`: create, append, sync, rename, and sync the folder.
//!
//! It is not `SaveJob` of `save_store`, whose steps write as much as a line of a log says, on a
//! `Folder`: here the bytes are cut into equal pieces for a caller who has no `Folder`.

ghost use Rattle.std.specs.Prelude.{◌≡◌, ◌<◌, ◌≤◌, length, drop};
ghost use Rattle.save_requests.specs.Requests.{next_of, piece_of, save_requests, IsSafeSave};
ghost use Rattle.save_requests.specs.Inside.{asked_at, piece_at, stage_after};

use host_io::Bytes;
use std::marker::Model;

/// What a save asks its caller to do in the folder of the file.
#[derive(Clone, Copy)]
pub enum SaveRequest {
    /// Make an empty file with the temporary name.
    Create,
    /// Append bytes to the temporary file.
    Append,
    /// Make the bytes of the temporary file safe, as `fsync` of it does.
    Sync,
    /// Rename the temporary file to the name of the file that is saved.
    Rename,
    /// Make the names of the folder safe, as `fsync` of the folder does.
    SyncDir,
}

/// How far a save has come: what is asked for next.
#[derive(Clone, Copy)]
pub(crate) enum Stage {
    Create,
    Append,
    Sync,
    Rename,
    SyncDir,
    Saved,
}

/// A save that hands out one request after another: `next` and `bytes` say what to do, and `done`
/// is called once that has succeeded. If it fails, the save is over: it is dropped, and the file is
/// as it was or the new one.
#[derive(Drop)]
pub struct SaveRequests {
    bytes: Bytes,
    max: usize,
    done: usize,
    stage: Stage,
}

impl Model for SaveRequests {
    ghost use Rattle.std.specs.Prelude.{◌≡◌, ◌<◌, ◌≤◌, List, length, drop};
    ghost use Rattle.save_requests.specs.Requests.{Request};
    ghost use Rattle.save_requests.specs.Inside.{left_at};
    ghost use Rattle.save_requests.specs.declared.requests.Stage.TheVariants.{Append};

    ghost Value = { List Request };

    ghost view = { λ s. left_at s.stage s.max (drop s.done s.bytes) };

    ghost invariant = { λ s.
        (0 < s.max) × (s.done ≤ length s.bytes)
        × (s.stage ≡ Append → s.done < length s.bytes) };
}

impl SaveRequests {
    /// Begins a save of a file with these bytes, in pieces of at most `max` bytes. No request is
    /// carried out yet.
    pub fn begin(bytes: Bytes, max: u32) -> SaveRequests
        requires some { 0 < max }
        ensures requests { result ≡ save_requests max bytes }
        ensures promise { IsSafeSave bytes result }
    {
        SaveRequests {
            bytes,
            max: max as usize,
            done: 0,
            stage: Stage::Create,
        }
    }

    /// Returns what to do next, or `None` if the file is saved.
    pub fn next(&self) -> Option<SaveRequest>
        ensures { result ≡ next_of self.now }
    {
        asked_at(self.stage)
    }

    /// Returns the bytes to append, or none if something else is to be done.
    pub fn bytes(&self) -> &[u8]
        ensures { result.now ≡ piece_of self.now }
    {
        piece_at(self.stage, &self.bytes.items()[self.done..], self.max)
    }

    /// Goes on after what was to be done has succeeded.
    pub fn done(&mut self)
        ensures { self.new ≡ drop 1 self.old }
    {
        let bytes = self.bytes.items();
        let done = self.done + piece_at(self.stage, &bytes[self.done..], self.max).len();
        self.stage = stage_after(self.stage, bytes.len() - done);
        self.done = done;
    }
}

/// Returns what is asked for at a stage.
fn asked_at(stage: Stage) -> Option<SaveRequest>
    ensures { result ≡ asked_at stage }
{
    match stage {
        Stage::Create => Some(SaveRequest::Create),
        Stage::Append => Some(SaveRequest::Append),
        Stage::Sync => Some(SaveRequest::Sync),
        Stage::Rename => Some(SaveRequest::Rename),
        Stage::SyncDir => Some(SaveRequest::SyncDir),
        Stage::Saved => None,
    }
}

/// Returns the stage after one, with this many bytes left to append.
fn stage_after(stage: Stage, left: usize) -> Stage
    ensures { result ≡ stage_after stage left }
{
    match stage {
        Stage::Create | Stage::Append => {
            if left == 0 {
                Stage::Sync
            } else {
                Stage::Append
            }
        }
        Stage::Sync => Stage::Rename,
        Stage::Rename => Stage::SyncDir,
        Stage::SyncDir | Stage::Saved => Stage::Saved,
    }
}

/// Returns the bytes that are appended next, of those left.
fn piece_at(stage: Stage, left: &[u8], max: usize) -> &[u8]
    ensures bytes { result.now ≡ piece_at stage max left.now }
    ensures within { length result.now ≤ length left.now }
{
    match stage {
        Stage::Append => {
            if left.len() <= max {
                left
            } else {
                &left[..max]
            }
        }
        _ => &[],
    }
}
