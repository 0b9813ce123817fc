//! Each save command as an event (whole, begin, step or end), with its reply.

ghost use Rattle.std.specs.Prelude.{◌≡◌, ◌≤◌, Some, None};
ghost use Rattle.std.specs.Option.{option_map};
ghost use Rattle.save_store.specs.Job.{whole};
ghost use Rattle.host_io.specs.Calls.{IsSaveOf, OnlyCalls};
ghost use Rattle.host_io.specs.declared.name.Name.TheVariants.{Peers, PeersTemp};
ghost use Rattle.session_saves.specs.Events as event;
ghost use Rattle.session_saves.specs.Folders.{Effect, IsOpen};

use host_io::{Bytes, Folder, Name};
use log_lines::Reply;
use save_store::{SaveJob, save};

/// Saves a file whole. A save in pieces must not be open.
pub(crate) fn save_line<F: Folder>(folder: &mut F, file: &Bytes) -> Reply
    ensures effect { Effect (event.save file.now None) (Some file.now) result None
        (F.past folder.old) (F.past folder.new) (F.faults folder.old) (F.faults folder.new) }
    ensures asks { OnlyCalls (IsSaveOf PeersTemp Peers)
        (F.calls folder.old) (F.calls folder.new) }
    ensures never_falls { F.faults folder.old ≤ F.faults folder.new }
{
    match save(folder, Name::PeersTemp, Name::Peers, file.items()) {
        Ok(()) => Reply::Saved,
        Err(_) => Reply::NotSaved,
    }
}

/// Begins to save a file in pieces. No other save must be open.
pub(crate) fn begin_line<F: Folder>(folder: &mut F, file: Bytes) -> (Option<SaveJob>, Reply)
    ensures effect { Effect (event.save_begin file None) None result.1 result.0
        (F.past folder.old) (F.past folder.new) (F.faults folder.old) (F.faults folder.new) }
    ensures asks { OnlyCalls (IsSaveOf PeersTemp Peers)
        (F.calls folder.old) (F.calls folder.new) }
    ensures never_falls { F.faults folder.old ≤ F.faults folder.new }
{
    let size = file.items().len() as u64;
    match SaveJob::begin(folder, Name::PeersTemp, file) {
        Ok(job) => (Some(job), Reply::Begun { size }),
        Err(_) => (None, Reply::NotSaved),
    }
}

/// Writes the next `count` bytes of the open save. If that fails, no save is open any more.
#[tactic(auto, using(host_io::proofs::Asking::none))]
pub(crate) fn step_line<F: Folder>(folder: &mut F, job: &mut Option<SaveJob>, count: u32) -> Reply
    requires is_open { IsOpen job.old (F.past folder.old) }
    ensures effect { Effect (event.save_step count job.old) None result job.new
        (F.past folder.old) (F.past folder.new) (F.faults folder.old) (F.faults folder.new) }
    ensures still { job.old ≡ None → folder.new ≡ folder.old }
    ensures asks { OnlyCalls (IsSaveOf PeersTemp Peers)
        (F.calls folder.old) (F.calls folder.new) }
    ensures never_falls { F.faults folder.old ≤ F.faults folder.new }
{
    match job.take() {
        None => Reply::NoSave,
        Some(open) => match open.step(folder, count) {
            Ok(next) => {
                let left = next.left();
                *job = Some(next);
                Reply::Stepped { left }
            }
            Err(_) => Reply::NotSaved,
        },
    }
}

/// Ends the open save, after which no save is open.
#[tactic(auto, using(host_io::proofs::Asking::none))]
pub(crate) fn end_line<F: Folder>(folder: &mut F, job: &mut Option<SaveJob>) -> Reply
    requires is_open { IsOpen job.old (F.past folder.old) }
    ensures effect { Effect (event.save_end job.old) (option_map whole job.old) result job.new
        (F.past folder.old) (F.past folder.new) (F.faults folder.old) (F.faults folder.new) }
    ensures still { job.old ≡ None → folder.new ≡ folder.old }
    ensures asks { OnlyCalls (IsSaveOf PeersTemp Peers)
        (F.calls folder.old) (F.calls folder.new) }
    ensures never_falls { F.faults folder.old ≤ F.faults folder.new }
{
    match job.take() {
        None => Reply::NoSave,
        Some(open) => match open.end(folder, Name::Peers) {
            Ok(()) => Reply::Saved,
            Err(_) => Reply::NotSaved,
        },
    }
}
