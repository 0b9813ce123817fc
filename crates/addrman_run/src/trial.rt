//! `trial` carries out a generated log and hashes its replies.

ghost use Rattle.std.specs.Prelude.{◌≡◌, ◌≢◌, ◌<◌, ◌≤◌, ◌+◌, ◌^◌, ◌++◌, ℕ, List, length, map, None, IfOk, OnOk};
ghost use Rattle.addr_codecs.specs.declared.message.TheConstants.{MAX_ENTRIES};
ghost use Rattle.gen_load.specs.Spelling.{without_feed};
ghost use Rattle.gen_load.specs.declared.generated.TheConstants.{MAX_LENGTH, MAX_LINES};
ghost use Rattle.session_saves.specs.Folders.{IsOpen};
ghost use Rattle.addrman_run.specs.Inside.{HasReplies, Replied};
ghost use Rattle.addrman_run.specs.OneText.{OneText};
ghost use Rattle.addrman_run.specs.Trial.{IsTrial, trial_start};
ghost use Rattle.log_run.specs.Counts.{IsCounted};

use crate::output::write_line;
use crate::trial_line::line_of;
use crate::{Memory, Status};
use gen_load::{Gen, lines_spell_commands};
use host_io::{Sink, SureFolder};
use manager::Manager;
use peers_file::Chain;
use placing::Placer;
use session::Session;
use sha2::{Digest, Sha256};
use std::alloc::Global;
use std::hash::BuildHasher;
use tables::Tables;

/// How many bytes the replies of a trial have, and their SHA-256.
#[derive(Clone, Copy)]
pub(crate) struct Replies {
    bytes: u64,
    sum: [u8; 32],
}

/// Carries out a line of a generated log, and appends its reply. Such a line parses as a command,
/// so it has no fault.
fn reply_to<H: BuildHasher + Drop>(
    alloc: Global,
    session: &mut Session<'_, H>,
    line: &[u8],
    reply: &mut Vec<u8>,
) -> Result<(), Memory>
    requires some { 0 < length line.now }
    requires short { length line.now ≤ MAX_LENGTH }
    requires room { session.old.machine.tables.next_number < 2 ^ 62 }
    requires is_open { IsOpen session.old.job None }
    ensures step { OnOk result (Replied session.old (without_feed line.now)
        reply.old.items reply.new.items session.new) }
    ensures is_open { IsOpen session.new.job None }
    ensures numbers { session.new.machine.tables.next_number ≤
        session.old.machine.tables.next_number + MAX_ENTRIES }
{
    let mut folder = SureFolder::make();
    let text = &line[..line.len() - 1];
    match session.line(alloc, text, &mut folder, reply) {
        Ok(()) => Ok(()),
        Err(_) => Err(Memory),
    }
}

/// Adds a reply to the hash, and returns how many bytes all replies have, this one included.
fn add_reply(hasher: &mut Sha256, bytes: u64, reply: &[u8]) -> Result<u64, Memory>
    ensures hash { (m : List ℕ) → ⟦<Sha256 as Digest>⟧.holds hasher.old m →
        ⟦<Sha256 as Digest>⟧.holds hasher.new (m ++ reply.now) }
    ensures bytes { IfOk result (λ n. n ≡ bytes + length reply.now) }
{
    hasher.update(reply);
    match bytes.checked_add(reply.len() as u64) {
        Some(bytes) => Ok(bytes),
        None => Err(Memory),
    }
}

/// Carries out the lines of a generated log, and hashes the replies as they come.
fn replies_to<H: BuildHasher + Drop>(
    alloc: Global,
    session: &mut Session<'_, H>,
    mut log: Gen,
) -> Result<Replies, Memory>
    requires few { length log ≤ MAX_LINES }
    requires empty { session.old.machine.tables.next_number ≡ 0 }
    requires is_open { session.old.job ≡ None }
    ensures { IfOk result (λ replies. HasReplies session.old (map without_feed log)
        session.new replies.bytes replies.sum) }
{
    let mut hasher = Sha256::new();
    let mut bytes: u64 = 0;
    let mut line = Vec::new(alloc);
    let mut reply = Vec::new(alloc);
    loop {
        line.clear();
        reply.clear();
        match log.next(&mut line) {
            Ok(true) => {}
            Ok(false) => {
                let sum = hasher.finalize();
                return Ok(Replies { bytes, sum });
            }
            Err(_) => return Err(Memory),
        }
        reply_to(alloc, session, line.as_slice(), &mut reply)?;
        bytes = add_reply(&mut hasher, bytes, reply.as_slice())?;
    }
}

/// Carries out a generated log from empty tables under a key of zeros, and returns the line about
/// it.
fn trial_line<H: BuildHasher + Drop>(
    alloc: Global,
    hasher: H,
    start: u64,
    lines: u32,
) -> Result<Vec<u8>, Memory>
    requires { lines ≤ MAX_LINES }
    ensures { IfOk result (λ line. IsTrial start lines line.items) }
{
    let Ok(tables) = Tables::open(alloc, Placer::make([0; 32], None), hasher) else {
        return Err(Memory);
    };
    let mut session = Session::make(Manager::open(tables), Chain::Main);
    line_over(alloc, &mut session, start, lines)
}

/// Carries out a generated log over a session that owns empty tables, and returns the line about
/// it.
fn line_over<H: BuildHasher + Drop>(
    alloc: Global,
    session: &mut Session<'_, H>,
    start: u64,
    lines: u32,
) -> Result<Vec<u8>, Memory>
    requires few { lines ≤ MAX_LINES }
    requires begins { session.old ≡ trial_start }
    ensures { IfOk result (λ line. IsTrial start lines line.items) }
{
    lines_spell_commands();
    let replies = replies_to(alloc, session, Gen::make(start, lines))?;
    let counts = session.manager().tables().counts();
    line_of(alloc, lines, replies.bytes, counts, &replies.sum)
}

/// Carries out a generated log, and writes one line about it.
pub(crate) fn trial<K: Sink, H: BuildHasher + Drop>(
    alloc: Global,
    hasher: H,
    start: u64,
    lines: u32,
    out: &mut K,
) -> Status
    requires { lines ≤ MAX_LINES }
    ensures text { OneText (IsTrial start lines) (K.written out.old) (K.written out.new) result }
    ensures write { IsCounted Status.WriteFault (K.faults out.old) (K.faults out.new) result }
    ensures no_disk { result ≢ Status.DiskFault }
{
    match trial_line(alloc, hasher, start, lines) {
        Ok(line) => write_line(line.as_slice(), out),
        Err(Memory) => Status::Memory,
    }
}
