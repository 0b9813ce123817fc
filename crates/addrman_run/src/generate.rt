//! `gen` writes a generated log in pieces.

ghost use Rattle.std.specs.Prelude.{◌≡◌, ◌≢◌, ◌≤◌, ◌++◌, List, ℕ, OnOk, OnErr};
ghost use Rattle.gen_load.specs.declared.generated.TheConstants.{MAX_LINES};
ghost use Rattle.host_io.specs.Faults.{Rose};
ghost use Rattle.host_io.specs.Writing.{Appended, AppendedPart};
ghost use Rattle.addrman_run.specs.Generate.{GenText};
ghost use Rattle.log_run.specs.Counts.{IsCounted};

use crate::Status;
use gen_load::{Gen, MAX_LENGTH};
use host_io::{Failed, PIECE, Sink, write_all};
use std::alloc::Global;

/// Writes the generated log of a number, in pieces of `PIECE` bytes and up to a line more.
pub(crate) fn generate<K: Sink>(alloc: Global, start: u64, lines: u32, out: &mut K) -> Status
    requires { lines ≤ MAX_LINES }
    ensures text { GenText start lines (K.written out.old) (K.written out.new) result }
    ensures write { IsCounted Status.WriteFault (K.faults out.old) (K.faults out.new) result }
    ensures no_disk { result ≢ Status.DiskFault }
{
    let mut log = Gen::make(start, lines);
    let Ok(mut piece) = Vec::with_capacity(alloc, PIECE + MAX_LENGTH) else {
        return Status::Memory;
    };
    loop {
        match log.next(&mut piece) {
            Ok(true) => {}
            Ok(false) => break,
            Err(_) => return Status::Memory,
        }
        match write_piece(&mut piece, out) {
            Ok(()) => {}
            Err(_) => return Status::WriteFault,
        }
    }
    match write_all(out, piece.as_slice()) {
        Ok(()) => Status::Done,
        Err(_) => Status::WriteFault,
    }
}

/// Writes the bytes and empties the list, once there are `PIECE` bytes or more. After an error a
/// part of them is written.
fn write_piece<K: Sink>(piece: &mut Vec<u8>, out: &mut K) -> Result<(), Failed>
    ensures written { OnOk result ((text : List ℕ)
        × Appended (K.written out.old) (K.written out.new) text
        × (text ++ piece.new.items ≡ piece.old.items)) }
    ensures err { OnErr result
        (AppendedPart (K.written out.old) (K.written out.new) piece.old.items) }
    ensures cause { OnErr result (Rose (K.faults out.old) (K.faults out.new)) }
    ensures never_falls { K.faults out.old ≤ K.faults out.new }
{
    if piece.len() < PIECE {
        return Ok(());
    }
    write_all(out, piece.as_slice())?;
    piece.clear();
    Ok(())
}
