//! The exit codes, and the line for each status on standard error (`status_line`).

ghost use Rattle.std.specs.Prelude.{◌≡◌, ◌++◌, codes, decimal, IfOk, OnOk, OnErr};
ghost use Rattle.grammar.specs.FaultTexts.{line_fault_text};
ghost use Rattle.raw_file.specs.FaultTexts.{listing_fault_text};
ghost use Rattle.addrman_run.specs.FaultTexts.{tables_fault_text};
ghost use Rattle.addrman_run.specs.Report.{code_of, reason_of, line_of, status_text};

use crate::{Memory, Status, TablesFault};
use log_lines::LineFault;
use net_addr::{put_number, put_text};
use raw_file::ListingFault;
use std::alloc::Global;

/// Returns the exit code of the program for `status`.
pub fn code(status: &Status) -> u8
    ensures { result ≡ code_of status.now }
{
    match status {
        Status::Done => 0,
        Status::Usage => 2,
        Status::LogLine { .. } => 3,
        Status::PeersRefused(_) => 4,
        Status::AsmapRefused(_) => 5,
        Status::TableRefused(_) => 6,
        Status::ReadFault => 7,
        Status::WriteFault => 8,
        Status::DiskFault => 9,
        Status::LogTooLong => 10,
        Status::NoKey => 11,
        Status::Memory => 12,
        Status::LineTooLong { .. } => 13,
        Status::NoFile { .. } => 14,
        Status::BansRefused(_) => 16,
        Status::TooManyRows => 17,
        Status::OldAsmapRefused(_) => 18,
        Status::TooManyChanges => 19,
        Status::AnchorsRefused(_) => 21,
        Status::NoAnchors => 14,
        Status::RawRefused(_) => 20,
    }
}

/// Returns a copy of the text.
fn owned(alloc: Global, text: &[u8]) -> Result<Vec<u8>, Memory>
    ensures { IfOk result (λ copy. copy.items ≡ text.now) }
{
    Ok(Vec::from_slice(alloc, text)?)
}

/// Returns two texts, one after the other.
fn joined(alloc: Global, first: &[u8], second: &[u8]) -> Result<Vec<u8>, Memory>
    ensures { IfOk result (λ text. text.items ≡ first.now ++ second.now) }
{
    let mut text = Vec::from_slice(alloc, first)?;
    text.extend_from_slice(second)?;
    Ok(text)
}

/// Returns the message for a line of the log that has an error.
fn log_line(alloc: Global, line: u64, fault: &LineFault) -> Result<Vec<u8>, Memory>
    ensures { IfOk result (λ text. text.items
        ≡ codes "log line " ++ decimal line ++ codes ": " ++ line_fault_text fault.now) }
{
    let mut text = Vec::new(alloc);
    put_number(b"log line ", line, &mut text)?;
    put_text(b": ", &mut text)?;
    put_text(fault.word(), &mut text)?;
    Ok(text)
}

/// Returns the message for a line of the log that is too long.
fn line_too_long(alloc: Global, line: u64) -> Result<Vec<u8>, Memory>
    ensures { IfOk result (λ text. text.items
        ≡ codes "log line " ++ decimal line ++ codes ": too long") }
{
    let mut text = Vec::new(alloc);
    put_number(b"log line ", line, &mut text)?;
    put_text(b": too long", &mut text)?;
    Ok(text)
}

/// Returns the message for why prefixes.txt is refused.
fn table_refused(alloc: Global, fault: &TablesFault) -> Result<Vec<u8>, Memory>
    ensures { IfOk result (λ text. text.items
        ≡ codes "prefixes.txt refused: " ++ tables_fault_text fault.now) }
{
    let fault = fault.text(alloc)?;
    joined(alloc, b"prefixes.txt refused: ", fault.as_slice())
}

/// Returns the message for why a listing is refused.
fn raw_refused(alloc: Global, fault: &ListingFault) -> Result<Vec<u8>, Memory>
    ensures { IfOk result (λ text. text.items
        ≡ codes "listing refused: " ++ listing_fault_text fault.now) }
{
    let fault = fault.text(alloc)?;
    joined(alloc, b"listing refused: ", fault.as_slice())
}

/// Returns the reason for `status`, which goes between the program's name and the line feed.
fn reason(alloc: Global, status: &Status) -> Result<Vec<u8>, Memory>
    ensures { IfOk result (λ text. text.items ≡ reason_of status.now) }
{
    match status {
        Status::Done => Ok(Vec::new(alloc)),
        Status::Usage => owned(alloc, b"bad usage"),
        Status::LogLine { line, fault } => log_line(alloc, *line, fault),
        Status::PeersRefused(fault) => { joined(alloc, b"peers.dat refused: ", fault.word()) }
        Status::AsmapRefused(fault) => joined(alloc, b"asmap.dat refused: ", fault.word()),
        Status::TableRefused(fault) => table_refused(alloc, fault),
        Status::ReadFault => owned(alloc, b"log cannot be read"),
        Status::WriteFault => owned(alloc, b"output cannot be written"),
        Status::DiskFault => owned(alloc, b"folder failed"),
        Status::LogTooLong => owned(alloc, b"log too long"),
        Status::NoKey => owned(alloc, b"no peers.dat and no key"),
        Status::Memory => owned(alloc, b"out of memory"),
        Status::LineTooLong { line } => line_too_long(alloc, *line),
        Status::NoFile { name } => joined(alloc, name.file_name().as_bytes(), b" is missing"),
        Status::BansRefused(fault) => joined(alloc, b"banlist.json refused: ", fault.word()),
        Status::TooManyRows => owned(alloc, b"asmap.dat has more than 2000000 rows"),
        Status::OldAsmapRefused(fault) => joined(alloc, b"asmap.old refused: ", fault.word()),
        Status::TooManyChanges => owned(
            alloc,
            b"asmap.old and asmap.dat differ in more than 2000000 prefixes",
        ),
        Status::AnchorsRefused(fault) => joined(alloc, b"anchors.dat refused: ", fault.word()),
        Status::NoAnchors => owned(alloc, b"anchors.dat is missing"),
        Status::RawRefused(fault) => raw_refused(alloc, fault),
    }
}

/// Returns the whole line for standard error.
fn line_of(alloc: Global, reason: &[u8]) -> Result<Vec<u8>, Memory>
    ensures { IfOk result (λ text. text.items ≡ line_of reason.now) }
{
    let mut text = Vec::from_slice(alloc, b"addrman: ")?;
    text.extend_from_slice(reason)?;
    text.extend_from_slice(b"\n")?;
    Ok(text)
}

/// Appends the line that the program prints on standard error for `status`; nothing for `Done`. If
/// memory runs out, nothing changes.
pub fn status_line(status: &Status, out: &mut Vec<u8>) -> Result<(), Memory>
    ensures ok { OnOk result (out.new.items ≡ out.old.items ++ status_text status.now) }
    ensures err { OnErr result (out.new.items ≡ out.old.items) }
{
    if *status == Status::Done {
        return Ok(());
    }
    let alloc = *out.allocator();
    let reason = reason(alloc, status)?;
    let text = line_of(alloc, reason.as_slice())?;
    out.extend_from_slice(text.as_slice())?;
    Ok(())
}
