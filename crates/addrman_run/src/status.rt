//! `Status`: how a run ended; the status of a log by its `LogEnd`.

ghost use Rattle.std.specs.Prelude.{◌≡◌};
ghost use Rattle.addrman_run.specs.Inside.{status_of};

use crate::{PeersFault, TablesFault};
use anchors::AnchorsFault;
use asmap_vm::CodeFault;
use ban_list::BanFault;
use host_io::Name;
use log_lines::LineFault;
use log_run::LogEnd;
use raw_file::ListingFault;

/// How a run of the program ended.
#[derive(Clone, Copy, Debug, PartialEq, Eq)]
pub enum Status {
    /// Everything was written, and a log that the command carries out was read to its end.
    Done,
    /// The arguments are not those of a command.
    Usage,
    /// A line of the log has an error; lines are counted from 1. The replies to those before it are
    /// written.
    LogLine { line: u64, fault: LineFault },
    /// peers.dat is too large, or no file of the chain, or two of its valid records have one peer.
    PeersRefused(PeersFault),
    /// asmap.dat is too large, or no file of a sane tree.
    AsmapRefused(CodeFault),
    /// prefixes.txt is too large, is not the text of a table, or is that of a table that cannot be
    /// compiled.
    TableRefused(TablesFault),
    /// The log cannot be read. The replies to the lines that end in the bytes read are written.
    ReadFault,
    /// The output cannot be written.
    WriteFault,
    /// The folder failed.
    DiskFault,
    /// The log has more than 2^30 bytes. Each line whose end is among the first 2^30 is answered.
    LogTooLong,
    /// There is neither a peers.dat nor a key.
    NoKey,
    /// Out of memory.
    Memory,
    /// A line of the log has more than 2,000,000 bytes; lines are counted from 1. The replies to
    /// those before it are written.
    LineTooLong { line: u64 },
    /// A file that the command needs is absent.
    NoFile { name: Name },
    /// asmap.dat gives more rows than a table of prefixes may have.
    TooManyRows,
    /// banlist.json is too large, or no file of a list of bans.
    BansRefused(BanFault),
    /// asmap.old is too large, or no file of a sane tree.
    OldAsmapRefused(CodeFault),
    /// More prefixes than a table may have rows have one number in asmap.old and another one in
    /// asmap.dat.
    TooManyChanges,
    /// anchors.dat is too large, or no file of anchors of the chain.
    AnchorsRefused(AnchorsFault),
    /// There is no anchors.dat. `run` never returns this: the folder has the file in the place of
    /// peers.dat, and who puts it there knows that it is missing.
    NoAnchors,
    /// The listing is too large, or no text of the slots of both tables, or a peer is there again.
    RawRefused(ListingFault),
}

/// Returns the status of a command that carries out the lines of the log, by the end of its run
/// over it.
pub(crate) fn status_of(end: LogEnd) -> Status
    ensures { result ≡ status_of end }
{
    match end {
        LogEnd::Done => Status::Done,
        LogEnd::Fault { line, fault } => Status::LogLine { line, fault },
        LogEnd::LineTooLong { line } => Status::LineTooLong { line },
        LogEnd::LogTooLong => Status::LogTooLong,
        LogEnd::ReadFault => Status::ReadFault,
        LogEnd::WriteFault => Status::WriteFault,
        LogEnd::Memory => Status::Memory,
    }
}
