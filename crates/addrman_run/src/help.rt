//! `help` and `version`, with `VERSION`.

ghost use Rattle.std.specs.Prelude.{◌≢◌};
ghost use Rattle.addrman_run.specs.Help.{IsHelp, IsVersion};
ghost use Rattle.addrman_run.specs.OneText.{OneText};
ghost use Rattle.log_run.specs.Counts.{IsCounted};

use crate::Status;
use crate::output::write_line;
use arguments::{CommandName, help_text};
use host_io::Sink;
use std::alloc::Global;

/// The version, and the toolchain that proved it. Kits of one logic prove the same.
pub(crate) const VERSION: &str =
    "addrman 0.1.0, proved with rattle-kit-13 (logic dac8208d650f15bf)\n";

/// Writes the page of a command, or the list of all.
pub(crate) fn help<K: Sink>(alloc: Global, command: Option<CommandName>, out: &mut K) -> Status
    ensures text { OneText (IsHelp command) (K.written out.old) (K.written out.new) result }
    ensures write { IsCounted Status.WriteFault (K.faults out.old) (K.faults out.new) result }
    ensures no_disk { result ≢ Status.DiskFault }
{
    match help_text(alloc, command) {
        Ok(text) => write_line(text.as_slice(), out),
        Err(_) => Status::Memory,
    }
}

/// Writes the version and the toolchain.
pub(crate) fn version<K: Sink>(out: &mut K) -> Status
    ensures text { OneText IsVersion (K.written out.old) (K.written out.new) result }
    ensures write { IsCounted Status.WriteFault (K.faults out.old) (K.faults out.new) result }
    ensures no_disk { result ≢ Status.DiskFault }
{
    write_line(VERSION.as_bytes(), out)
}
