//! `limit`: the run of `LimitLog` over the input.

ghost use Rattle.std.specs.Prelude.{◌≢◌, ◌+◌};
ghost use Rattle.host_io.specs.Reading.{TakesAtMost};
ghost use Rattle.log_run.specs.declared.sizes.TheConstants.{MAX_LOG};
ghost use Rattle.addrman_run.specs.Limit.{LimitOutcome};
ghost use Rattle.log_run.specs.Counts.{IsCounted};

use crate::status::status_of;
use crate::{Learned, Status};
use addr_limit::{LimitLog, connections_are_apart};
use host_io::{Sink, Source};
use log_run::run_log;
use std::alloc::Global;
use std::hash::BuildHasher;

/// Carries out the lines of the log under the limit on received addresses, and writes the output
/// line of each.
pub(crate) fn limit<L: Source, K: Sink, H: BuildHasher + Drop>(
    alloc: Global,
    hasher: H,
    log: &mut L,
    out: &mut K,
    learned: &mut Learned,
) -> Status
    ensures outcome { LimitOutcome
        (record { left = L.left log.old; written = K.written out.old })
        (record { left = L.left log.new; written = K.written out.new }) result }
    ensures taken { TakesAtMost (L.left log.old) (L.left log.new) (MAX_LOG + 1) }
    ensures read { IsCounted Status.ReadFault (L.faults log.old) (L.faults log.new) result }
    ensures write { IsCounted Status.WriteFault (K.faults out.old) (K.faults out.new) result }
    ensures no_disk { result ≢ Status.DiskFault }
{
    connections_are_apart();
    let mut lines = LimitLog::make(alloc, hasher);
    let mut world = ();
    status_of(run_log(alloc, log, &mut lines, &mut world, out, &mut learned.line))
}
