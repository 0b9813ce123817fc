//! Statuses that no case ends with.

use crate::case::Case;
use crate::cases::Tally;
use crate::ran::{end_of, status_of};
use crate::unread::Unread;
use addrman_run::Status;
use addrman_run::TablesFault::{Compile, Rows};
use asmap_compile::CompileFault;
use ban_list::BanFault;
use host_io::{SureFolder, SureSink, SureSource};
use log_lines::LineFault;
use prefix_table::TableFault;
use std::alloc::Global;
use std::io;

/// Statuses that none of the cases ends with, and the exit code and the text of each.
const STATUSES: [(Status, &str); 10] = [
    (
        Status::LogLine {
            line: u64::MAX,
            fault: LineFault::Words,
        },
        "3 log line 18446744073709551615: words",
    ),
    (
        Status::TableRefused(Rows(TableFault::Repeated { line: u32::MAX })),
        "6 prefixes.txt refused: repeated at line 4294967295",
    ),
    (
        Status::TableRefused(Rows(TableFault::TooMany)),
        "6 prefixes.txt refused: too-many",
    ),
    (
        Status::TableRefused(Rows(TableFault::TooLarge { size: 134_217_729 })),
        "6 prefixes.txt refused: too-large",
    ),
    (
        Status::TableRefused(Compile(CompileFault::TooLarge { bits: 67_108_865 })),
        "6 prefixes.txt refused: code-too-large",
    ),
    (Status::Memory, "12 out of memory"),
    (
        Status::LineTooLong { line: u64::MAX },
        "13 log line 18446744073709551615: too long",
    ),
    (
        Status::BansRefused(BanFault::TooMany),
        "16 banlist.json refused: too-many",
    ),
    (
        Status::TooManyRows,
        "17 asmap.dat has more than 2000000 rows",
    ),
    (
        Status::TooManyChanges,
        "19 asmap.old and asmap.dat differ in more than 2000000 prefixes",
    ),
];

/// Whether the status has the exit code and the text.
fn has_text(alloc: Global, status: &Status, want: &str) -> bool {
    match end_of(alloc, status) {
        Ok(end) => end.as_str() == want,
        Err(_) => false,
    }
}

/// Checks the exit code and the text of each status, and prints which are wrong.
pub(crate) fn check_statuses(rt: &(impl Eprint + AllocGlobal)) -> io::Result<Tally> {
    let mut tally = Tally { cases: 0, wrong: 0 };
    for (status, want) in &STATUSES {
        let right = has_text(rt.alloc(), status, *want);
        if !right {
            eprintln!(rt; "wanted as a status: {}", *want)?;
        }
        tally.count(right);
    }
    Ok(tally)
}

/// Whether a replay of one line, which nothing outside can stop, is done.
fn is_surely_done(alloc: Global) -> Result<bool, Unread> {
    let mut case = Case::new(alloc)?;
    case.read_lines("now 1700000000")?;
    let mut log = SureSource::make(case.log.as_slice());
    let mut folder = SureFolder::make();
    let mut out = SureSink::make();
    let status = status_of(alloc, &case, &mut log, &mut folder, &mut out);
    Ok(status == Status::Done)
}

/// Checks a run over an outside that never fails.
pub(crate) fn check_surely(rt: &impl AllocGlobal) -> Tally {
    let mut tally = Tally { cases: 0, wrong: 0 };
    tally.count(match is_surely_done(rt.alloc()) {
        Ok(right) => right,
        Err(_) => false,
    });
    tally
}
