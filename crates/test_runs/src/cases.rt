//! Runs each case of a text, and prints what differs (`Tally`, `Place`).

use crate::case::Case;
use crate::ran::{Ran, is_right, run_case};
use crate::unread::Unread;
use std::alloc::Global;
use std::io;

/// How many cases there are, and how many of them are wrong.
#[derive(Clone, Copy)]
pub(crate) struct Tally {
    pub cases: u64,
    pub wrong: u64,
}

/// Where a case is: its file, and the number of its first line.
#[derive(Clone, Copy)]
struct Place<'a> {
    file: &'a str,
    line: u64,
}

impl Tally {
    /// Counts a case.
    pub(crate) fn count(&mut self, right: bool) {
        self.cases = self.cases.saturating_add(1);
        if !right {
            self.wrong = self.wrong.saturating_add(1);
        }
    }
}

/// Returns the line of this number, from 0, of what a run wrote.
fn line_at(text: &[u8], number: usize) -> &str {
    match str::from_utf8(text) {
        Ok(text) => text.lines().nth(number).unwrap_or("(no line)"),
        Err(_) => "(no text)",
    }
}

/// Returns the number, from 0, of the first line that differs.
fn first_other(got: &[u8], want: &[u8]) -> usize {
    let mut number = 0usize;
    for (a, b) in got.iter().zip(want.iter()) {
        if *a != *b {
            return number;
        }
        if *a == b'\n' {
            number = number.saturating_add(1);
        }
    }
    number
}

/// Prints how the run ended and how it was to end, and the first replies that differ.
fn explain(
    rt: &(impl Eprint + AllocGlobal),
    place: Place<'_>,
    case: &Case,
    ran: &Ran,
) -> io::Result<()> {
    let (got, want) = (ran.written.as_slice(), case.replies.as_slice());
    let number = first_other(got, want);
    eprintln!(rt;
        "{}:{}: line {}",
        place.file,
        place.line,
        number.saturating_add(1)
    )?;
    eprintln!(rt; "  is     {} ({})", line_at(got, number), ran.end.as_str())?;
    eprintln!(rt;
        "  wanted {} ({})",
        line_at(want, number),
        case.end.as_str()
    )?;
    if !ran.is_steady {
        eprintln!(rt;
            "  files, what crashes leave, calls or the rest of the log differ, or memory ran out"
        )?;
    }
    Ok(())
}

/// Runs the case, if it was read, and returns whether it is right. If not, prints why.
fn check(
    rt: &(impl Eprint + AllocGlobal),
    place: Place<'_>,
    case: Result<Case, Unread>,
) -> io::Result<bool> {
    let Ok(case) = case else {
        eprintln!(rt; "{}:{}: the case cannot be read", place.file, place.line)?;
        return Ok(false);
    };
    let Ok(ran) = run_case(rt.alloc(), &case) else {
        eprintln!(rt; "{}:{}: the case cannot be run", place.file, place.line)?;
        return Ok(false);
    };
    let right = is_right(&case, &ran);
    if !right {
        explain(rt, place, &case, &ran)?;
    }
    Ok(right)
}

/// Reads a case of one line after the lines that it starts from.
fn row_case(alloc: Global, start: &str, row: &str) -> Result<Case, Unread> {
    let mut case = Case::new(alloc)?;
    case.read_lines(start)?;
    case.read_row(row)?;
    Ok(case)
}

/// Reads a case of several lines after those that it starts from.
fn block_case(alloc: Global, start: &str, block: &str) -> Result<Case, Unread> {
    let mut case = Case::new(alloc)?;
    case.read_lines(start)?;
    case.read_lines(block)?;
    Ok(case)
}

/// Whether the line is a case of its own.
fn is_row(line: &str) -> bool {
    line.contains(" => ") || line.contains(" ; ") || line.starts_with(":ask ")
}

/// Checks a block of cases of one line each. Lines that begin with `# ` are comments.
fn check_rows(
    rt: &(impl Eprint + AllocGlobal),
    place: Place<'_>,
    start: &str,
    block: &str,
    tally: &mut Tally,
) -> io::Result<()> {
    let mut place = place;
    for row in block.lines() {
        if !row.starts_with("# ") {
            tally.count(check(rt, place, row_case(rt.alloc(), start, row))?);
        }
        place.line = place.line.saturating_add(1);
    }
    Ok(())
}

/// Checks the cases of a text. Blocks are separated by empty lines. One that begins with `:start`
/// has the lines that each case after it starts from. Each line of a block is a case, if one of
/// them is; else the block is one.
pub(crate) fn check_text(
    rt: &(impl Eprint + AllocGlobal),
    file: &str,
    text: &str,
) -> io::Result<Tally> {
    let mut tally = Tally { cases: 0, wrong: 0 };
    let mut start = String::new(rt.alloc());
    let mut place = Place { file, line: 1 };
    for block in text.trim_end().split("\n\n") {
        if let Some(lines) = block.strip_prefix(":start") {
            start = String::from_str(rt.alloc(), lines.trim_start())?;
        } else if block.lines().any(|line| is_row(line)) {
            check_rows(rt, place, start.as_str(), block, &mut tally)?;
        } else {
            let case = block_case(rt.alloc(), start.as_str(), block);
            tally.count(check(rt, place, case)?);
        }
        let lines = block.lines().count() as u64;
        place.line = place.line.saturating_add(lines).saturating_add(1);
    }
    Ok(tally)
}
