//! Checks each line `NAME ARGUMENTS -> ANSWER`, and counts (`Tally`).

use crate::fields::first_word;
use crate::unread::Unread;
use crate::values::Values;
use std::rt::{Env, Files};
use std::{env, fs, io};

/// How many calls there are, and how many of their answers are wrong.
#[derive(Clone, Copy)]
struct Tally {
    calls: u64,
    wrong: u64,
}

impl Tally {
    /// Counts a call.
    fn count(&mut self, is_right: bool) {
        self.calls = self.calls.saturating_add(1);
        if !is_right {
            self.wrong = self.wrong.saturating_add(1);
        }
    }
}

/// Whether the answer is the wanted one. If not, prints both.
fn is_right(
    rt: &impl Eprint,
    file: &str,
    line: u64,
    got: &Result<String, Unread>,
    want: &str,
) -> io::Result<bool> {
    match got {
        Ok(got) => {
            if got.as_str() == want {
                return Ok(true);
            }
            eprintln!(rt; "{file}:{line}: is {}, wanted {want}", got.as_str())?;
        }
        Err(fault) => eprintln!(rt; "{file}:{line}: {fault:?}")?,
    }
    Ok(false)
}

/// Makes the call of a line, `NAME ARGUMENTS -> ANSWER`, and returns whether its answer is right.
/// An empty line lets the values begin anew. Neither it nor a comment, which begins with `# `, is
/// a call.
fn check_line(
    rt: &(impl Eprint + AllocGlobal),
    values: &mut Values,
    file: &str,
    number: u64,
    line: &str,
) -> io::Result<Option<bool>> {
    if line.is_empty() {
        *values = Values::make(rt.alloc());
        return Ok(None);
    }
    if line.starts_with("# ") {
        return Ok(None);
    }
    let Some((call, want)) = line.split_once(" -> ") else {
        eprintln!(rt; "{file}:{number}: no call")?;
        return Ok(Some(false));
    };
    let (name, arguments) = first_word(call);
    let got = values.call(rt.alloc(), name, arguments);
    Ok(Some(is_right(rt, file, number, &got, want)?))
}

/// Makes the calls of a text, each block of them from the start. Blocks are separated by empty
/// lines.
fn check_text(
    rt: &(impl Eprint + AllocGlobal),
    values: &mut Values,
    file: &str,
    text: &str,
) -> io::Result<Tally> {
    let mut tally = Tally { calls: 0, wrong: 0 };
    let mut number = 0u64;
    for line in text.lines() {
        number = number.saturating_add(1);
        if let Some(is_right) = check_line(rt, values, file, number, line)? {
            tally.count(is_right);
        }
    }
    Ok(tally)
}

/// Checks the calls of a file, and prints a line for it. Returns how many answers are wrong.
fn check_file<R: Files + Print + Eprint + AllocGlobal>(
    rt: &R,
    values: &mut Values,
    file: &str,
) -> io::Result<u64> {
    let text = fs::read_to_string(rt, file)?;
    *values = Values::make(rt.alloc());
    let tally = check_text(rt, values, file, text.as_str())?;
    println!(rt; "{file}: {} calls, {} wrong", tally.calls, tally.wrong)?;
    Ok(tally.wrong)
}

/// Checks the files that the arguments name. Returns how many answers are wrong.
pub(crate) fn check_each<R: Env + Files + Print + Eprint + AllocGlobal>(
    rt: &R,
    values: &mut Values,
) -> io::Result<u64> {
    let mut wrong = 0u64;
    for word in env::args(rt)?.skip(1) {
        wrong = wrong.saturating_add(check_file(rt, values, word.as_str())?);
    }
    Ok(wrong)
}
