//! `put_row`: the runs of one mark in a row (`M..h..v1h-..z`).

ghost use Rattle.std.specs.Prelude.{◌≡◌, ◌<◌, ◌≤◌, ◌+◌, ◌^◌, ◌++◌, length, drop, OnOk, IfOk, get_or};
ghost use Rattle.dot_runs.specs.Runs.{leading, row_text, run_text, rect_text, run};

use crate::Memory;
use net_addr::{put_number, put_text};

/// Appends the rectangles of one mark in a row of marks, whose first is at `x` and `y`: one for
/// each longest run of this mark.
pub fn put_row(marks: &[u8], mark: u8, x: u32, y: u32, out: &mut Vec<u8>) -> Result<(), Memory>
    requires { x + length marks.now < 2 ^ 32 }
    ensures { OnOk result (out.new.items ≡ out.old.items ++ row_text mark x y marks.now) }
{
    let mut rest = marks;
    let mut at = x;
    while !rest.is_empty() {
        let wide = put_first(rest, mark, at, y, out)?;
        at += wide as u32;
        rest = &rest[wide..];
    }
    Ok(())
}

/// Appends the rectangle of the first run if it is of this mark, and returns how wide the run is.
#[tactic(auto, using(crate::proofs::Runs::first_drawn))]
fn put_first(row: &[u8], mark: u8, x: u32, y: u32, out: &mut Vec<u8>) -> Result<usize, Memory>
    requires some { 0 < length row.now }
    requires room { x + length row.now < 2 ^ 32 }
    ensures some { IfOk result (λ wide. 0 < wide) }
    ensures within { IfOk result (λ wide. wide ≤ length row.now) }
    ensures drawn { IfOk result (λ wide.
        out.new.items ++ row_text mark (x + wide) y (drop wide row.now)
        ≡ out.old.items ++ row_text mark x y row.now) }
{
    let wide = first_run(row);
    put_run(row[0], mark, x, y, wide as u32, out)?;
    Ok(wide)
}

/// Returns how many marks at the start are equal.
#[tactic(auto, using(crate::proofs::Runs::run_some))]
fn first_run(row: &[u8]) -> usize
    requires { 0 < length row.now }
    ensures is { result ≡ leading (get_or row.now 0 0) row.now }
    ensures some { 0 < result }
    ensures within { result ≤ length row.now }
{
    let mark = row[0];
    let mut rest = row;
    let mut count = 0;
    while let [first, after @ ..] = rest {
        if *first != mark {
            return count;
        }
        count += 1;
        rest = after;
    }
    count
}

/// Appends the rectangle of a run if it is of this mark.
fn put_run(of: u8, mark: u8, x: u32, y: u32, wide: u32, out: &mut Vec<u8>) -> Result<(), Memory>
    ensures { OnOk result (out.new.items ≡ out.old.items ++ run_text mark y (run of x wide)) }
{
    if of == mark {
        return put_rect(x, y, wide, out);
    }
    Ok(())
}

/// Appends a rectangle that is one dot high.
fn put_rect(x: u32, y: u32, wide: u32, out: &mut Vec<u8>) -> Result<(), Memory>
    ensures { OnOk result (out.new.items ≡ out.old.items ++ rect_text x y wide) }
{
    put_number(b"M", u64::from(x), out)?;
    put_number(b" ", u64::from(y), out)?;
    put_number(b"h", u64::from(wide), out)?;
    put_number(b"v1h-", u64::from(wide), out)?;
    put_text(b"z", out)
}
