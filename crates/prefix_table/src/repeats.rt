//! `first_repeat` finds the first line whose prefix an earlier line has.

ghost use Rattle.std.specs.Prelude.{◌≡◌, ℕ, ◌≤◌, IfSome, IfNone, MatchOption, min};
ghost use Rattle.prefix_table.specs.Numbered.{IsRepeatAt};

use crate::numbered::NumberedRow;

/// Returns the least line of a row whose prefix is that of the row before it.
pub(crate) fn first_repeat(rows: &[NumberedRow]) -> Option<u32>
    ensures found { IfSome result (λ n. (k : ℕ) × IsRepeatAt rows.now k n) }
    ensures least { IfSome result (λ n. (k m : ℕ) → IsRepeatAt rows.now k m → n ≤ m) }
    ensures none { IfNone result ((k m : ℕ) → IsRepeatAt rows.now k m → ⊥) }
{
    let mut first = None;
    for i in 1..rows.len() {
        if rows[i - 1].is_same_prefix(&rows[i]) {
            first = Some(earlier(first, rows[i].line));
        }
    }
    first
}

/// Returns the earlier of two lines, or `line` if there is only one.
fn earlier(first: Option<u32>, line: u32) -> u32
    ensures { MatchOption first (result ≡ line) (λ known. result ≡ min known line) }
{
    match first {
        Some(known) => known.min(line),
        None => line,
    }
}
