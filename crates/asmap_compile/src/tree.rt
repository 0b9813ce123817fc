//! `put_tree`, the recursion over paths that writes the code.

ghost use Rattle.std.specs.Prelude.{◌≡◌, ℕ, ◌+◌, ◌-◌, ◌<◌, Bool, List, ◌++◌, OnOk};
ghost use Rattle.asmap_vm.specs.Code.{code};
ghost use Rattle.prefix_table.specs.declared.rows.Row.{Row};
ghost use Rattle.asmap_compile.specs.Compiled.{rows_kept, tree_at};
ghost use Rattle.asmap_compile.specs.Inside.{IsPart};

use crate::instructions::{put_default, put_jump, put_matches, put_return};
use crate::part::{bit_of, longer_rows, middle_of, number_of_path};
use bit_code::{BitFront, Memory};
use prefix_table::{Row, common_bits};

/// Puts the code of the tree of a path before the bits that are there. All rows of the part begin
/// with the path, of `depth` bits; `above` is the number of the path without its last bit.
pub(crate) fn put_tree(
    out: &mut BitFront,
    part: &[Row],
    depth: u8,
    above: u32,
    default: u32,
) -> Result<(), Memory>
    requires { (table : List Row) × ((p : List Bool) × ((left : ℕ)
        × IsPart table p left part.now depth above default)) }
    ensures { (table : List Row) (p : List Bool) (left : ℕ)
        → IsPart table p left part.now depth above default
        → OnOk result (out.new ≡ code (tree_at left (rows_kept table) p default) ++ out.old) }
{
    let number = number_of_path(part, depth, above);
    let rows = longer_rows(part, depth);
    if rows.is_empty() {
        return put_return(out, number);
    }
    let first = rows[0];
    let last = rows[rows.len() - 1];
    if bit_of(first.bits, depth) != bit_of(last.bits, depth) {
        let middle = middle_of(rows, depth);
        put_tree(out, &rows[middle..], depth + 1, number, default)?;
        let after = out.len();
        put_tree(out, &rows[..middle], depth + 1, number, default)?;
        let over = out.len() - after;
        return put_jump(out, over as u32);
    }
    let stop = first.len.min(common_bits(first.bits, last.bits));
    put_tree(out, rows, stop, number, number)?;
    put_matches(out, first.bits, depth, stop)?;
    if number == default {
        return Ok(());
    }
    put_default(out, number)
}
