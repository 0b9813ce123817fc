//! `decompile` into a `Table`, and `fits_table`.

ghost use Rattle.std.specs.Prelude.{◌≡◌, ℕ, ◌⊎◌, ◌+◌, ◌^◌, ◌<◌, ◌≤◌, Bool, List, length, IfOk, IfErr, IsErrAnd, Err, true, false};
ghost use Rattle.bit_code.specs.Coder.{number_of};
ghost use Rattle.asmap_vm.specs.Code.{meaning, asn_of};
ghost use Rattle.asmap_vm.specs.Held.{tree_held};
ghost use Rattle.prefix_table.specs.Rows.{best};
ghost use Rattle.prefix_table.specs.declared.rows.TheConstants.{MAX_ROWS};
ghost use Rattle.asmap_back.specs.Back.{rows_back};
ghost use Rattle.asmap_back.specs.Inside.{HasCause};

use crate::back_rows::BackRows;
use crate::fault::BackFault;
use asmap_vm::Sane;
use prefix_table::{MAX_ROWS, Row, Table};
use std::alloc::Global;

/// Turns an asmap back into a table, whose longest match gives each address the number that the
/// asmap gives. A prefix has a row where its number differs from that of the longest row above it.
pub fn decompile(alloc: Global, code: &Sane<'_>) -> Result<Table, BackFault>
    ensures rows { IfOk result (λ table. table ≡ rows_back (tree_held code.now)) }

    // The longest row gives every address the number of the tree.
    ensures best { IfOk result (λ table. (bits : List Bool) → length bits ≡ 128
        → best table (number_of bits) ≡ meaning (tree_held code.now) bits 0) }
    ensures asn { IfOk result (λ table. (address : ℕ) → address < 2 ^ 128
        → best table address ≡ asn_of (tree_held code.now) address) }

    // More rows than a table may have are refused, unless memory runs out, and nothing else is.
    ensures too_many { MAX_ROWS < length (rows_back (tree_held code.now)) → IsErrAnd result
        (λ fault. (fault ≡ BackFault.Memory) ⊎ (fault ≡ BackFault.TooMany (MAX_ROWS + 1))) }
    ensures cause { (rows : ℕ) → result ≡ Err (BackFault.TooMany rows)
        → (rows ≡ MAX_ROWS + 1) × (MAX_ROWS < length (rows_back (tree_held code.now))) }
{
    let rows = rows_of(alloc, code)?;
    match Table::from_rows(alloc, rows.as_slice())? {
        Some(table) => Ok(table),
        None => unreachable!(),
    }
}

/// Returns `true` if the rows of an asmap are no more than a table may have.
pub fn fits_table(code: &Sane<'_>) -> bool
    ensures few { result ≡ true → length (rows_back (tree_held code.now)) ≤ MAX_ROWS }
    ensures many { result ≡ false → MAX_ROWS < length (rows_back (tree_held code.now)) }

    // The longest row then gives every address the number of the tree.
    ensures best { result ≡ true → (bits : List Bool) → length bits ≡ 128
        → best (rows_back (tree_held code.now)) (number_of bits)
        ≡ meaning (tree_held code.now) bits 0 }
{
    let mut rows = BackRows::of(code);
    let mut count = 0;
    while let Some(_) = rows.next() {
        if count == MAX_ROWS {
            return false;
        }
        count += 1;
    }
    true
}

/// Returns the rows of an asmap. More rows than a table may have are refused before they take
/// memory.
fn rows_of(alloc: Global, code: &Sane<'_>) -> Result<Vec<Row>, BackFault>
    ensures found { IfOk result (λ rows. rows.items ≡ rows_back (tree_held code.now)) }
    ensures few { IfOk result (λ _. length (rows_back (tree_held code.now)) ≤ MAX_ROWS) }
    ensures cause { IfErr result (HasCause (rows_back (tree_held code.now))) }
{
    let mut left = BackRows::of(code);
    let mut rows = Vec::new(alloc);
    while let Some(row) = left.next() {
        if rows.len() >= MAX_ROWS {
            return Err(BackFault::TooMany {
                rows: MAX_ROWS as u32 + 1,
            });
        }
        rows.reserve(1)?;
        rows.push_reserved(row);
    }
    Ok(rows)
}
