//! `read_table` reads a whole text of at most `MAX_TEXT` (128 MiB) and finds its first fault.

ghost use Rattle.std.specs.Prelude.{◌≡◌, ◌≤◌, ◌⊎◌, List, length, IfOk, IfErr, IfSome, IfNone, IsErrAnd, MatchResult};
ghost use Rattle.prefix_table.specs.Text.{IsTableText, IsFault, HasNoTable};
ghost use Rattle.prefix_table.specs.declared.rows.Row.{Row};
ghost use Rattle.prefix_table.specs.declared.rows.TheConstants.{MAX_ASN, MAX_ROWS};
ghost use Rattle.prefix_table.specs.declared.fault.TableFault.{TableFault};
ghost use Rattle.prefix_table.specs.declared.fault.TableFault.TheVariants as faults;

use crate::in_order::rises;
use crate::repeats::first_repeat;
use crate::rows::{plain_rows, read_rows};
use crate::{Table, TableFault};
use std::alloc::{AllocError, Global};

/// The maximum number of bytes of the text of a table. This limit is our own.
pub const MAX_TEXT: usize = 134_217_728;

/// Reads the text of a table. Its rows may be in any order, among empty lines and comments. The
/// fault is that of the first line that has one, unless memory runs out.
pub fn read_table(alloc: Global, text: &[u8]) -> Result<Table, TableFault>
    requires { length text.now ≤ MAX_TEXT }
    ensures found { IfOk result (IsTableText text.now) }
    ensures cause { IfErr result (λ fault. (fault ≡ faults.Memory) ⊎ IsFault text.now fault) }
    // The text of a table is read as that table, unless memory runs out.
    ensures only { (rows : List Row) → IsTableText text.now rows
        → MatchResult result (λ table. table ≡ rows) (λ fault. fault ≡ faults.Memory) }
    // A text that has a fault is answered with that fault, unless memory runs out.
    ensures exact { (first : TableFault) → IsFault text.now first
        → IsErrAnd result (λ fault. (fault ≡ faults.Memory) ⊎ (fault ≡ first)) }
    ensures max_text { MAX_TEXT ≡ 134217728 }
    ensures max_rows { MAX_ROWS ≡ 2000000 }
    ensures max_asn { MAX_ASN ≡ 33521664 }
{
    match table_in(alloc, text)? {
        Some(table) => Ok(table),
        None => Err(first_fault(alloc, text)?),
    }
}

/// Returns the table of a text, or `None` if the text is not that of a table.
fn table_in(alloc: Global, text: &[u8]) -> Result<Option<Table>, AllocError>
    requires { length text.now ≤ MAX_TEXT }
    ensures found { IfOk result (λ read. IfSome read (IsTableText text.now)) }
    ensures none { IfOk result (λ read. IfNone read (HasNoTable text.now)) }
{
    let Some(mut rows) = plain_rows(alloc, text)? else {
        return Ok(None);
    };
    rows.sort_unstable();
    if !rises(rows.as_slice()) {
        return Ok(None);
    }
    Ok(Some(Table::of(rows)))
}

/// Returns the fault of the first line of the text that has one. It reads the text anew: the rows
/// of a table need no numbers of their lines, and a text with a fault does.
fn first_fault(alloc: Global, text: &[u8]) -> Result<TableFault, AllocError>
    requires size { length text.now ≤ MAX_TEXT }
    requires fault { HasNoTable text.now }
    ensures { IfOk result (IsFault text.now) }
{
    let mut reading = read_rows(alloc, text)?;
    reading.rows.sort_unstable();
    if let Some(line) = first_repeat(reading.rows.as_slice()) {
        return Ok(TableFault::Repeated { line });
    }
    match reading.fault {
        Some(fault) => Ok(fault),
        None => unreachable!(),
    }
}
