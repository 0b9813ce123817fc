//! `read_prefixes`: a table of prefixes of any length.

ghost use Rattle.std.specs.Prelude.{◌≡◌, ◌⊎◌, ◌<◌, ◌≤◌, Err, IfOk, IfErr, length};
ghost use Rattle.prefix_table.specs.Text.{IsTableText, IsFault};
ghost use Rattle.prefix_table.specs.declared.read.TheConstants.{MAX_TEXT};

use prefix_table::{MAX_TEXT, Table, TableFault, read_table};
use std::alloc::Global;

/// Reads the text of a table of prefixes, however long it is (`prefix_table::read_table`).
pub fn read_prefixes(alloc: Global, text: &[u8]) -> Result<Table, TableFault>
    ensures found { IfOk result (IsTableText text.now) }
    ensures too_large { MAX_TEXT < length text.now →
        result ≡ Err (TableFault.TooLarge (length text.now)) }
    ensures cause { length text.now ≤ MAX_TEXT → IfErr result (λ fault.
        (fault ≡ TableFault.Memory) ⊎ IsFault text.now fault) }
{
    if text.len() > MAX_TEXT {
        return Err(TableFault::TooLarge {
            size: text.len() as u64,
        });
    }
    read_table(alloc, text)
}
