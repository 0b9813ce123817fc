//! `ChangedPrefix`, a prefix with its old and its new AS number; and `difference`.

ghost use Rattle.std.specs.Prelude.{◌≡◌, ◌⊎◌, ◌+◌, ◌<◌, ◌≤◌, ◌^◌, Bool, true, false, length, IfOk, IsErrAnd, Err};
ghost use Rattle.asmap_vm.specs.Held.{tree_held};
ghost use Rattle.prefix_table.specs.declared.rows.TheConstants.{MAX_ROWS};
ghost use Rattle.map_diff.specs.Diff.{map_of, differing, changed_prefixes};
ghost use Rattle.map_diff.specs.Text.{count_of};

use crate::cursor::cursor_at;
use crate::fault::DiffFault;
use crate::walk::{Maps, Prefix, put_pair};
use asmap_vm::Sane;
use bit_code::Bits;
use prefix_table::MAX_ROWS;
use std::alloc::Global;

/// A prefix of which two asmaps give all addresses the same two numbers, which differ.
#[derive(Clone, Copy, Debug, PartialEq, Eq)]
pub struct ChangedPrefix {
    /// The bits of the prefix as the high bits of an address; the others are zero.
    pub bits: u128,
    /// The number of bits of the prefix.
    pub len: u8,
    /// The number in the old asmap, or 0 for none.
    pub old: u32,
    /// The number in the new asmap, or 0 for none.
    pub new: u32,
}

/// Returns the largest prefixes on which both asmaps are constant and differ, in the order of their
/// bits. This is `diff` of contrib/asmap/asmap-tool.py in Bitcoin Core.
pub fn difference(
    alloc: Global,
    old: &Sane<'_>,
    new: &Sane<'_>,
) -> Result<Vec<ChangedPrefix>, DiffFault>
    ensures rows { IfOk result
        (λ rows. rows.items ≡ changed_prefixes (tree_held old.now) (tree_held new.now)) }

    // The addresses of the changes are those with two numbers.
    ensures counted { IfOk result (λ rows. count_of true rows.items + count_of false rows.items
        ≡ differing 128 (map_of (tree_held old.now)) (map_of (tree_held new.now))) }
    ensures few { IfOk result (λ rows. (ipv4 : Bool) → count_of ipv4 rows.items ≤ 2 ^ 128) }

    // More changes than a table may have rows are refused, unless memory runs out, and nothing else
    // is.
    ensures too_many { MAX_ROWS < length (changed_prefixes (tree_held old.now) (tree_held new.now))
        → IsErrAnd result (λ fault. (fault ≡ DiffFault.Memory) ⊎ (fault ≡ DiffFault.TooMany)) }
    ensures cause { result ≡ Err DiffFault.TooMany
        → MAX_ROWS < length (changed_prefixes (tree_held old.now) (tree_held new.now)) }
{
    let maps = Maps {
        old: Bits::of(old.code()),
        new: Bits::of(new.code()),
    };
    let whole = Prefix { bits: 0, len: 0 };
    let from = cursor_at(&maps.old, 0, 0);
    let to = cursor_at(&maps.new, 0, 0);
    let mut rows = Vec::new(alloc);
    let pair = maps.put_changes(whole, from, to, &mut rows)?;
    put_pair(&mut rows, whole, pair)?;
    if rows.len() > MAX_ROWS {
        return Err(DiffFault::TooMany);
    }
    Ok(rows)
}
