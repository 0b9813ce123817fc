//! `Maps`: two asmaps read side by side, where two sides with the same pair of numbers are joined.

ghost use Rattle.std.specs.Prelude.{◌≡◌, ℕ, ◌+◌, ◌-◌, ◌<◌, ◌^◌, Bool, false, List, ◌++◌, Some, None, length, IfOk, IfErr, IfSome, IfNone, OnOk};
ghost use Rattle.asmap_back.specs.Back.{first_at};
ghost use Rattle.prefix_table.specs.declared.rows.TheConstants.{MAX_ROWS};
ghost use Rattle.map_diff.specs.Diff.{Part, Same, unless_equal, changes_of, joined};
ghost use Rattle.map_diff.specs.Inside.{IsMap, AreMaps, part_at, rows_at, IsRead, is_one_pair, HasCause, Sides, AreSides};
ghost use Rattle.map_diff.specs.declared.changed.ChangedPrefix.{ChangedPrefix};
ghost use Rattle.map_diff.specs.declared.cursor.Cursor.TheVariants as Cursor;

use crate::changed::ChangedPrefix;
use crate::cursor::{Cursor, sides};
use crate::fault::DiffFault;
use bit_code::Bits;
use prefix_table::MAX_ROWS;

/// Two asmaps that are read side by side.
#[derive(Drop)]
pub(crate) struct Maps<'a> {
    pub old: Bits<'a>,
    pub new: Bits<'a>,
}

/// The prefix of the addresses that are read.
#[derive(Clone, Copy)]
pub(crate) struct Prefix {
    /// Its bits as the high bits of an address; the others are zero.
    pub bits: u128,
    /// The number of its bits.
    pub len: u8,
}

/// Two numbers that all addresses of a prefix have.
#[derive(Clone, Copy)]
pub(crate) struct Pair {
    /// The number in the old asmap.
    pub old: u32,
    /// The number in the new asmap.
    pub new: u32,
}

impl Prefix {
    /// Returns the prefixes with a zero-bit and with a one-bit more.
    fn sides(self) -> (Prefix, Prefix)
        requires len { self.len < 128 }
        requires room { self.bits + 2 ^ (127 - self.len) < 2 ^ 128 }
        ensures zero { result.0 ≡ record self { len = self.len + 1 } }
        ensures one { result.1
            ≡ record { bits = self.bits + 2 ^ (127 - self.len); len = self.len + 1 } }
    {
        let len = self.len + 1;
        let zero = Prefix { len, ..self };
        let bits = self.bits + (1 << (127 - self.len));
        (zero, Prefix { bits, len })
    }
}

/// Returns `true` if two sides are one pair.
fn is_one_pair(left: Option<Pair>, right: Option<Pair>) -> bool
    ensures { result ≡ is_one_pair left right }
{
    let Some(a) = left else {
        return false;
    };
    let Some(b) = right else {
        return false;
    };
    a.old == b.old && a.new == b.new
}

/// Returns the pair that all addresses have, if the two cursors say so.
fn pair_of(from: Cursor, to: Cursor) -> Option<Pair>
    ensures some { IfSome result
        (λ pair. (from ≡ Cursor.Fixed pair.old) × (to ≡ Cursor.Fixed pair.new)) }
    ensures none { IfNone result ((old_bits new_bits : List Bool) (n : ℕ) (f g : List Bool → ℕ)
        → IsMap old_bits n from f → IsMap new_bits n to g → 0 < n) }
{
    match from {
        Cursor::Fixed(old) => match to {
            Cursor::Fixed(new) => Some(Pair { old, new }),
            _ => None,
        },
        _ => None,
    }
}

/// Appends the change of a prefix, if its numbers differ. Rows that are too many are refused before
/// they take memory; up to 128 may still be taken back.
fn put_change(rows: &mut Vec<ChangedPrefix>, at: Prefix, pair: Pair) -> Result<(), DiffFault>
    ensures put { OnOk result ((p : List Bool) → length p ≡ at.len → first_at p ≡ at.bits
        → rows.new.items ≡ rows.old.items ++ rows_at p (unless_equal pair.old pair.new)) }
    ensures cause { IfErr result (HasCause rows.old.items (Same pair.old pair.new) 0) }
{
    if pair.old == pair.new {
        return Ok(());
    }
    if rows.len() >= MAX_ROWS + 128 {
        return Err(DiffFault::TooMany);
    }
    rows.reserve(1)?;
    rows.push_reserved(ChangedPrefix {
        bits: at.bits,
        len: at.len,
        old: pair.old,
        new: pair.new,
    });
    Ok(())
}

/// Appends the change of what was read of a prefix, if it is a pair. Else its changes were appended
/// already.
pub(crate) fn put_pair(
    rows: &mut Vec<ChangedPrefix>,
    at: Prefix,
    pair: Option<Pair>,
) -> Result<(), DiffFault>
    ensures put { OnOk result ((p : List Bool) (whole : Part) (rows_before : List ChangedPrefix)
        → length p ≡ at.len → first_at p ≡ at.bits
        → IsRead p whole rows_before rows.old.items pair
        → rows.new.items ≡ rows_before ++ rows_at p (changes_of whole)) }
    ensures cause { IfErr result (λ fault. (p : List Bool) (whole : Part)
        (rows_before : List ChangedPrefix) → IsRead p whole rows_before rows.old.items pair
        → HasCause rows_before whole 0 fault) }
{
    match pair {
        Some(pair) => put_change(rows, at, pair),
        None => Ok(()),
    }
}

/// Joins the two sides of a part, of which the left one was appended. If both are one pair, its
/// change is taken back, and the whole part is this pair.
fn join(
    rows: &mut Vec<ChangedPrefix>,
    before: usize,
    left: Option<Pair>,
    right: Option<Pair>,
    one: Prefix,
) -> Result<Option<Pair>, DiffFault>
    ensures found { IfOk result (λ pair. (s : Sides)
        → AreSides s rows.old.items before left right one
        → IsRead s.path (joined s.left s.right) s.rows rows.new.items pair) }
    ensures cause { IfErr result (λ fault. (s : Sides)
        → AreSides s rows.old.items before left right one
        → HasCause s.rows (joined s.left s.right) 0 fault) }
{
    if is_one_pair(left, right) {
        rows.truncate(before);
        return Ok(right);
    }
    put_pair(rows, one, right)?;
    Ok(None)
}

impl Maps<'_> {
    /// Reads the addresses of a prefix. If all have one pair of numbers, it is returned and nothing
    /// is appended; else their changes are appended.
    pub fn put_changes(
        &self,
        at: Prefix,
        from: Cursor,
        to: Cursor,
        rows: &mut Vec<ChangedPrefix>,
    ) -> Result<Option<Pair>, DiffFault>
        requires sizes { (length self.now.old < 2 ^ 32) × (length self.now.new < 2 ^ 32) }
        requires maps { (p : List Bool) × ((f : List Bool → ℕ) × ((g : List Bool → ℕ)
            × AreMaps self.now.old self.now.new at from to p f g)) }
        ensures found { IfOk result (λ pair. (p : List Bool) (f g : List Bool → ℕ)
            → AreMaps self.now.old self.now.new at from to p f g
            → IsRead p (part_at p f g) rows.old.items rows.new.items pair) }
        ensures cause { IfErr result (λ fault. (p : List Bool) (f g : List Bool → ℕ)
            → AreMaps self.now.old self.now.new at from to p f g
            → HasCause rows.old.items (part_at p f g) (128 - length p) fault) }
    {
        if let Some(pair) = pair_of(from, to) {
            return Ok(Some(pair));
        }
        let before = rows.len();
        let (zero, one) = at.sides();
        let (from_zero, from_one) = sides(&self.old, from);
        let (to_zero, to_one) = sides(&self.new, to);
        let left = self.put_changes(zero, from_zero, to_zero, rows)?;
        put_pair(rows, zero, left)?;
        let right = self.put_changes(one, from_one, to_one, rows)?;
        join(rows, before, left, right, one)
    }
}
