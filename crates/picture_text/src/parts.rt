//! Which marks are the new table's and which the tried table's.

ghost use Rattle.std.specs.Prelude.{◌≡◌, ◌+◌, ◌≤◌, length, take, drop};
ghost use Rattle.picture_text.specs.Picture.{in_new, in_tried};
ghost use Rattle.slot_grid.specs.declared.sizes.TheConstants.{ALL_SLOTS, NEW_SLOTS, TRIED_SLOTS};

use slot_grid::NEW_SLOTS;

/// Returns the first marks.
fn first_ones(marks: &[u8], count: usize) -> &[u8]
    requires { count ≤ length marks.now }
    ensures is { result.now ≡ take count marks.now }
    ensures long { length result.now ≡ count }
{
    &marks[..count]
}

/// Returns those after the first ones.
fn others(marks: &[u8], count: usize) -> &[u8]
    requires { count ≤ length marks.now }
    ensures is { result.now ≡ drop count marks.now }
    ensures long { length result.now + count ≡ length marks.now }
{
    &marks[count..]
}

/// Returns the marks of the new table's slots.
#[tactic(auto, unfolding(crate::specs::Picture::in_new))]
pub(crate) fn new_marks(marks: &[u8]) -> &[u8]
    requires { length marks.now ≡ ALL_SLOTS }
    ensures is { result.now ≡ in_new marks.now }
    ensures long { length result.now ≡ NEW_SLOTS }
{
    first_ones(marks, NEW_SLOTS)
}

/// Returns the marks of the tried table's slots.
#[tactic(auto, unfolding(crate::specs::Picture::in_tried))]
pub(crate) fn tried_marks(marks: &[u8]) -> &[u8]
    requires { length marks.now ≡ ALL_SLOTS }
    ensures is { result.now ≡ in_tried marks.now }
    ensures long { length result.now ≡ TRIED_SLOTS }
{
    others(marks, NEW_SLOTS)
}
