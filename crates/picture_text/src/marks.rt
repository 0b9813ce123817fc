//! `group_mark` is 1 to 6 for a listed group and 7 for the others. Also counts the slots that have
//! a mark.

ghost use Rattle.std.specs.Prelude.{◌≡◌, ◌≤◌, ◌<◌, length, if◌then◌else◌};
ghost use Rattle.picture_text.specs.Marks.{buckets_of, dots_of, group_mark, has_mark, in_bucket};
ghost use Rattle.slot_grid.specs.declared.sizes.TheConstants.{ALL_SLOTS, NEW_BUCKETS};

use slot_grid::{NEW_BUCKETS, SLOTS};
use table_groups::{Group, Source};

/// Returns the mark of a group: its position in the list, counted from 1, and 7 if it is not there.
pub fn group_mark(listed: &[Source], group: &Group) -> u8
    requires { length listed.now ≤ 6 }
    ensures { result ≡ group_mark 1 group.now.items listed.now }
{
    let mut rest = listed;
    let mut mark = 1;
    while let [first, after @ ..] = rest {
        if first.group.as_slice() == group.as_slice() {
            return mark;
        }
        mark += 1;
        rest = after;
    }
    7
}

/// Returns how many slots have the mark.
pub(crate) fn dots_of(marks: &[u8], mark: u8) -> u32
    requires { length marks.now ≤ ALL_SLOTS }
    ensures value { result ≡ dots_of marks.now mark }
    ensures few { result ≤ length marks.now }
{
    let mut count = 0;
    for next in marks {
        if *next == mark {
            count += 1;
        }
    }
    count
}

/// Returns the marks of the slots of a bucket of the new table.
fn in_bucket(marks: &[u8], bucket: u16) -> &[u8]
    requires all { length marks.now ≡ ALL_SLOTS }
    requires bucket { bucket < NEW_BUCKETS }
    ensures { result.now ≡ in_bucket marks.now bucket }
{
    let start = usize::from(SLOTS) * usize::from(bucket);
    &marks[start..][..usize::from(SLOTS)]
}

/// Returns `true` if a slot has the mark.
fn has_mark(marks: &[u8], mark: u8) -> bool
    ensures { result ≡ has_mark marks.now mark }
{
    let mut rest = marks;
    while let [first, after @ ..] = rest {
        if *first == mark {
            return true;
        }
        rest = after;
    }
    false
}

/// Returns 1 if a slot has the mark, and 0 if none has.
fn one_if_marked(marks: &[u8], mark: u8) -> u32
    ensures is { result ≡ (if has_mark marks.now mark then 1 else 0) }
    ensures few { result ≤ 1 }
{
    if has_mark(marks, mark) { 1 } else { 0 }
}

/// Returns how many buckets of the new table have a slot with the mark.
#[tactic(auto, unfolding(crate::specs::Marks::buckets_of))]
pub(crate) fn buckets_of(marks: &[u8], mark: u8) -> u32
    requires { length marks.now ≡ ALL_SLOTS }
    ensures { result ≡ buckets_of marks.now mark }
{
    let mut count = 0;
    for bucket in 0..NEW_BUCKETS {
        count += one_if_marked(in_bucket(marks, bucket), mark);
    }
    count
}
