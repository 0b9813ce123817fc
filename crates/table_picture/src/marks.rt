//! `marks_by`: the mark of each slot, by rising bucket.

ghost use Rattle.std.specs.Prelude.{◌≡◌, ◌<◌, ◌≤◌, ◌++◌, length, IfOk, OnOk, option_map};
ghost use Rattle.slot_grid.specs.declared.sizes.TheConstants.{ALL_SLOTS};
ghost use Rattle.table_machine.specs.Picks.{bucket_count};
ghost use Rattle.table_picture.specs.Marks.{bucket_marks, marks_by, rec_mark, table_marks};

use crate::Memory;
use peer_rec::Rec;
use picture_text::group_mark;
use placing::Placer;
use slot_grid::SLOTS;
use std::alloc::Global;
use std::sync::ledger::Ledger;
use steps::Steps;
use table_groups::{Source, TableView, bucket_count};

/// Returns the mark of a slot with this record.
fn rec_mark(placer: &Placer<'_>, listed: &[Source], rec: Option<&Rec>) -> u8
    requires { length listed.now ≤ 6 }
    ensures { result ≡ rec_mark placer.now listed.now (option_map (λ r. r.now) rec.entry) }
{
    match rec {
        Some(rec) => group_mark(listed, &placer.group(&rec.source)),
        None => 0,
    }
}

/// Appends the marks of the slots of a bucket.
fn put_bucket<T: TableView, L: Ledger>(
    tables: &T,
    listed: &[Source],
    in_new: bool,
    bucket: u16,
    out: &mut Vec<u8>,
    steps: &mut Steps<L>,
) -> Result<(), Memory>
    requires bucket { bucket < bucket_count in_new }
    requires few { length listed.now ≤ 6 }
    ensures { OnOk result (out.new.items
        ≡ out.old.items ++ bucket_marks (T.view tables.now) listed.now in_new bucket) }
{
    for slot in 0..SLOTS {
        let mark = rec_mark(
            tables.places(),
            listed,
            tables.occupant(in_new, bucket, slot, steps),
        );
        out.push(mark)?;
    }
    Ok(())
}

/// Appends the marks of the slots of a table.
#[tactic(auto, unfolding(crate::specs::Marks::table_marks))]
fn put_table<T: TableView, L: Ledger>(
    tables: &T,
    listed: &[Source],
    in_new: bool,
    out: &mut Vec<u8>,
    steps: &mut Steps<L>,
) -> Result<(), Memory>
    requires few { length listed.now ≤ 6 }
    ensures { OnOk result (out.new.items
        ≡ out.old.items ++ table_marks (T.view tables.now) listed.now in_new) }
{
    for bucket in 0..bucket_count(in_new) {
        put_bucket(tables, listed, in_new, bucket, out, steps)?;
    }
    Ok(())
}

/// Returns the marks of all slots, by rising bucket, those of the new table first: 0 is a free
/// slot, 1 to 6 the listed group at this position, counted from 1, that the source of its record is
/// in, and 7 any other group.
#[tactic(auto, unfolding(crate::specs::Marks::marks_by))]
pub(crate) fn marks_by<T: TableView, L: Ledger>(
    alloc: Global,
    tables: &T,
    listed: &[Source],
    steps: &mut Steps<L>,
) -> Result<Vec<u8>, Memory>
    requires few { length listed.now ≤ 6 }
    ensures marks { IfOk result (λ marks. marks.items ≡ marks_by (T.view tables.now) listed.now) }
    ensures long { IfOk result (λ marks. length marks.items ≡ ALL_SLOTS) }
{
    let mut marks = Vec::new(alloc);
    put_table(tables, listed, true, &mut marks, steps)?;
    put_table(tables, listed, false, &mut marks, steps)?;
    Ok(marks)
}
