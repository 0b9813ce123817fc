//! Laws: each record counts, and the groups add up and are all listed.

ghost use Rattle.std.specs.Prelude.{◌≡◌, ◌+◌, ◌==◌, ℕ, List, count_by, is_some, length, not};
ghost use Rattle.std.specs.List.{sum_by};
ghost use Rattle.peer_rec.specs.Rec.{is_tried};
ghost use Rattle.table_groups.specs.Groups.{rows_of};
ghost use Rattle.table_groups.specs.Slots.{new_slots};
ghost use Rattle.table_groups.specs.View.{View, view_of};
ghost use Rattle.table_machine.specs.State.{State};
ghost use Rattle.node_json.specs.Groups.{ListsGroups, ListsSlots};

/// The row of all networks counts every record, also one whose address is not routable.
pub fn every_record_counts()
    ensures { (view : View) → count_by (λ r. not (is_tried r)) view.records
        + count_by is_tried view.records ≡ length view.records }
{}

/// The slots of the new table and the records of the tried one of all groups are all of them, if
/// the records in the slots are listed, as those of a node's tables are.
pub fn groups_add_up()
    ensures views { (view : View) → ListsSlots view →
        sum_by (λ row. row.numbers.slots + row.numbers.tried) (rows_of view)
        ≡ new_slots is_some view + count_by is_tried view.records }
    ensures tables { (st : State) →
        sum_by (λ row. row.numbers.slots + row.numbers.tried) (rows_of (view_of st))
        ≡ new_slots is_some (view_of st) + count_by is_tried st.records }
{}

/// The groups of the text are those of the sources in the records of the new table and of the peers
/// in those of the tried one, each once.
///
/// The text has one object for each of these groups, and no other object.
pub fn groups_are_listed()
    ensures { (view : View) → ListsGroups view }
{}

/// Of the records that an asmap can map, those without an AS number and those with one are all.
pub fn numbers_add_up()
    ensures { (numbers : List ℕ) → count_by (λ n. n == 0) numbers
        + count_by (λ n. not (n == 0)) numbers ≡ length numbers }
{}
