//! The law that the output of `raw` is read back as the slots and records of the tables.

ghost use Rattle.std.specs.Prelude.{ℕ, List};
ghost use Rattle.placing.specs.Places.{Places};
ghost use Rattle.table_groups.specs.View as tables;
ghost use Rattle.table_machine.specs.State.{State};
ghost use Rattle.raw_read.specs.Raw.{IsRaw};
ghost use Rattle.raw_read.specs.declared.raw.Raw.{Raw};
ghost use Rattle.raw_view.specs.Listed as listed;
ghost use Rattle.raw_laws.specs.Printed.{IsPrinted, raw_of};
ghost use Rattle.raw_laws.specs.Shown.{HaveSameSlots};

/// What `raw` printed of tables is a text of their slots and records, and by `read_raw` of no
/// others.
///
/// `read_raw` returns these slots and records or runs out of memory. The last success of a record
/// and the tries since are not in the text. An address of CJDNS outside of fc00::/8 is printed as
/// one of IPv6, so the law speaks of tables without such addresses.
pub fn raw_is_read_back()
    ensures { (st : State) (text : List ℕ) → IsPrinted st text → IsRaw text (raw_of st) }
{}

/// The view of what `raw` printed of tables has in each slot what these tables have there, as far
/// as it is printed; nothing is placed anew, under whatever asmap the text is read.
pub fn raw_is_shown()
    ensures { (places : Places) (st : State) (text : List ℕ) (raw : Raw) →
        IsPrinted st text → IsRaw text raw →
        HaveSameSlots (listed.view_of places raw) (tables.view_of st) }
{}
