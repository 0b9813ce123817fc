//! Laws: which files a node loads, and that it loads what a save writes, slot for slot.

ghost use Rattle.std.specs.Prelude.{◌≡◌, Option, None, IfSome};
ghost use Rattle.asmap_vm.specs.Asmap.{Asmap, IsAsmap};
ghost use Rattle.node_check.specs.Laws.{IsLoadable, IsReadable, Loads, LoadsAsSaved, sound_code};
ghost use Rattle.node_check.specs.Loading.{load_code, loaded};
ghost use Rattle.peer_rec.specs.Snapshot.{Snapshot};
ghost use Rattle.placing.specs.declared.sum.SumRule.{SumRule};
ghost use Rattle.table_machine.specs.Restoring.{duplicate};
ghost use Rattle.table_machine.specs.Sound.{IsSound};
ghost use Rattle.table_machine.specs.State.{State};

/// Of a file that has no fault and no valid peer twice, the tables of a node fail no test but two,
/// whatever its asmap is: -1 if a tried record in them has no success, else -16 if the key is zero.
/// So a node loads it if its key is not zero and its tried records have a success each.
pub fn readable_files_load()
    ensures code { (snap : Snapshot) (map : Option Asmap) (rule : SumRule) → IsReadable snap →
        duplicate snap ≡ None → IfSome map IsAsmap →
        load_code snap map rule ≡ sound_code (loaded snap map rule) }
    ensures loads { (snap : Snapshot) → IsReadable snap → duplicate snap ≡ None →
        IsLoadable snap → Loads snap }
{}

/// What a save writes of sound tables is loaded by a node, if the key is not zero and each tried
/// record has a success; with the asmap of the save, each slot then has the record that it had.
pub fn saves_load()
    ensures { (st : State) → IsSound st → LoadsAsSaved st }
{}
