//! Laws: a record is lost only with a cause, by an entry, an opening or a restart.

ghost use Rattle.std.specs.Prelude.{ℕ, Bool, All, length, ◌<◌};
ghost use Rattle.table_laws.specs.Losses.{KeepsByEntry, KeepsBySuccess};
ghost use Rattle.net_addr.specs.Address.{Address};
ghost use Rattle.net_addr.specs.declared.peer.Entry.{Entry};
ghost use Rattle.net_addr.specs.declared.peer.Peer.{Peer};
ghost use Rattle.table_machine.specs.Sound.{IsSound};
ghost use Rattle.table_machine.specs.State.{State};
ghost use Rattle.table_laws.specs.Openings.{KeepsAtOpening, KeepsOverOpening};
ghost use Rattle.peer_rec.specs.Snapshot.{Snapshot};
ghost use Rattle.placing.specs.Places.{IsPlaces, Places};
ghost use Rattle.table_laws.specs.Restarts.{KeepsOverRestart};

/// An entry of a message keeps each record, but for a terrible one whose last slot it takes. A
/// success keeps each record, but for one whose last slot a record of the tried table goes back to.
///
/// The record that an entry loses is terrible, and the peer of the entry takes its one slot. The
/// record that a success loses is in the one slot to which a record of the tried table, which the
/// success displaces, goes back.
pub fn losses_have_causes()
    ensures entry { (st : State) (now : ℕ) (entry : Entry) (source : Address) (penalty word : ℕ) →
        IsSound st → KeepsByEntry st now entry source penalty word }
    ensures success { (st : State) (now : ℕ) (peer : Peer) (testing : Bool) →
        IsSound st → KeepsBySuccess st now peer testing }
{}

/// Whatever file is opened, under whatever key and asmap: it loses a record only if its address is
/// not valid, no bucket of the file lists it, or others are in its slots, and it makes none. Of
/// saved tables it loses one only if others are in its slots.
///
/// `tables`, of saved tables under another asmap or key: each record's peer is there, or a record
/// is at its slot, of the new table in the bucket of its source or of the tried table; there are as
/// many records as before, less those whose peers are gone. `file`, of any file whose buckets list
/// only records that it has, as every file that is read does: a new record is there under its index
/// and in a bucket, or its address is not valid, or no bucket of the file lists it, or in each
/// bucket that may take it another one is at its slot (`new`). A tried one is there, or its address
/// is not valid, or one is at its slot (`tried`). Nothing is made (`only`), and without duplicates
/// the counts agree if the tables are sound (`count`).
pub fn openings_lose_with_causes()
    ensures file { (snap : Snapshot) (places : Places) →
        All (λ pair. pair.1 < length snap.new_recs) snap.listed → KeepsAtOpening snap places }
    ensures tables { (st : State) (places : Places) → IsSound st → IsPlaces places →
        KeepsOverOpening st places }
{}

/// A restart loses no record and leaves each in its slots, so as many words select it as before,
/// but for the marks of tries that it does not keep.
///
/// No record is lost and none is made (`count`, `all`, `only`). Each is in its slots as before
/// (`slots`), so a round finds it from as many slots (`leading`). A record has another number, and
/// 0 as the times of its last try and of the last one that counted. So one that was last tried at
/// least ten minutes ago is selected by as many residues as before (`picks`), and one that was last
/// tried more than a minute ago may be in a sample exactly if it might be before (`eligible`).
/// Collisions are gone, the order of samples is by number, and the last success of any peer has the
/// time 1.
pub fn restarts_keep_records()
    ensures { (st : State) → IsSound st → KeepsOverRestart st }
{}
