//! The law that picks of some records are bounded by the starts that lead to them.

ghost use Rattle.std.specs.List.{range_with_len};
ghost use Rattle.std.specs.Prelude.{ℕ, Bool, true, false, List, ◌≡◌, ◌≤◌, ◌*◌, ◌^◌, Contains, count_by, filter, length, sum_by};
ghost use Rattle.table_laws.specs.Chances.{accepting_words, picking_words, words_for};
ghost use Rattle.table_laws.specs.Odds.{leading_starts, most_slots};
ghost use Rattle.table_laws.specs.Rounds.{holds};
ghost use Rattle.peer_rec.specs.Rec.{buckets_of, is_tried};
ghost use Rattle.peer_rec.specs.declared.rec.Rec.{Rec};
ghost use Rattle.slot_grid.specs.declared.sizes.TheConstants.{SLOTS};
ghost use Rattle.table_machine.specs.Picks.{is_wanted, occupant_at};
ghost use Rattle.table_machine.specs.Sound.{IsSound};
ghost use Rattle.table_machine.specs.State.{State};

/// Records that pass a test, somebody's say, are selected by at most as many triples of residues as
/// the starts that lead to their slots give. They have one slot of a bucket each at most, and eight
/// buckets of the new table. And whatever else is in the tables, a record is selected from each of
/// its own slots.
///
/// `least_new` and `least_tried`: at least as many triples select a record as it has slots in the
/// table, times the residues that accept it. `gaps`: at most as many select one of n records as the
/// starts that lead to their slots give, each with all 2^30 residues of the third word. They have
/// at most n slots of a bucket (`slots`), so at most 8 n in 1024 of a round's triples in the new
/// table and n in 256 in the tried one (`peers`). No law bounds by groups how many of a bucket's 64
/// slots are theirs: a group has more addresses and ports than that.
pub fn odds_are_bounded()
    ensures gaps { (st : State) (in_new : Bool) (nets : List ℕ) (now factor : ℕ)
        (test : Rec → Bool) → IsSound st →
        words_for st in_new nets now factor test
        ≤ sum_by (leading_starts st in_new nets) (filter test st.records) * 2 ^ 30 }
    ensures peers { (st : State) (in_new : Bool) (nets : List ℕ) (now factor : ℕ)
        (test : Rec → Bool) → IsSound st →
        words_for st in_new nets now factor test
        ≤ most_slots in_new * length (filter test st.records) * (SLOTS * 2 ^ 30) }
    ensures slots { (st : State) (in_new : Bool) (bucket : ℕ) (test : Rec → Bool) →
        count_by (λ slot. holds test (occupant_at st in_new bucket slot)) (range_with_len 0 SLOTS)
        ≤ length (filter test st.records) }
    ensures least_new { (st : State) (nets : List ℕ) (now factor : ℕ) (r : Rec) → IsSound st →
        Contains st.records r → is_wanted nets r ≡ true →
        length (buckets_of r) * accepting_words r now factor
        ≤ picking_words st true nets now factor r.number }
    ensures least_tried { (st : State) (nets : List ℕ) (now factor : ℕ) (r : Rec) → IsSound st →
        Contains st.records r → is_wanted nets r ≡ true → is_tried r ≡ true →
        accepting_words r now factor ≤ picking_words st false nets now factor r.number }
{}
