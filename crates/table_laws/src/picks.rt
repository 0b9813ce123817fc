//! Laws that count rounds and picks: `gap`, and the residues that select a record.

ghost use Rattle.std.specs.List.{range_with_len};
ghost use Rattle.std.specs.Prelude.{List, Option, ℕ, ◌≡◌, Bool, ◌<◌, ◌*◌, true, false, Contains, find, filter, filter_map, count_by, sum_by};
ghost use Rattle.table_laws.specs.Chances.{accepting_words, leading_slots, picking_words, words_for};
ghost use Rattle.table_laws.specs.Rounds.{around, gap, holds};
ghost use Rattle.peer_rec.specs.Rec.{buckets_of, is_tried};
ghost use Rattle.peer_rec.specs.declared.rec.Rec.{Rec};
ghost use Rattle.placing.specs.Places.{new_slot, tried_bucket, tried_slot};
ghost use Rattle.table_machine.specs.Picks.{is_wanted};
ghost use Rattle.table_machine.specs.Sound.{IsSound};
ghost use Rattle.table_machine.specs.State.{State};

/// Of the n slots that a round may begin at, exactly `gap` lead to the slot.
///
/// This holds for any n, and whatever is in the slots.
pub fn rounds_are_counted()
    ensures { (at : ℕ → Option ℕ) (wanted picked : ℕ → Bool) (n slot : ℕ) → slot < n →
        holds wanted (at slot) ≡ true → holds picked (at slot) ≡ true →
        ((t : ℕ) → holds picked (at t) ≡ true → t ≡ slot) →
        count_by (λ start. holds picked (find wanted (filter_map at (around n start))))
        (range_with_len 0 n)
        ≡ gap (λ t. holds wanted (at t)) n slot }
{}

/// Of the triples of residues that the words of a round can have, so many select a record: for
/// each bucket of the record, as many starts as lead to its slot, times the words that accept it.
/// One of several records is selected by as many as all of them are together.
///
/// In `new` and `tried`, a round finds the record from its own slot and from the slots right before
/// it, going round, that have no candidate. By `some`, anybody's share of a round's triples is the
/// sum of these products over their records.
pub fn picks_are_counted()
    ensures new { (st : State) (nets : List ℕ) (now factor : ℕ) (r : Rec) → IsSound st →
        Contains st.records r → is_wanted nets r ≡ true →
        picking_words st true nets now factor r.number
        ≡ sum_by (λ b. leading_slots st true nets b (new_slot st.places r.peer b)) (buckets_of r)
        * accepting_words r now factor }
    ensures tried { (st : State) (nets : List ℕ) (now factor : ℕ) (r : Rec) → IsSound st →
        Contains st.records r → is_wanted nets r ≡ true → is_tried r ≡ true →
        picking_words st false nets now factor r.number
        ≡ leading_slots st false nets (tried_bucket st.places r.peer)
        (tried_slot st.places r.peer (tried_bucket st.places r.peer))
        * accepting_words r now factor }
    ensures some { (st : State) (in_new : Bool) (nets : List ℕ) (now factor : ℕ)
        (test : Rec → Bool) → IsSound st →
        words_for st in_new nets now factor test
        ≡ sum_by (λ r. picking_words st in_new nets now factor r.number) (filter test st.records) }
{}
