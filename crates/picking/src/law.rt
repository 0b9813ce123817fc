//! Laws of samples: at most the limit, only eligible records, and a number of words that suffices.

ghost use Rattle.std.specs.Prelude.{◌≡◌, ℕ, ◌≤◌, ◌*◌, List, ◌++◌, length, ◌≢◌};
ghost use Rattle.std.specs.List.{AllByRecursion};
ghost use Rattle.table_machine.specs.State.{State};
ghost use Rattle.table_machine.specs.Picks.{sample, sample_from};
ghost use Rattle.picking.specs.Announced.{IsAnnounced};

/// A sample has at most as many peers as are asked for, and at most that part of all records. Each
/// is the peer of a record of the tables whose class is asked for and that is not terrible.
pub fn samples_are_records()
    ensures most { (st : State) (most percent : ℕ) (classes words : List ℕ) (now : ℕ) →
        most ≢ 0 → length (sample st most percent classes words now).answer ≤ most }
    ensures part { (st : State) (most percent : ℕ) (classes words : List ℕ) (now : ℕ) →
        percent ≢ 0 →
        length (sample st most percent classes words now).answer * 100
        ≤ percent * length st.order }
    ensures records { (st : State) (most percent : ℕ) (classes words : List ℕ) (now : ℕ) →
        AllByRecursion (IsAnnounced st classes now)
        (sample st most percent classes words now).answer }
{}

/// A sample that has as many peers as it may have is the same whatever words come after.
pub fn words_suffice()
    ensures { (st : State) (classes : List ℕ) (now i left : ℕ) (words more : List ℕ) →
        length (sample_from st classes now i left words).answer ≡ left →
        sample_from st classes now i left (words ++ more)
        ≡ sample_from st classes now i left words }
{}
