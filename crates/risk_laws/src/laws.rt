//! Laws: of all lists of random words, how many end at a peer of a set, exactly and as a bound.

ghost use Rattle.std.specs.Prelude.{◌≡◌, ℕ, ◌+◌, ◌*◌, ◌^◌, ◌<◌, List, Bool, true, false, ◌≤◌, not, ◌||◌, ◌==◌};
ghost use Rattle.net_addr.specs.declared.peer.Peer.{Peer};
ghost use Rattle.slot_grid.specs.declared.sizes.TheConstants.{SLOTS};
ghost use Rattle.table_laws.specs.Chances.{words_for};
ghost use Rattle.table_laws.specs.Searches.{idle_rounds, refusing_rounds, all_lists, ending_at};
ghost use Rattle.peer_rec.specs.Rec.{next_factor};
ghost use Rattle.table_machine.specs.Picks.{bucket_count, first_factor, wanted_new, wanted_tried};
ghost use Rattle.table_machine.specs.State.{State};
ghost use Rattle.risk_laws.specs.Lists.{searching_lists, selecting_lists, word_lists};
ghost use Rattle.peer_rec.specs.declared.rec.Rec.{Rec};
ghost use Rattle.table_machine.specs.Sound.{IsSound};
ghost use Rattle.risk_laws.specs.Enclosures.{most_of};
ghost use Rattle.risk_laws.specs.Classes.{kinds_of, bound_of};
ghost use Rattle.risk_sum.specs.Kinds.{AreKinds, most_by, refused_by, starts_of, taken_by};

/// Of the lists of n random words of 64 bits, so many end a search of one table at a peer of a set.
/// With fewer than three words none do. Of the rounds by the first three words, some select a peer
/// of the set, whatever the other words are. Some refuse their candidate; then the others go on
/// with the factor grown. Those that have no candidate do not use up the third word. A pick from
/// both tables is a search of one or the other, by its first word.
///
/// In `more`, the n + 3 words of a list are those of its first round and n others; after a round
/// without a candidate they are n + 1 others, the third word among them. A pick from both tables
/// searches each for half of the lists (`either`), of which there are (2^64)^n (`all`). With fewer
/// than three words no list counts (`few`).
pub fn lists_are_counted()
    ensures few { (st : State) (in_new : Bool) (nets : List ℕ) (now factor n : ℕ)
        (theirs : Peer → Bool) → n < 3 → searching_lists st in_new nets now theirs factor n ≡ 0 }
    ensures more { (st : State) (in_new : Bool) (nets : List ℕ) (now factor n : ℕ)
        (theirs : Peer → Bool) →
        searching_lists st in_new nets now theirs factor (n + 3)
        * (bucket_count in_new * (SLOTS * 2 ^ 30))
        ≡ 2 ^ 64 * 2 ^ 64
        * (2 ^ 64 * (words_for st in_new nets now factor (λ r. theirs r.peer) * word_lists n
        + refusing_rounds st in_new nets now factor
        * searching_lists st in_new nets now theirs (next_factor factor) n)
        + idle_rounds st in_new nets * searching_lists st in_new nets now theirs factor (n + 1)) }
    ensures either { (st : State) (nets : List ℕ) (now n : ℕ) (theirs : Peer → Bool) →
        0 < wanted_new st nets → 0 < wanted_tried st nets →
        selecting_lists st false nets now theirs (n + 1)
        ≡ 2 ^ 63 * (searching_lists st true nets now theirs first_factor n
        + searching_lists st false nets now theirs first_factor n) }
    ensures all { (n : ℕ) → word_lists n ≡ (2 ^ 64) ^ n }
{}

/// Of the lists of n rounds, for each n, at most this part ends a search of one table at a record
/// that passes the test. At least this part does: that of the searches that end at some record,
/// without what ends at most at those that fail it. Of the rounds `busy` have a candidate.
///
/// What ends at records of a set is also at least what the rest leaves of the searches that end
/// (`least`). This counts n rounds and not n words.
pub fn shares_are_enclosed()
    ensures most { (st : State) (in_new : Bool) (nets : List ℕ)
        (now unit busy ahead n factor : ℕ) (test : Rec → Bool) → IsSound st → 0 < busy →
        busy + idle_rounds st in_new nets ≡ bucket_count in_new * (SLOTS * 2 ^ 30) →
        ending_at st in_new nets now factor test n * unit
        ≤ all_lists in_new n * most_of st in_new nets now test busy unit ahead factor }
    ensures least { (st : State) (in_new : Bool) (nets : List ℕ)
        (now unit busy ahead n factor : ℕ) (test : Rec → Bool) → IsSound st → 0 < busy →
        busy + idle_rounds st in_new nets ≡ bucket_count in_new * (SLOTS * 2 ^ 30) →
        ending_at st in_new nets now factor (λ r. true) n * unit
        ≤ ending_at st in_new nets now factor test n * unit
        + all_lists in_new n
        * most_of st in_new nets now (λ r. not (test r)) busy unit ahead factor }
{}

/// Of the lists of n random words of 64 bits, for each n, at most this part selects a peer of a
/// set: in a search of one table, and in a pick from both, from the new table only, and from the
/// tried table only. Of the rounds of a table, `busy`, `new` or `tried` have a candidate.
pub fn picks_are_enclosed()
    ensures search { (st : State) (in_new : Bool) (nets : List ℕ)
        (now unit busy ahead n factor : ℕ) (theirs : Peer → Bool) → IsSound st → 0 < busy →
        busy + idle_rounds st in_new nets ≡ bucket_count in_new * (SLOTS * 2 ^ 30) →
        searching_lists st in_new nets now theirs factor n * unit
        ≤ word_lists n * most_of st in_new nets now (λ r. theirs r.peer) busy unit ahead factor }
    ensures either { (st : State) (nets : List ℕ) (now unit new tried ahead n : ℕ)
        (theirs : Peer → Bool) → IsSound st → 0 < new → 0 < tried →
        new + idle_rounds st true nets ≡ bucket_count true * (SLOTS * 2 ^ 30) →
        tried + idle_rounds st false nets ≡ bucket_count false * (SLOTS * 2 ^ 30) →
        0 < wanted_new st nets → 0 < wanted_tried st nets →
        selecting_lists st false nets now theirs n * (2 * unit)
        ≤ word_lists n
        * (most_of st true nets now (λ r. theirs r.peer) new unit ahead first_factor
        + most_of st false nets now (λ r. theirs r.peer) tried unit ahead first_factor) }
    ensures new { (st : State) (new_only : Bool) (nets : List ℕ) (now unit new ahead n : ℕ)
        (theirs : Peer → Bool) → IsSound st → 0 < new →
        new + idle_rounds st true nets ≡ bucket_count true * (SLOTS * 2 ^ 30) →
        0 < wanted_new st nets → (new_only || wanted_tried st nets == 0) ≡ true →
        selecting_lists st new_only nets now theirs n * unit
        ≤ word_lists n
        * most_of st true nets now (λ r. theirs r.peer) new unit ahead first_factor }
    ensures tried { (st : State) (nets : List ℕ) (now unit tried ahead n : ℕ)
        (theirs : Peer → Bool) → IsSound st → 0 < tried →
        tried + idle_rounds st false nets ≡ bucket_count false * (SLOTS * 2 ^ 30) →
        wanted_new st nets ≡ 0 → 0 < wanted_tried st nets →
        selecting_lists st false nets now theirs n * unit
        ≤ word_lists n
        * most_of st false nets now (λ r. theirs r.peer) tried unit ahead first_factor }
{}

/// The rounds of a table need not be gone through: how many starts lead to records of each chance
/// tells how many rounds select records that pass a test, how many refuse their candidate, and how
/// many have one. So the bound of the rounds is that of these kinds.
///
/// There are 18 chances. From the counts of starts for each follow exactly the rounds that select a
/// record of the set (`taken`), that refuse their candidate (`refused`), and that have one
/// (`whole`), and so the bound (`bound`). They fit what `most` of `risk_sum` asks for if the table
/// has a candidate (`new`, `tried`).
pub fn kinds_are_enough()
    ensures taken { (st : State) (in_new : Bool) (nets : List ℕ) (now factor : ℕ)
        (test : Rec → Bool) → IsSound st →
        words_for st in_new nets now factor test
        ≡ taken_by (kinds_of st in_new nets now test) factor }
    ensures refused { (st : State) (in_new : Bool) (nets : List ℕ) (now factor : ℕ)
        (test : Rec → Bool) → IsSound st →
        refusing_rounds st in_new nets now factor
        ≡ refused_by (kinds_of st in_new nets now test) factor }
    ensures whole { (st : State) (in_new : Bool) (nets : List ℕ) (now : ℕ)
        (test : Rec → Bool) → IsSound st →
        starts_of (kinds_of st in_new nets now test) * 2 ^ 30 + idle_rounds st in_new nets
        ≡ bucket_count in_new * (SLOTS * 2 ^ 30) }
    ensures bound { (st : State) (in_new : Bool) (nets : List ℕ)
        (now busy left ahead factor : ℕ) (test : Rec → Bool) → IsSound st →
        most_of st in_new nets now test busy left ahead factor
        ≡ most_by (kinds_of st in_new nets now test) busy left ahead factor }
    ensures new { (st : State) (nets : List ℕ) (now : ℕ) (test : Rec → Bool) → IsSound st →
        0 < wanted_new st nets → AreKinds (kinds_of st true nets now test) }
    ensures tried { (st : State) (nets : List ℕ) (now : ℕ) (test : Rec → Bool) → IsSound st →
        0 < wanted_tried st nets → AreKinds (kinds_of st false nets now test) }
{}

/// Of the (2^64)^n lists of n random words, for every n, `select` returns a peer of a set for at
/// most this part, computed from how many starts lead to records of each chance: half of the bound
/// of each table if both have candidates, else the bound of the one that is searched.
///
/// The part is (U_new + U_tried) / (2 · unit) if both tables have candidates (`either`), and U /
/// unit of the table that is searched if only one has, or only the new one is asked for (`new`,
/// `tried`). U is `bound_of`, a sum over refusals in which each quotient is rounded up, so that it
/// stays a bound. After the last refusal that is looked at, all searches that are left count as the
/// set's, so it holds for any number of them. A pick that runs out of words returns no peer and
/// counts for nobody.
///
/// An example: the new table has two records, of one bucket, that were never tried. Theirs is in
/// slot 15 and the other's in slot 63, so 16 of the 64 starts of the bucket lead to theirs, and
/// each word accepts either. So theirs is 16 / 64 of the picks from the new table, and U_new is
/// 2^62 for a unit of 2^64. If the tried table has records, but none of theirs, U_tried is 0, and
/// theirs is at most 2^62 / 2^65 of the picks from any table: one in eight.
pub fn risks_are_bounded()
    ensures either { (st : State) (nets : List ℕ) (now unit ahead n : ℕ) (theirs : Peer → Bool) →
        IsSound st → 0 < wanted_new st nets → 0 < wanted_tried st nets →
        selecting_lists st false nets now theirs n * (2 * unit)
        ≤ (2 ^ 64) ^ n * (bound_of st true nets now theirs unit ahead
        + bound_of st false nets now theirs unit ahead) }
    ensures new { (st : State) (new_only : Bool) (nets : List ℕ) (now unit ahead n : ℕ)
        (theirs : Peer → Bool) → IsSound st → 0 < wanted_new st nets →
        (new_only || wanted_tried st nets == 0) ≡ true →
        selecting_lists st new_only nets now theirs n * unit
        ≤ (2 ^ 64) ^ n * bound_of st true nets now theirs unit ahead }
    ensures tried { (st : State) (nets : List ℕ) (now unit ahead n : ℕ) (theirs : Peer → Bool) →
        IsSound st → wanted_new st nets ≡ 0 → 0 < wanted_tried st nets →
        selecting_lists st false nets now theirs n * unit
        ≤ (2 ^ 64) ^ n * bound_of st false nets now theirs unit ahead }
{}
