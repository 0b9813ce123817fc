//! Laws: a sample is a fair shuffle of the eligible records.

ghost use Rattle.std.specs.Prelude.{List, ℕ, ◌≡◌, length, ◌≤◌, take, IsPermutation};
ghost use Rattle.table_laws.specs.Samples.{eligible_peers};
ghost use Rattle.table_laws.specs.Shuffle.{AreDraws, IsOnce, draws_of, exchanged};
ghost use Rattle.table_machine.specs.Picks.{sample, sample_limit};
ghost use Rattle.table_machine.specs.State.{State};

/// The exchanges of as many random words as a list has numbers are those of draws: one of n, one
/// of n - 1, and so on. Each arrangement of the list comes from exactly one list of draws.
///
/// The first word counts modulo n, the next modulo n - 1, and so on (`words`). Each arrangement
/// comes from some list of such residues (`some`) and from no other (`one`). A word modulo n has
/// some residues from one word more than others, of about 2^64 / n.
pub fn shuffles_are_fair()
    ensures words { (order words : List ℕ) → length words ≡ length order →
        AreDraws (length order) (draws_of (length order) words)
        × (exchanged order 0 words ≡ exchanged order 0 (draws_of (length order) words)) }
    ensures some { (order arranged : List ℕ) → IsPermutation order arranged →
        (draws : List ℕ) × AreDraws (length order) draws × (exchanged order 0 draws ≡ arranged) }
    ensures one { (order draws others : List ℕ) → IsOnce order →
        AreDraws (length order) draws → AreDraws (length order) others →
        exchanged order 0 draws ≡ exchanged order 0 others → draws ≡ others }
{}

/// A sample is the first peers of the order as the words arrange it, of those whose records may be
/// in a sample.
///
/// There have to be at least as many words as records.
pub fn samples_are_shuffles()
    ensures { (st : State) (most percent : ℕ) (classes words : List ℕ) (now : ℕ) →
        length st.order ≤ length words →
        (sample st most percent classes words now).answer
        ≡ take (sample_limit (length st.order) most percent)
        (eligible_peers st classes now (exchanged st.order 0 words)) }
{}
