//! Laws of answers: their records, hidden times and independence; and the limit.

ghost use Rattle.std.specs.Prelude.{◌≡◌, ℕ, List, ◌≤◌, ◌*◌, length, take, IsPermutation};
ghost use Rattle.std.specs.List.{AllByRecursion};
ghost use Rattle.addr_answers.specs.Answers.{told_time};
ghost use Rattle.addr_answers.specs.declared.answers.TheConstants.{MAX_TOLD};
ghost use Rattle.ban_list.specs.declared.ban.Ban.{Ban};
ghost use Rattle.table_machine.specs.State.{State};
ghost use Rattle.table_machine.specs.Picks.{sample_limit};
ghost use Rattle.table_laws.specs.Samples.{eligible_peers};
ghost use Rattle.table_laws.specs.Shuffle.{AreDraws, IsOnce, exchanged};
ghost use Rattle.getaddr.specs.Alike.{IsAlike};
ghost use Rattle.getaddr.specs.Fresh.{fresh, sample_of, order_after, told_nets, IsTold};
ghost use Rattle.getaddr.specs.declared.asking.TheConstants.{MAX_PERCENT};
ghost use Rattle.getaddr.specs.declared.times.Times.{Times};
ghost use Rattle.getaddr.specs.declared.times.Times.TheVariants.{Hidden};

use crate::MAX_PERCENT;

/// How many percent of the records an answer has, at most.
pub fn limits()
    ensures { MAX_PERCENT ≡ 23 }
{}

/// A new answer has at most 1,000 entries and at most 23 percent of the records. Each entry is what
/// a record of the tables says at that time. It is of one of the five networks and not terrible,
/// and its address is not banned.
pub fn answers_are_records()
    ensures most { (st : State) (bans : List Ban) (times : Times) (now word : ℕ)
        (words : List ℕ) → length (fresh st bans times now word words) ≤ MAX_TOLD }
    ensures part { (st : State) (bans : List Ban) (times : Times) (now word : ℕ)
        (words : List ℕ) →
        length (fresh st bans times now word words) * 100 ≤ MAX_PERCENT * length st.order }
    ensures records { (st : State) (bans : List Ban) (times : Times) (now word : ℕ)
        (words : List ℕ) →
        AllByRecursion (IsTold st bans times now word) (fresh st bans times now word words) }
{}

/// With hidden times each entry has the time of the answer. So tables that differ only in times,
/// and in what else an answer does not have, give the same answer.
pub fn times_are_hidden()
    ensures time { (st : State) (bans : List Ban) (now word : ℕ) (words : List ℕ) →
        AllByRecursion (λ e. e.time ≡ told_time now word)
        (fresh st bans Hidden now word words) }
    ensures alike { (st other : State) (bans : List Ban) (now word : ℕ) (words : List ℕ) →
        IsAlike now st other →
        fresh st bans Hidden now word words ≡ fresh other bans Hidden now word words }
{}

/// An answer that is made after another one is a sample for itself. Whatever the words of the first
/// one were, the peers of the second are the first ones that may be announced of an arrangement of
/// the records by its own words, and each arrangement comes from exactly one list of draws. So two
/// answers by words that have nothing to do with each other tell no more of each other than two
/// samples do.
pub fn answers_are_independent()
    ensures peers { (st : State) (now later : ℕ) (words more : List ℕ) →
        length st.order ≤ length more →
        (sample_of (sample_of st now words).state later more).answer
        ≡ take (sample_limit (length st.order) MAX_TOLD MAX_PERCENT)
        (eligible_peers st told_nets later (exchanged (order_after st now words) 0 more)) }
    ensures some { (st : State) (now : ℕ) (words arranged : List ℕ) →
        IsPermutation st.order arranged →
        (draws : List ℕ) × AreDraws (length st.order) draws
        × (exchanged (order_after st now words) 0 draws ≡ arranged) }
    ensures one { (st : State) (now : ℕ) (words draws others : List ℕ) → IsOnce st.order →
        AreDraws (length st.order) draws → AreDraws (length st.order) others →
        exchanged (order_after st now words) 0 draws
        ≡ exchanged (order_after st now words) 0 others → draws ≡ others }
{}
