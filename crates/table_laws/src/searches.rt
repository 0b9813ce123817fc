//! Laws that count whole searches, round by round.

ghost use Rattle.std.specs.Prelude.{◌≡◌, ℕ, suc, ◌+◌, ◌*◌, ◌^◌, ◌≤◌, List, Bool, true, not, Contains, count_by};
ghost use Rattle.std.specs.List.{range_with_len};
ghost use Rattle.table_laws.specs.Chances.{picking_words, words_for};
ghost use Rattle.table_laws.specs.Searches.{all_lists, ending_at, ending_lists, has_candidate, idle_rounds, refusing_rounds};
ghost use Rattle.net_addr.specs.declared.peer.Peer.{Peer};
ghost use Rattle.peer_rec.specs.declared.rec.Rec.{Rec};
ghost use Rattle.slot_grid.specs.declared.sizes.TheConstants.{SLOTS};
ghost use Rattle.peer_rec.specs.Rec.{next_factor};
ghost use Rattle.table_machine.specs.Picks.{bucket_count, first_factor};
ghost use Rattle.table_machine.specs.Sound.{IsSound};
ghost use Rattle.table_machine.specs.State.{State};

/// Of the lists of n + 1 rounds' words, so many end a search of one table at a record: those of
/// which the first round selects it; and of those of which the first round has no candidate, or
/// refuses its candidate, as many as the n others end there, after a refusal with the factor grown.
///
/// A round without a candidate uses two words, and is counted with each third residue. A refusal
/// lets the factor grow by a fifth.
pub fn searches_are_counted()
    ensures none { (st : State) (in_new : Bool) (nets : List ℕ) (now factor : ℕ) (peer : Peer) →
        ending_lists st in_new nets now factor peer 0 ≡ 0 }
    ensures more { (st : State) (in_new : Bool) (nets : List ℕ) (now factor n : ℕ) (r : Rec) →
        IsSound st → Contains st.records r →
        ending_lists st in_new nets now factor r.peer (suc n)
        ≡ picking_words st in_new nets now factor r.number * all_lists in_new n
        + idle_rounds st in_new nets * ending_lists st in_new nets now factor r.peer n
        + refusing_rounds st in_new nets now factor
        * ending_lists st in_new nets now (next_factor factor) r.peer n }
    ensures all { (in_new : Bool) (n : ℕ) →
        all_lists in_new (suc n)
        ≡ bucket_count in_new * (SLOTS * (2 ^ 30 * all_lists in_new n)) }
{}

/// Of all rounds, those of the buckets without a candidate are idle. Of the others, those that do
/// not select their candidate refuse it.
///
/// So the refusals are all triples without those of empty buckets (`idle`) and those that select
/// some record (`all`).
pub fn rounds_are_of_three_kinds()
    ensures idle { (st : State) (in_new : Bool) (nets : List ℕ) →
        idle_rounds st in_new nets
        ≡ count_by (λ b. not (has_candidate st in_new nets b))
        (range_with_len 0 (bucket_count in_new)) * (SLOTS * 2 ^ 30) }
    ensures all { (st : State) (in_new : Bool) (nets : List ℕ) (now factor : ℕ) →
        words_for st in_new nets now factor (λ r. true) + idle_rounds st in_new nets
        + refusing_rounds st in_new nets now factor
        ≡ bucket_count in_new * (SLOTS * 2 ^ 30) }
{}

/// The searches that end at one of several records follow the same recursion. So if the records
/// that pass one test have, at each factor from this one on, at most some part of the triples of
/// those that pass another, they have at most that part of the searches, over however many rounds.
/// And if at no factor more than a bound's triples select somebody's records, their part of all
/// searches that end is at most the bound's part of the triples that select a record at first.
///
/// `bound`: if at every factor at most M triples select somebody's records, and at the first factor
/// T triples select some record, at most M / T of the lists of n rounds that end a search of this
/// table end it at theirs, for each n. `part` says more exactly that a part of the selecting
/// triples at each factor is a bound on the part of the searches, and `some` that the searches that
/// end at several records follow the recursion of those that end at one. With empty buckets T is
/// smaller than all triples, so the share of picks is larger than that of a round.
pub fn searches_share_alike()
    ensures some { (st : State) (in_new : Bool) (nets : List ℕ) (now factor n : ℕ)
        (test : Rec → Bool) → IsSound st →
        ending_at st in_new nets now factor test (suc n)
        ≡ words_for st in_new nets now factor test * all_lists in_new n
        + idle_rounds st in_new nets * ending_at st in_new nets now factor test n
        + refusing_rounds st in_new nets now factor
        * ending_at st in_new nets now (next_factor factor) test n }
    ensures part { (st : State) (in_new : Bool) (nets : List ℕ) (now part whole n factor : ℕ)
        (theirs all : Rec → Bool) → IsSound st → factor ≤ 2 ^ 60 →
        ((later : ℕ) → factor ≤ later → words_for st in_new nets now later theirs * whole
        ≤ words_for st in_new nets now later all * part) →
        ending_at st in_new nets now factor theirs n * whole
        ≤ ending_at st in_new nets now factor all n * part }
    ensures bound { (st : State) (in_new : Bool) (nets : List ℕ) (now most n : ℕ)
        (theirs : Rec → Bool) → IsSound st →
        ((factor : ℕ) → words_for st in_new nets now factor theirs ≤ most) →
        ending_at st in_new nets now first_factor theirs n
        * words_for st in_new nets now first_factor (λ r. true)
        ≤ ending_at st in_new nets now first_factor (λ r. true) n * most }
{}
