//! Laws: answers stay, keys are independent, and samples are rare.

ghost use Rattle.std.specs.Prelude.{◌≡◌, ◌≢◌, ◌⊎◌, ℕ, List, [], ◌∷◌, ◌++◌, true, length, ◌*◌, ◌+◌, ◌-◌, ◌≤◌};
ghost use Rattle.std.specs.List.{AllByRecursion};
ghost use Rattle.net_addr.specs.declared.net.Net.{Net};
ghost use Rattle.addr_answers.specs.Answers.{Answer, answer_at, key_of, least_of};
ghost use Rattle.addr_answers.specs.Runs.{Ask, is_made, told, after_ask, after_asks, IsWithin, IsOneOf, IsBetween, makers, AreApart};
ghost use Rattle.addr_answers.specs.declared.answers.TheConstants.{MAX_KEYS, MAX_TOLD};
ghost use Rattle.addr_answers.specs.declared.kept.TheConstants.{KEPT_SECONDS, EXTRA_SECONDS, FEW_RECORDS, FEW_SECONDS};
ghost use Rattle.addr_answers.specs.declared.hiding.TheConstants.{MIN_AGE, EXTRA_AGE};

use crate::{
    EXTRA_AGE, EXTRA_SECONDS, FEW_RECORDS, FEW_SECONDS, KEPT_SECONDS, MAX_KEYS, MAX_TOLD, MIN_AGE,
};

/// How many answers are kept and how many entries they have, for how many seconds, and by how many
/// seconds a time that hides those of the records comes before an answer.
pub fn limits()
    ensures keys { MAX_KEYS ≡ 64 }
    ensures told { MAX_TOLD ≡ 1000 }
    ensures kept { KEPT_SECONDS ≡ 75600 }
    ensures extra { EXTRA_SECONDS ≡ 21600 }
    ensures few { FEW_RECORDS ≡ 1000 }
    ensures few_kept { FEW_SECONDS ≡ 3600 }
    ensures age { MIN_AGE ≡ 691200 }
    ensures extra_age { EXTRA_AGE ≡ 345600 }
{}

/// After a request for which an answer was made, a request of its key gets the same entries, if it
/// and the requests of the key between the two came within 21 hours of the first one; within an
/// hour, if the answer was made of few records. Requests of other keys may come between at any
/// time. So in this time any number of requests shows one sample, and nothing of what changes in
/// the tables.
pub fn answers_stay()
    ensures { (kept : List Answer) (first : Ask) (between : List Ask) (again : Ask) →
        is_made kept first ≡ true → again.key ≡ first.key →
        AllByRecursion (λ a. a.key ≡ first.key → IsWithin first a.now) between →
        IsWithin first again.now →
        told (after_asks (after_ask kept first) between) again ≡ first.fresh }
{}

/// Each network class and local socket has a key of its own.
pub fn keys_are_distinct()
    ensures { (net other : Net) (socket another : ℕ) →
        key_of net socket ≡ key_of other another → (net ≡ other) × (socket ≡ another) }
{}

/// Requests of other keys change nothing of what is kept of a key.
pub fn keys_are_apart()
    ensures { (kept : List Answer) (key now : ℕ) (asks : List Ask) →
        AllByRecursion (λ a. a.key ≢ key) asks →
        answer_at key now (after_asks kept asks) ≡ answer_at key now kept }
{}

/// An answer is empty, if there is no room, or all of what one request of its key, this one or an
/// earlier one, was given as a sample. Entries of two samples are never in one answer.
pub fn answers_are_samples()
    ensures { (asks : List Ask) (ask : Ask) →
        (told (after_asks [] asks) ask ≡ [])
        ⊎ IsOneOf ask.key (asks ++ ask ∷ []) (told (after_asks [] asks) ask) }
{}

/// While the clock does not go back, a request of a key shows a new sample only 21 hours after the
/// one before, or an hour after one of few records, however many requests there are, of this key
/// and of others. So if each sample is kept for some seconds at least, there are at most as many as
/// the time has such parts, and one more.
pub fn samples_are_rare()
    ensures apart { (kept : List Answer) (key start end : ℕ) (asks : List Ask) →
        IsBetween start end asks → AreApart (makers key kept asks) }
    ensures count { (kept : List Answer) (key start end seconds : ℕ) (asks : List Ask) →
        IsBetween start end asks →
        AllByRecursion (λ a. seconds ≤ least_of a.records) (makers key kept asks) →
        length (makers key kept asks) * seconds ≤ (end - start) + seconds }
{}
