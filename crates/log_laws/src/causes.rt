//! Laws that hold whatever the lines: causes of buckets, few buckets for a group, and losses with
//! causes.

ghost use Rattle.std.specs.Prelude.{ℕ, List, Option};
ghost use Rattle.placing.specs.Places.{Places};
ghost use Rattle.peer_rec.specs.Snapshot.{Snapshot};
ghost use Rattle.session.specs.State.{SessionState};
ghost use Rattle.log_laws.specs.Kept.{IsOpening, KeepsCauses};
ghost use Rattle.log_laws.specs.LostLines.{KeepsLosses};
ghost use Rattle.session.specs.State as session;
ghost use Rattle.log_laws.specs.Shares.{KeepsShares};

/// Whatever lines are carried out, after each of them: the tables are sound; each bucket of the new
/// table that a record is in has a cause; and sources of some groups reach 64 buckets a group at
/// most. A record leaves the tried table only for another one of its slot, by `good` with `force`
/// or by `resolve`.
///
/// The sources of one group put records into at most 64 of the 1024 buckets of the new table,
/// whatever messages arrive in whatever order (`reach`). The cause of a bucket is an accepted
/// entry, the record's own source, or the file of peers. No message takes a peer out of the tried
/// table (`tried`): by `resolve` it leaves at least four hours after its own last success.
pub fn runs_keep_causes()
    ensures { (file : Option Snapshot) (places : Places) (st : SessionState)
        (lines : List (List ℕ)) → IsOpening file places st → KeepsCauses file places st lines }
{}

/// Whatever lines are carried out, over each of them: each record stays, or is lost in it with a
/// cause, and the counts agree. Over the next lines, however many, it stays or is lost in one.
///
/// `next`: a record is lost at an entry of a message, at a success, or at a decision of `resolve`.
/// `counts`: there are as many records after a line as before it, with those that were made and
/// without those that were lost, and only messages make any. `later`: over any number of lines each
/// record stays, or is lost so in one of them.
pub fn runs_lose_with_causes()
    ensures { (file : Option Snapshot) (places : Places) (st : session.SessionState)
        (lines : List (List ℕ)) → IsOpening file places st → KeepsLosses st lines }
{}

/// Whatever lines are carried out, after each of them: of the words that select a bucket, few lead
/// to records that sources of some groups put there, or to records of these groups.
///
/// At least 1024 - 64 k of the 1024 residues for a bucket of the new table lead to no record that
/// sources of k groups put into it (`new`), and at least 256 - 8 k of the 256 for the tried table
/// to none with an address of the groups (`tried`). So at most 64 k in 1024 of a round's triples
/// select a record that only these sources put into its buckets (`new_words`), and 8 k in 256 one
/// with an address of the groups (`tried_words`). It is j k in 1024 if those records of the new
/// table have addresses of j groups (`pair_words`), since a source group has one bucket for all
/// peers of a group. What else is in a bucket has a cause, and no source of the groups put it there
/// (`others`). With an asmap the group of an address that has an AS number is that number. From 16
/// groups on (32 for the tried table and for `pair_words`) these bounds say nothing, and they say
/// nothing of a record that others announced too.
pub fn groups_reach_few()
    ensures { (file : Option Snapshot) (places : Places) (st : SessionState)
        (lines : List (List ℕ)) → IsOpening file places st → KeepsShares file places st lines }
{}
