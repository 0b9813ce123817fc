//! Laws: which residues of random words decide, and that later words do not count.

ghost use Rattle.std.specs.List.{range_with_len};
ghost use Rattle.std.specs.Prelude.{ℕ, Bool, List, ◌≡◌, ◌≢◌, ◌==◌, ◌<◌, ◌++◌, ◌*◌, ◌%◌, ◌^◌, count_by, map};
ghost use Rattle.peer_rec.specs.declared.answers.Picked.TheVariants.{Exhausted};
ghost use Rattle.peer_rec.specs.declared.rec.Rec.{Rec};
ghost use Rattle.slot_grid.specs.declared.sizes.TheConstants.{SLOTS};
ghost use Rattle.table_machine.specs.Picks.{bucket_count, candidate, is_accepted, select};
ghost use Rattle.table_machine.specs.State.{State};

/// A round depends on the residues of its three words only, and a pick on the low 30 bits of its
/// words. Of the words below a multiple of n, equally many have each residue modulo n.
///
/// Three words with the same residues do the same in a round (`round`): modulo 1024 for a bucket of
/// the new table or 256 of the tried one, 64 for a slot and 2^30 for the acceptance. Each residue
/// of a round comes from equally many of the 2^64 words (`even`).
pub fn residues_decide()
    ensures round { (st : State) (in_new : Bool) (nets : List ℕ) (r : Rec) (now factor : ℕ)
        (bucket start word other_bucket other_start other_word : ℕ) →
        bucket % bucket_count in_new ≡ other_bucket % bucket_count in_new →
        start % SLOTS ≡ other_start % SLOTS → word % 2 ^ 30 ≡ other_word % 2 ^ 30 →
        (candidate st in_new nets bucket start ≡ candidate st in_new nets other_bucket other_start)
        × (is_accepted r now factor word ≡ is_accepted r now factor other_word) }
    ensures pick { (st : State) (new_only : Bool) (nets words : List ℕ) (now : ℕ) →
        select st new_only nets (map (λ word. word % 2 ^ 30) words) now
        ≡ select st new_only nets words now }
    ensures even { (n residue times : ℕ) → residue < n →
        count_by (λ word. word % n == residue) (range_with_len 0 (times * n)) ≡ times }
{}

/// A pick that ends keeps its answer if more random words follow, so it depends on none of them.
///
/// So a caller who has too few words may call again with the same ones and more.
pub fn first_words_decide()
    ensures { (st : State) (new_only : Bool) (nets words more : List ℕ) (now : ℕ) →
        select st new_only nets words now ≢ Exhausted →
        select st new_only nets (words ++ more) now ≡ select st new_only nets words now }
{}
