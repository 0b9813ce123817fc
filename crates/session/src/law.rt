//! The law that the text of a run determines its history.

ghost use Rattle.std.specs.Prelude.{◌≡◌, ◌++◌, ℕ, List};
ghost use Rattle.log_run.specs.Run.{Run};
ghost use Rattle.session.specs.History.{History, HistoryStep};

/// The text of a run fixes its history, since each reply to a save shows whether it was done. Take
/// two steps by one line, or two runs over the same lines, from one history: if the text of one
/// begins with that of the other, they have one text and end in one history. If the second run has
/// more lines, it is the first one, continued.
pub fn text_fixes_the_history()
    ensures step { (old a b : History) (line t u x y : List ℕ) → HistoryStep old line t a →
        HistoryStep old line u b → t ++ x ≡ u ++ y → (t ≡ u) × (a ≡ b) }
    ensures run { (old a b : History) (lines : List (List ℕ)) (t u x y : List ℕ) →
        Run HistoryStep old lines t a → Run HistoryStep old lines u b → t ++ x ≡ u ++ y →
        (t ≡ u) × (a ≡ b) }
    ensures longer { (old a b : History) (lines more : List (List ℕ)) (t u x y : List ℕ) →
        Run HistoryStep old lines t a → Run HistoryStep old (lines ++ more) u b → t ++ x ≡ u ++ y →
        (rest : List ℕ) × (u ≡ t ++ rest) × Run HistoryStep a more rest b }
{}
