//! The law that the dot of each slot is in one rectangle.

ghost use Rattle.std.specs.Prelude.{◌≡◌, ℕ, ◌+◌, ◌*◌, ◌<◌, ◌≤◌, List, [], ◌∷◌, length, get_or};
ghost use Rattle.dot_runs.specs.Rects.{dots_over, dot_x, dot_y, table_rects};

/// The dot of each slot is covered by one rectangle, which has the slot's mark, and no point
/// between two tiles is covered.
pub fn one_dot()
    ensures dots { (side : ℕ) (marks : List ℕ) (bucket slot : ℕ)
        → slot < 64 → 64 * bucket + 64 ≤ length marks
        → dots_over (dot_x side bucket slot) (dot_y side bucket slot) (table_rects side marks)
        ≡ get_or marks (64 * bucket + slot) 0 ∷ [] }
    ensures columns { (side : ℕ) (marks : List ℕ) (x y : ℕ) →
        dots_over (9 * x + 8) y (table_rects side marks) ≡ [] }
    ensures lines { (side : ℕ) (marks : List ℕ) (x y : ℕ) →
        dots_over x (9 * y + 8) (table_rects side marks) ≡ [] }
{}
