//! The law that a text has one meaning.

ghost use Rattle.std.specs.Prelude.{◌≡◌, ℕ, List};
ghost use Rattle.prefix_table.specs.Text.{IsTableText, IsFault};
ghost use Rattle.prefix_table.specs.declared.rows.Row.{Row};
ghost use Rattle.prefix_table.specs.declared.fault.TableFault.{TableFault};

/// No text is that of two tables or has two faults, and the text of a table has none.
pub fn texts_have_one_meaning()
    ensures one_table { (text : List ℕ) (a b : List Row)
        → IsTableText text a → IsTableText text b → a ≡ b }
    ensures one_fault { (text : List ℕ) (a b : TableFault)
        → IsFault text a → IsFault text b → a ≡ b }
    ensures never_both { (text : List ℕ) (rows : List Row) (fault : TableFault)
        → IsTableText text rows → IsFault text fault → ⊥ }
{}
