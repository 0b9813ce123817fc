//! Laws: each line parses as one command about routable peers; and the limits.

ghost use Rattle.std.specs.Prelude.{◌≡◌, ℕ, ◌≤◌, ◌*◌, length, map};
ghost use Rattle.std.specs.List.{concat};
ghost use Rattle.host_io.specs.Lines.{lines_of};
ghost use Rattle.gen_load.specs.Log.{log};
ghost use Rattle.gen_load.specs.Spelling.{AreLines, without_feed};
ghost use Rattle.gen_load.specs.declared.generated.TheConstants.{MAX_LENGTH, MAX_LINES};

/// Each line of a log parses as exactly one command, which saves nothing and is about routable
/// peers only, so that a log can be replayed. The lines are short, and the log's bytes are cut into
/// them.
pub fn lines_spell_commands()
    ensures lines { (start lines : ℕ) → lines ≤ MAX_LINES → AreLines (log start lines) }
    ensures short { (start lines : ℕ) → lines ≤ MAX_LINES →
        length (concat (log start lines)) ≤ MAX_LENGTH * lines }
    ensures cut { (start lines : ℕ) → lines ≤ MAX_LINES →
        lines_of (concat (log start lines)) ≡ map without_feed (log start lines) }
{}

/// The maximum number of lines of a log, and the maximum length of one in bytes.
pub fn limits()
    ensures lines { MAX_LINES ≡ 100000 }
    ensures length { MAX_LENGTH ≡ 300 }
{}
