//! The law that a line has one meaning.

ghost use Rattle.std.specs.Prelude.{◌≡◌, ℕ, List};
ghost use Rattle.host_io.specs.Lines.{IsPassedOver};
ghost use Rattle.log_lines.specs.Spelling.{SpellsCommand, HasCommandFault};
ghost use Rattle.log_lines.specs.declared.command.Command.{Command};
ghost use Rattle.grammar.specs.declared.fault.LineFault.{LineFault};

/// No line parses as two commands, has two faults, or parses as a command and has a fault; and a
/// line that is passed over parses as no command.
pub fn lines_have_one_meaning()
    ensures command { (line : List ℕ) (a b : Command) → SpellsCommand line a →
        SpellsCommand line b → a ≡ b }
    ensures fault { (line : List ℕ) (f g : LineFault) → HasCommandFault line f →
        HasCommandFault line g → f ≡ g }
    ensures right { (line : List ℕ) (a : Command) (f : LineFault) → SpellsCommand line a →
        ¬ HasCommandFault line f }
    ensures passed { (line : List ℕ) (a : Command) → IsPassedOver line → ¬ SpellsCommand line a }
{}
