//! Laws: groups stay distinct, and tries are fair and end once.

ghost use Rattle.std.specs.Prelude.{◌≡◌, ℕ, List};
ghost use Rattle.host_io.specs.Lines.{IsPassedOver};
ghost use Rattle.grammar.specs.Fields.{AreWords};
ghost use Rattle.grammar.specs.declared.fault.LineFault.{LineFault};
ghost use Rattle.peer_open.specs.Groups.{AreApart};
ghost use Rattle.opener_lines.specs.Fair.{IsFair};
ghost use Rattle.opener_lines.specs.Grammar.{LineAsks, HasRequestFault};
ghost use Rattle.opener_lines.specs.Lines.{LineStep};
ghost use Rattle.opener_lines.specs.State.{Answer, OpenerState, RequestStep};
ghost use Rattle.opener_lines.specs.Tries.{HasOutcome, Try};
ghost use Rattle.opener_lines.specs.declared.command.OpenerCommand.{OpenerCommand};
ghost use Rattle.opener_lines.specs.declared.tries.Outcome.{Outcome};
ghost use Rattle.opener_lines.specs.declared.tries.TheConstants.{TRY_WORDS};

use crate::TRY_WORDS;

/// A line of an opener's log that is passed over asks for nothing and has no fault. Any other asks
/// for at most one thing or has at most one fault, and never both.
pub fn opener_lines_have_one_meaning()
    ensures request { (line : List ℕ) (a b : OpenerCommand) → LineAsks line a →
        LineAsks line b → a ≡ b }
    ensures fault { (line : List ℕ) (f g : LineFault) → HasRequestFault line f →
        HasRequestFault line g → f ≡ g }
    ensures right { (line : List ℕ) (a : OpenerCommand) (f : LineFault) → LineAsks line a →
        ¬ HasRequestFault line f }
    ensures passed { (line : List ℕ) (a : OpenerCommand) → IsPassedOver line → ¬ LineAsks line a }
{}

/// Whatever a line does, no two open peers are in one group afterwards if none were before.
pub fn groups_stay_apart()
    ensures { (old new : OpenerState) (line text : List ℕ) → LineStep old line text new →
        AreApart old.open_peers → AreApart new.open_peers }
{}

/// A peer that is taken was picked by a try from 1 to 100, and by the 31st or a later one if it was
/// tried less than ten minutes before.
pub fn tries_are_fair()
    ensures { (old new : OpenerState) (asked : OpenerCommand) (answer : Answer) →
        RequestStep old asked answer new → IsFair old asked answer }
{}

/// Tries have exactly one outcome.
pub fn tries_end_once()
    ensures some { (tries : ℕ → Try) → (found : Outcome) × HasOutcome tries found }
    ensures only { (tries : ℕ → Try) (a b : Outcome) → HasOutcome tries a → HasOutcome tries b →
        a ≡ b }
{}

/// The number of random words of a try.
pub fn limits()
    ensures words { TRY_WORDS ≡ 10000 }
{}
