//! `OpenerLog`, a manager with open peers: carries out a line.

ghost use Rattle.std.specs.Prelude.{◌≡◌, ◌≢◌, ◌+◌, ◌≤◌, ◌<◌, ◌^◌, ◌++◌, ◌⊎◌, ℕ, List, Err, OnOk, OnErr, IsErrOf};
ghost use Rattle.grammar.specs.declared.fault.LineFault.{LineFault};
ghost use Rattle.peer_open.specs.Groups.{AreApart};
ghost use Rattle.opener_lines.specs.Grammar.{HasRequestFault};
ghost use Rattle.opener_lines.specs.Lines.{OpenerLeavesPart, LineStep};
ghost use Rattle.opener_lines.specs.State.{state};

use crate::read::read_request;
use crate::requests::carry_out;
use grammar::LineFault;
use log_run::{LineSteps, Stop};
use manager::Manager;
use peer_open::{OpenRules, Opener};
use std::alloc::Global;
use std::hash::BuildHasher;
use std::marker::{Brand, Model};
use std::sync::ledger::{Blank, Ledger};
use steps::Steps;

/// An address manager with the open outbound peers, and the rules by which they are chosen.
#[derive(Drop)]
pub struct OpenerLog<'a, H: BuildHasher> {
    rules: OpenRules,
    manager: Manager<'a, H>,
    opener: Opener,
}

impl<'a, H: BuildHasher> Model for OpenerLog<'a, H> {
    ghost use Rattle.std.specs.Coded.{codes};
    ghost use Rattle.placing.specs.Places.{coded_places};
    ghost use Rattle.opener_lines.specs.State.{OpenerState, state};

    ghost Value = { OpenerState };

    ghost coded = { Prim.hlevel (codes, coded_places) };

    ghost view = { λ l. state l.rules l.manager l.opener };
}

impl<'a, H: BuildHasher> OpenerLog<'a, H> {
    ghost use Rattle.std.specs.Prelude.{◌≡◌, ◌≢◌, ◌+◌, ◌≤◌, ◌<◌, ◌^◌, ◌++◌, [], ℕ, List, Err, OnOk};
    ghost use Rattle.grammar.specs.declared.fault.LineFault.{LineFault};
    ghost use Rattle.opener_lines.specs.Grammar.{HasRequestFault};
    ghost use Rattle.opener_lines.specs.Lines.{LineStep};
    ghost use Rattle.opener_lines.specs.State.{state};

    /// Makes the log of no lines: no peers are open.
    pub fn make(rules: OpenRules, manager: Manager<'a, H>) -> OpenerLog<'a, H>
        ensures { result ≡ state rules manager.entry [] }
    {
        OpenerLog {
            rules,
            manager,
            opener: Opener::make(),
        }
    }

    /// Carries out a line with a counter of its own, whose steps nobody reads.
    fn step<L: Ledger>(
        &mut self,
        alloc: Global,
        line: &[u8],
        out: &mut Vec<u8>,
        blank: Blank,
    ) -> Result<(), LineFault>
        requires name { blank.name ≡ L.name }
        requires parts { blank.parts ≡ L.parts }
        requires one { blank.parts ≡ 1 }
        requires room { self.old.machine.tables.next_number < 2 ^ 62 }
        ensures step { OnOk result ((text : List ℕ)
            × LineStep self.old line.now text self.new
            × (out.new.items ≡ out.old.items ++ text)) }
        ensures fault { (f : LineFault) → result ≡ Err f → f ≢ LineFault.Memory →
            HasRequestFault line.now f }
        ensures numbers { self.new.machine.tables.next_number
            ≤ self.old.machine.tables.next_number + 1000 }
    {
        let mut steps = Steps::<L>::none(blank);
        opener_line(
            alloc,
            &self.rules,
            &mut self.manager,
            &mut self.opener,
            line,
            out,
            &mut steps,
        )
    }
}

/// The lines of a log, one step a line. They change nothing besides the log's own state.
impl<'a, H: BuildHasher> LineSteps<()> for OpenerLog<'a, H> {
    ghost use Rattle.std.specs.Prelude.{◌≡◌, ◌+◌, ◌*◌, ◌<◌, ◌^◌, false, ⊤};
    ghost use Rattle.opener_lines.specs.Grammar.{HasRequestFault};
    ghost use Rattle.opener_lines.specs.Lines.{LineStep};

    ghost step = { λ old before line text new after. LineStep old line text new };

    ghost has_fault = { HasRequestFault };

    ghost ready = { λ l world. ⊤ };

    // Each line takes at most a thousand numbers.
    ghost has_room = { λ l n. l.machine.tables.next_number + 1000 * n < 2 ^ 62 };

    fn keeps_world(&self) -> bool
        ensures { result ≡ false }
    {
        false
    }

    fn carry_out(
        &mut self,
        alloc: Global,
        line: &[u8],
        world: &mut (),
        out: &mut Vec<u8>,
    ) -> Result<(), Stop> {
        match self.step::<Brand>(alloc, line, out, Blank::new(1)) {
            Ok(()) => Ok(()),
            Err(fault) => Err(Stop::of(fault)),
        }
    }
}

/// Carries out a line of an opener's log, which has no line feed, and appends the text of its
/// reply: none for a line that is passed over.
pub fn opener_line<H: BuildHasher, L: Ledger>(
    alloc: Global,
    rules: &OpenRules,
    manager: &mut Manager<'_, H>,
    opener: &mut Opener,
    line: &[u8],
    out: &mut Vec<u8>,
    steps: &mut Steps<L>,
) -> Result<(), LineFault>
    requires room { manager.old.tables.next_number < 2 ^ 62 }
    ensures step { OnOk result ((text : List ℕ)
        × LineStep (state rules.now manager.old opener.old) line.now
        text (state rules.now manager.new opener.new)
        × (out.new.items ≡ out.old.items ++ text)) }
    ensures fault { (f : LineFault) → result ≡ Err f → f ≢ LineFault.Memory →
        HasRequestFault line.now f × (manager.new ≡ manager.old) × (opener.new ≡ opener.old) }
    ensures only_fault { (f : LineFault) → HasRequestFault line.now f →
        (result ≡ Err f) ⊎ (result ≡ Err LineFault.Memory) }
    ensures memory { IsErrOf result LineFault.Memory →
        OpenerLeavesPart (state rules.now manager.old opener.old) line.now
        (state rules.now manager.new opener.new) }
    ensures list { OnErr result (out.new.items ≡ out.old.items) }
    ensures numbers { manager.new.tables.next_number ≤ manager.old.tables.next_number + 1000 }
{
    let request = match read_request(alloc, line) {
        Ok(None) => return Ok(()),
        Ok(Some(request)) => request,
        Err(fault) => return Err(fault),
    };
    match carry_out(alloc, rules, manager, opener, &request, out, steps) {
        Ok(()) => Ok(()),
        Err(_) => Err(LineFault::Memory),
    }
}
