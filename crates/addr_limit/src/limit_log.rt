//! `LimitLog`, the clock and the connections: carries out a line and sets the clock.

ghost use Rattle.std.specs.Prelude.{◌≡◌, ◌++◌, [], ◌∷◌, OnOk, OnErr};

use crate::read::LimitLines;
use crate::requests::serve;
use crate::{Event, LimitCommand};
use grammar::{LineFault, read_said};
use host_io::LINE_FEED;
use limiter::{Limiter, Memory};
use log_run::{LineSteps, Stop};
use std::alloc::Global;
use std::hash::BuildHasher;
use std::marker::Model;

/// A clock, and the connections.
#[derive(Drop)]
pub struct LimitLog<H: BuildHasher> {
    clock: u32,
    limiter: Limiter<H>,
}

impl<H: BuildHasher> Model for LimitLog<H> {
    ghost use Rattle.std.specs.Coded.{codes};
    ghost use Rattle.addr_limit.specs.LogState.{LimitState};

    ghost Value = { LimitState };

    ghost coded = { Prim.hlevel codes };

    ghost view = { λ l. record { clock = l.clock; conns = l.limiter } };
}

impl<H: BuildHasher> LimitLog<H> {
    ghost use Rattle.std.specs.Prelude.{◌≡◌, ◌≢◌, ◌++◌, ◌⊎◌, [], ◌∷◌, ℕ, List, length, Err, OnOk, OnErr};
    ghost use Rattle.addr_limit.specs.LogState.{start};
    ghost use Rattle.addr_limit.specs.Steps.{after_event, output, serve_in};
    ghost use Rattle.addr_limit.specs.declared.command.Event.TheVariants.{Of};
    ghost use Rattle.addr_limit.specs.Lines.{HasEventFault, LimitStep};
    ghost use Rattle.addr_limit.specs.Inside.{IsShort, IsShortEvent};

    /// Makes the log of no lines: the clock is 0, and there are no connections.
    pub fn make(alloc: Global, hasher: H) -> LimitLog<H>
        ensures { result ≡ start }
    {
        LimitLog {
            clock: 0,
            limiter: Limiter::make(alloc, hasher),
        }
    }

    /// Carries out a line, which has no line feed, and appends its output line and a line feed. A
    /// line with another first field than those of events is passed on as it is. After an error
    /// nothing has changed.
    pub fn step(&mut self, alloc: Global, line: &[u8], out: &mut Vec<u8>) -> Result<(), LineFault>
        ensures step { OnOk result ((text : List ℕ)
            × LimitStep self.old line.now text self.new
            × (out.new.items ≡ out.old.items ++ text)) }
        ensures fault { (f : LineFault) → result ≡ Err f → f ≢ LineFault.Memory →
            HasEventFault line.now f }
        ensures only_fault { (f : LineFault) → HasEventFault line.now f →
            (result ≡ Err f) ⊎ (result ≡ Err LineFault.Memory) }
        ensures err { OnErr result (self.new ≡ self.old) }
        ensures list { OnErr result (out.new.items ≡ out.old.items) }
    {
        let event = match read_said::<LimitLines>(alloc, line) {
            Ok(event) => event,
            Err(fault) => return Err(fault),
        };
        match self.carry_out_event(alloc, line, &event, out) {
            Ok(()) => Ok(()),
            Err(_) => Err(LineFault::Memory),
        }
    }

    /// Carries out the event that a line says, and appends its output line and a line feed.
    fn carry_out_event(
        &mut self,
        alloc: Global,
        line: &[u8],
        event: &Event,
        out: &mut Vec<u8>,
    ) -> Result<(), Memory>
        requires { IsShortEvent event.now }
        ensures state { OnOk result (self.new ≡ after_event self.old event.now) }
        ensures text { OnOk result (out.new.items
            ≡ out.old.items ++ (output self.old line.now event.now ++ 10 ∷ [])) }
        ensures err { OnErr result (self.new ≡ self.old) }
        ensures list { OnErr result (out.new.items ≡ out.old.items) }
    {
        match event {
            Event::Now { time } => self.set_clock(*time, line, out),
            Event::Of { number, request } => self.serve(alloc, *number, request, out),
            Event::Nothing => put_line(line, out),
        }
    }

    /// Sets the clock, in seconds since 1970, and appends the line.
    fn set_clock(&mut self, time: u32, line: &[u8], out: &mut Vec<u8>) -> Result<(), Memory>
        ensures state { OnOk result (self.new ≡ record self.old { clock = time }) }
        ensures text { OnOk result (out.new.items ≡ out.old.items ++ (line.now ++ 10 ∷ [])) }
        ensures err { OnErr result (self.new ≡ self.old) }
        ensures list { OnErr result (out.new.items ≡ out.old.items) }
    {
        put_line(line, out)?;
        self.clock = time;
        Ok(())
    }

    /// Carries out a request about a number, and appends its output line and a line feed.
    fn serve(
        &mut self,
        alloc: Global,
        number: u32,
        request: &LimitCommand,
        out: &mut Vec<u8>,
    ) -> Result<(), Memory>
        requires { IsShort request.now }
        ensures state { OnOk result (self.new ≡ after_event self.old (Of number request.now)) }
        ensures text { OnOk result (out.new.items
            ≡ out.old.items ++ ((serve_in self.old number request.now).text ++ 10 ∷ [])) }
        ensures err { OnErr result (self.new ≡ self.old) }
        ensures list { OnErr result (out.new.items ≡ out.old.items) }
    {
        serve(&mut self.limiter, alloc, self.clock, number, request, out)
    }
}

/// The lines of a log, one step a line. They change nothing besides the log's own state.
impl<H: BuildHasher> LineSteps<()> for LimitLog<H> {
    ghost use Rattle.std.specs.Prelude.{◌≡◌, true, ⊤};
    ghost use Rattle.addr_limit.specs.Lines.{HasEventFault, LimitStep};

    ghost step = { λ old before line text new after. LimitStep old line text new };

    ghost has_fault = { HasEventFault };

    ghost ready = { λ l world. ⊤ };

    ghost has_room = { λ l n. ⊤ };

    fn keeps_world(&self) -> bool
        ensures { result ≡ true }
    {
        true
    }

    fn carry_out(
        &mut self,
        alloc: Global,
        line: &[u8],
        world: &mut (),
        out: &mut Vec<u8>,
    ) -> Result<(), Stop> {
        match self.step(alloc, line, out) {
            Ok(()) => Ok(()),
            Err(fault) => Err(Stop::of(fault)),
        }
    }
}

/// Appends a line and a line feed. If memory runs out, nothing changes.
fn put_line(line: &[u8], out: &mut Vec<u8>) -> Result<(), Memory>
    ensures ok { OnOk result (out.new.items ≡ out.old.items ++ (line.now ++ 10 ∷ [])) }
    ensures err { OnErr result (out.new.items ≡ out.old.items) }
{
    let length = out.len();
    out.extend_from_slice(line)?;
    if out.push(LINE_FEED).is_err() {
        out.truncate(length);
        return Err(Memory);
    }
    Ok(())
}
