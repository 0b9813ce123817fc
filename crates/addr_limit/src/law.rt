//! Laws: connections are independent, calls are events, and tokens are bounded.

ghost use Rattle.std.specs.Prelude.{◌≡◌, ℕ, ◌<◌, ◌≤◌, ◌^◌, Bool, List, length, Option, Ok};
ghost use Rattle.net_addr.specs.Address.{Address};
ghost use Rattle.net_addr.specs.declared.peer.Entry.{Entry};
ghost use Rattle.limiter.specs.State.{find_conn, without_conn, AreBounded, AreRising};
ghost use Rattle.addr_limit.specs.LogState.{LimitState, start};
ghost use Rattle.limiter.specs.State.{new_conn};
ghost use Rattle.addr_limit.specs.Steps.{after_event};
ghost use Rattle.limiter.specs.Calls.{after_open, after_asking, after_message};
ghost use Rattle.addr_limit.specs.Lines.{LimitStep, SaysEvent, HasEventFault, is_about};
ghost use Rattle.addr_limit.specs.declared.command.Event.{Event};
ghost use Rattle.addr_limit.specs.declared.command.Event.TheVariants.{Of};
ghost use Rattle.addr_limit.specs.declared.command.LimitCommand.TheVariants.{Open, Close, GetAddr, Message};
ghost use Rattle.grammar.specs.declared.fault.LineFault.{LineFault};
ghost use Rattle.addr_limit.specs.Apart.{IsLastOutput};

/// A law of whole logs: a line that names a number has the output line that it would have if the
/// log had only the lines of that number and the `now` lines. No other connection can slow one down
/// or help it.
pub fn connections_are_apart()
    ensures { (number : ℕ) → number < 2 ^ 32 → IsLastOutput LimitStep start (is_about number) }
{}

/// The calls of `Limiter` on the connections of a state do what the events say.
pub fn calls_are_events()
    ensures opens { (st : LimitState) (number : ℕ) (addr : Address) (unlimited : Bool) →
        AreRising st.conns → after_open (new_conn number addr unlimited st.clock) st.conns
        ≡ (after_event st (Of number (Open addr unlimited))).conns }
    ensures closes { (st : LimitState) (number : ℕ) →
        without_conn number st.conns ≡ (after_event st (Of number Close)).conns }
    ensures getaddr { (st : LimitState) (number : ℕ) → AreRising st.conns →
        after_asking (find_conn number st.conns) st.conns
        ≡ (after_event st (Of number GetAddr)).conns }
    ensures message { (st : LimitState) (number : ℕ) (entries : List (Option Entry))
        (words : List ℕ) → AreRising st.conns → length entries ≤ length words →
        after_message st.clock entries (find_conn number st.conns) st.conns
        ≡ (after_event st (Of number (Message (Ok entries) words))).conns }
{}

/// A law of the state: no connection has more than 2,000 tokens, or 1,000 before it was sent
/// getaddr. Whatever a line says, this holds after it if it held before.
pub fn tokens_are_bounded()
    ensures { (st : LimitState) → (event : Event) → AreBounded st.conns →
        AreBounded (after_event st event).conns }
{}

/// No line says two events, has two faults, or says an event and has a fault.
pub fn lines_have_one_meaning()
    ensures event { (line : List ℕ) (a b : Event) → SaysEvent line a → SaysEvent line b → a ≡ b }
    ensures fault { (line : List ℕ) (f g : LineFault) → HasEventFault line f →
        HasEventFault line g → f ≡ g }
    ensures right { (line : List ℕ) (a : Event) (f : LineFault) → SaysEvent line a →
        ¬ HasEventFault line f }
{}
