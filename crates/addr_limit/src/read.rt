//! `LimitLines` reads the fields of a line, and the payloads of messages.

ghost use Rattle.std.specs.Prelude.{◌≡◌, ◌≢◌, [], ◌∷◌, List, Some, IfOk, Err, ⊤, ◌<◌, ℕ, slice_index};
ghost use Rattle.grammar.specs.Fields.{Value, u32_field, AllMean, AreAtFault};
ghost use Rattle.grammar.specs.declared.fault.LineFault.{LineFault};
ghost use Rattle.addr_limit.specs.Laws.{no_fault, one_event, one_fault};
ghost use Rattle.addr_limit.specs.Lines.{FaultAfter, SaysAfter, SaysBy, SaysMessage, SaysRequest, limit_kinds, message_kinds, IsRead};

use crate::command::KEYWORDS;
use crate::{Event, LimitCommand, LimitWord};
use addr_codecs::{Entries, Form, MsgFault, read_message};
use grammar::{
    Between, Choice, Grammar, LineFault, OneOf, Payload, Random, Source, Texts, find_keyword,
    read_fields,
};
use std::alloc::Global;

/// A number of 32 bits.
type Number = Between<0, { u32::MAX }>;

/// Whether a connection is unlimited.
struct Unlimited;

impl Choice for Unlimited {
    ghost use Rattle.std.specs.Prelude.{codes};
    ghost use Rattle.addr_limit.specs.Laws.{apart};

    ghost first = { codes "unlimited" };

    ghost second = { codes "limited" };

    ghost apart = { apart };

    fn first() -> &'static [u8] {
        b"unlimited"
    }

    fn second() -> &'static [u8] {
        b"limited"
    }
}

/// The grammar of the limit's lines.
pub(crate) struct LimitLines;

impl<T: Texts> Grammar<T> for LimitLines {
    type Said = Event;

    ghost says = { SaysAfter };

    ghost at_fault = { FaultAfter };

    ghost can_run_out = { ⊤ };

    ghost one_said = { one_event };

    ghost one_fault = { one_fault };

    ghost right = { no_fault };

    fn read_after(alloc: Global, word: &[u8], rest: T) -> Result<Event, LineFault> {
        match find_keyword(&KEYWORDS, word) {
            Some(verb) => read_event(alloc, verb, rest),
            None => Ok(Event::Nothing),
        }
    }
}

/// Reads the fields after a keyword.
fn read_event<T: Texts>(alloc: Global, verb: LimitWord, rest: T) -> Result<Event, LineFault>
    ensures found { IfOk result (SaysBy (Some verb) (T.texts rest)) }
    ensures fault { (f : LineFault) → result ≡ Err f → f ≢ LineFault.Memory →
        AreAtFault (limit_kinds verb) (T.texts rest) f }
{
    match verb {
        LimitWord::Now => {
            let (time, ()) = read_fields::<T, (Number, ())>(alloc, rest)?;
            Ok(Event::Now { time })
        }
        LimitWord::Open => {
            let (number, (addr, (unlimited, ()))) = read_fields::<
                T,
                (Number, (Source, (OneOf<Unlimited>, ()))),
            >(alloc, rest)?;
            let request = LimitCommand::Open { addr, unlimited };
            Ok(Event::Of { number, request })
        }
        LimitWord::Close => read_about(alloc, LimitCommand::Close, rest),
        LimitWord::GetAddr => read_about(alloc, LimitCommand::GetAddr, rest),
        LimitWord::From => read_sent(alloc, Form::Addr, rest),
        LimitWord::From2 => read_sent(alloc, Form::Addrv2, rest),
        LimitWord::Stat => read_about(alloc, LimitCommand::Stat, rest),
    }
}

/// Reads the only field, the number of the connection that the request is about.
fn read_about<T: Texts>(alloc: Global, request: LimitCommand, rest: T) -> Result<Event, LineFault>
    ensures found { IfOk result (λ event. (values : List Value)
        × AllMean (u32_field ∷ []) (T.texts rest) values
        × SaysRequest request values event) }
    ensures fault { (f : LineFault) → result ≡ Err f → f ≢ LineFault.Memory →
        AreAtFault (u32_field ∷ []) (T.texts rest) f }
{
    let (number, ()) = read_fields::<T, (Number, ())>(alloc, rest)?;
    Ok(Event::Of { number, request })
}

/// Reads the fields of a message: the number of its connection, a payload and random words.
fn read_sent<T: Texts>(alloc: Global, form: Form, rest: T) -> Result<Event, LineFault>
    ensures found { IfOk result (λ event. (values : List Value)
        × AllMean message_kinds (T.texts rest) values
        × SaysMessage form values event) }
    ensures fault { (f : LineFault) → result ≡ Err f → f ≢ LineFault.Memory →
        AreAtFault message_kinds (T.texts rest) f }
{
    let (number, (payload, (words, ()))) = read_fields::<T, (Number, (Payload, (Random, ())))>(
        alloc, rest,
    )?;
    let read = read_entries(alloc, form, payload.items())?;
    let request = LimitCommand::Message { read, words };
    Ok(Event::Of { number, request })
}

/// Reads the payload of a message, or the fault that it has.
pub(crate) fn read_entries(
    alloc: Global,
    form: Form,
    payload: &[u8],
) -> Result<Result<Entries, MsgFault>, LineFault>
    ensures found { IfOk result (λ read. IsRead form payload.now read) }
    ensures bytes { (i : ℕ) → slice_index payload.now i < 256 }
    ensures fault { (f : LineFault) → result ≡ Err f → f ≡ LineFault.Memory }
{
    match read_message(alloc, form, payload) {
        Ok(entries) => Ok(Ok(entries)),
        Err(fault) => unless_memory(fault),
    }
}

/// Returns the fault, unless memory ran out.
fn unless_memory(fault: MsgFault) -> Result<Result<Entries, MsgFault>, LineFault>
    ensures fault { IfOk result (λ read. read ≡ Err fault) }
    ensures cause { IfOk result (λ read. fault ≢ MsgFault.Memory) }
    ensures memory { (f : LineFault) → result ≡ Err f → f ≡ LineFault.Memory }
{
    match fault {
        MsgFault::Memory => Err(LineFault::Memory),
        MsgFault::Truncated
        | MsgFault::NonCanonical
        | MsgFault::TooMany
        | MsgFault::BadLength
        | MsgFault::TooLong
        | MsgFault::Trailing => Ok(Err(fault)),
    }
}
