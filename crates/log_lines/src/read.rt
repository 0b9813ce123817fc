//! `read_line` and `read_command` of `LogLines`, which says which fields each keyword has.

ghost use Rattle.std.specs.Prelude.{◌≡◌, ◌≢◌, ◌↔◌, ◌⊎◌, ⊤, [], IfOk, IfSome, Some, None, Ok, Err};
ghost use Rattle.host_io.specs.Lines.{IsPassedOver};
ghost use Rattle.grammar.specs.Fields.{AllMean, AreAtFault};
ghost use Rattle.grammar.specs.declared.fault.LineFault.{LineFault};
ghost use Rattle.log_lines.specs.Laws.{one_after, one_fault, no_fault};
ghost use Rattle.log_lines.specs.Spelling.{kinds_of, SpellsBy, SpellsAfter, HasFaultAfter, SpellsCommand, HasCommandFault};
ghost use Rattle.log_lines.specs.declared.command.Command.{Command};
ghost use Rattle.log_lines.specs.declared.word.CommandWord.TheVariants as verbs;

use crate::choices::{Counting, NewOnly, Testing};
use crate::word::KEYWORDS;
use crate::{Command, CommandWord};
use grammar::{
    AddrClasses, Between, Grammar, LineFault, LongBetween, Networks, OneOf, OnePeer, Payload,
    Random, RandomSource, Source, Texts, find_keyword, read_fields,
};
use std::alloc::Global;

/// A number of 32 bits.
type Number = Between<0, { u32::MAX }>;

/// A number of 64 bits.
type LongNumber = LongBetween<0, { u64::MAX }>;

/// The fields after `addr` and `addrv2`.
type Message = (Source, (Payload, (Random, ())));

/// A peer and one more field.
type PeerAnd<F> = (OnePeer, (F, ()));

/// The grammar of a log's lines.
pub(crate) struct LogLines;

impl<T: Texts> Grammar<T> for LogLines {
    type Said = Command;

    ghost says = { SpellsAfter };

    ghost at_fault = { HasFaultAfter };

    ghost can_run_out = { ⊤ };

    ghost one_said = { one_after };

    ghost one_fault = { one_fault };

    ghost right = { no_fault };

    fn read_after(alloc: Global, word: &[u8], rest: T) -> Result<Command, LineFault> {
        match find_keyword(&KEYWORDS, word) {
            Some(verb) => read_command(alloc, verb, rest),
            None => Err(LineFault::Word),
        }
    }
}

/// Reads the command of a line, which has no line feed, or returns `None` for a line that is passed
/// over: an empty one, or one that begins with `#`.
pub fn read_line(alloc: Global, line: &[u8]) -> Result<Option<Command>, LineFault>
    ensures passed { result ≡ Ok None ↔ IsPassedOver line.now }
    ensures found { IfOk result (λ read. IfSome read (λ c. SpellsCommand line.now c)) }
    ensures only { (c : Command) → SpellsCommand line.now c →
        (result ≡ Ok (Some c)) ⊎ (result ≡ Err LineFault.Memory) }
    ensures fault { (f : LineFault) → result ≡ Err f → f ≢ LineFault.Memory →
        HasCommandFault line.now f }
    ensures only_fault { (f : LineFault) → HasCommandFault line.now f →
        (result ≡ Err f) ⊎ (result ≡ Err LineFault.Memory) }
{
    grammar::read_line::<LogLines>(alloc, line)
}

/// Reads the fields after a keyword. A grammar that has these keywords among others calls it once
/// it has found one.
pub fn read_command<T: Texts>(
    alloc: Global,
    verb: CommandWord,
    rest: T,
) -> Result<Command, LineFault>
    ensures found { IfOk result (λ c. SpellsBy verb (T.texts rest) c) }
    ensures fault { (f : LineFault) → result ≡ Err f → f ≢ LineFault.Memory →
        AreAtFault (kinds_of verb) (T.texts rest) f }
{
    match verb {
        CommandWord::Now => {
            let (time, ()) = read_fields::<T, (Number, ())>(alloc, rest)?;
            Ok(Command::Now { time })
        }
        CommandWord::Addr => {
            let (source, (payload, (words, ()))) = read_fields::<T, Message>(alloc, rest)?;
            Ok(Command::Addr {
                source,
                payload,
                words,
            })
        }
        CommandWord::Addr2 => {
            let (source, (payload, (words, ()))) = read_fields::<T, Message>(alloc, rest)?;
            Ok(Command::Addr2 {
                source,
                payload,
                words,
            })
        }
        CommandWord::Good => {
            let (peer, (testing, ())) = read_fields::<T, PeerAnd<OneOf<Testing>>>(alloc, rest)?;
            Ok(Command::Good { peer, testing })
        }
        CommandWord::Attempt => {
            let (peer, (count, ())) = read_fields::<T, PeerAnd<OneOf<Counting>>>(alloc, rest)?;
            Ok(Command::Attempt { peer, count })
        }
        CommandWord::Connected => {
            let (peer, ()) = read_fields::<T, (OnePeer, ())>(alloc, rest)?;
            Ok(Command::Connected { peer })
        }
        CommandWord::Services => {
            let (peer, (services, ())) = read_fields::<T, PeerAnd<LongNumber>>(alloc, rest)?;
            Ok(Command::Services { peer, services })
        }
        CommandWord::Find => {
            let (peer, ()) = read_fields::<T, (OnePeer, ())>(alloc, rest)?;
            Ok(Command::Find { peer })
        }
        CommandWord::Size => read_nothing(alloc, Command::Size, rest),
        CommandWord::Select => read_select(alloc, rest),
        CommandWord::Sample => read_sample(alloc, rest),
        CommandWord::Resolve => read_nothing(alloc, Command::Resolve, rest),
        CommandWord::Clash => {
            let (word, ()) = read_fields::<T, (LongNumber, ())>(alloc, rest)?;
            Ok(Command::Clash { word })
        }
        CommandWord::Dump => read_nothing(alloc, Command::Dump, rest),
        CommandWord::Save => read_nothing(alloc, Command::Save, rest),
        CommandWord::SaveBegin => read_nothing(alloc, Command::SaveBegin, rest),
        CommandWord::SaveStep => {
            let (count, ()) = read_fields::<T, (Between<1, { u32::MAX }>, ())>(alloc, rest)?;
            Ok(Command::SaveStep { count })
        }
        CommandWord::SaveEnd => read_nothing(alloc, Command::SaveEnd, rest),
    }
}

/// Reads no fields, and returns the command, which has none.
fn read_nothing<T: Texts>(alloc: Global, command: Command, rest: T) -> Result<Command, LineFault>
    ensures found { IfOk result (λ c. (c ≡ command) × AllMean [] (T.texts rest) []) }
    ensures fault { (f : LineFault) → result ≡ Err f → f ≢ LineFault.Memory →
        AreAtFault [] (T.texts rest) f }
{
    read_fields::<T, ()>(alloc, rest)?;
    Ok(command)
}

/// Reads the fields after `select`.
fn read_select<T: Texts>(alloc: Global, rest: T) -> Result<Command, LineFault>
    ensures found { IfOk result (λ c. SpellsBy verbs.Select (T.texts rest) c) }
    ensures fault { (f : LineFault) → result ≡ Err f → f ≢ LineFault.Memory →
        AreAtFault (kinds_of verbs.Select) (T.texts rest) f }
{
    let (new_only, (nets, (words, ()))) = read_fields::<
        T,
        (OneOf<NewOnly>, (Networks, (RandomSource, ()))),
    >(alloc, rest)?;
    Ok(Command::Select {
        new_only,
        nets,
        words,
    })
}

/// Reads the fields after `sample`.
fn read_sample<T: Texts>(alloc: Global, rest: T) -> Result<Command, LineFault>
    ensures found { IfOk result (λ c. SpellsBy verbs.Sample (T.texts rest) c) }
    ensures fault { (f : LineFault) → result ≡ Err f → f ≢ LineFault.Memory →
        AreAtFault (kinds_of verbs.Sample) (T.texts rest) f }
{
    let (max, (pct, (classes, (words, ())))) = read_fields::<
        T,
        (Number, (Between<0, 100>, (AddrClasses, (Random, ())))),
    >(alloc, rest)?;
    Ok(Command::Sample {
        max,
        pct,
        classes,
        words,
    })
}
