//! `OpenerLines` reads the fields of a line.

ghost use Rattle.std.specs.Prelude.{◌≡◌, ◌≢◌, ◌↔◌, ◌⊎◌, IfOk, IfSome, Some, None, Ok, Err, ⊤};
ghost use Rattle.host_io.specs.Lines.{IsPassedOver};
ghost use Rattle.grammar.specs.declared.fault.LineFault.{LineFault};
ghost use Rattle.opener_lines.specs.Grammar.{LineAsks, AsksAfter, AsksBy, FaultAfter, FaultBy, HasRequestFault};
ghost use Rattle.opener_lines.specs.Laws.{no_fault, one_asked, one_fault};
ghost use Rattle.opener_lines.specs.declared.command.OpenerCommand.{OpenerCommand};

use crate::command::KEYWORDS;
use crate::{OpenerCommand, OpenerWord};
use grammar::{
    Between, Grammar, LineFault, LongBetween, OnePeer, Texts, find_keyword, read_fields, read_line,
};
use log_lines::read_command;
use std::alloc::Global;

/// The grammar of the lines of an opener's log.
pub(crate) struct OpenerLines;

impl<T: Texts> Grammar<T> for OpenerLines {
    type Said = OpenerCommand;

    ghost says = { AsksAfter };

    ghost at_fault = { FaultAfter };

    ghost can_run_out = { ⊤ };

    ghost one_said = { one_asked };

    ghost one_fault = { one_fault };

    ghost right = { no_fault };

    fn read_after(alloc: Global, word: &[u8], rest: T) -> Result<OpenerCommand, LineFault> {
        match find_keyword(&KEYWORDS, word) {
            Some(verb) => read_asked(alloc, verb, rest),
            None => Err(LineFault::Word),
        }
    }
}

/// Reads what a line of an opener's log asks for, or returns `None` for a line that is passed over.
/// The line has no line feed.
pub fn read_request(alloc: Global, line: &[u8]) -> Result<Option<OpenerCommand>, LineFault>
    ensures passed { result ≡ Ok None ↔ IsPassedOver line.now }
    ensures found { IfOk result (λ read. IfSome read (λ asked. LineAsks line.now asked)) }
    ensures only { (asked : OpenerCommand) → LineAsks line.now asked →
        (result ≡ Ok (Some asked)) ⊎ (result ≡ Err LineFault.Memory) }
    ensures fault { (f : LineFault) → result ≡ Err f → f ≢ LineFault.Memory →
        HasRequestFault line.now f }
    ensures only_fault { (f : LineFault) → HasRequestFault line.now f →
        (result ≡ Err f) ⊎ (result ≡ Err LineFault.Memory) }
{
    read_line::<OpenerLines>(alloc, line)
}

/// Reads the fields after a keyword.
fn read_asked<T: Texts>(
    alloc: Global,
    verb: OpenerWord,
    rest: T,
) -> Result<OpenerCommand, LineFault>
    ensures found { IfOk result (AsksBy (Some verb) (T.texts rest)) }
    ensures fault { (f : LineFault) → result ≡ Err f → f ≢ LineFault.Memory →
        FaultBy (Some verb) (T.texts rest) f }
{
    match verb {
        OpenerWord::Outbound => {
            let (seed, ()) = read_fields::<T, (Between<0, { u32::MAX }>, ())>(alloc, rest)?;
            Ok(OpenerCommand::Outbound { seed })
        }
        OpenerWord::Feeler => {
            let (seed, (word, ())) = read_fields::<
                T,
                (Between<0, { u32::MAX }>, (LongBetween<0, { u64::MAX }>, ())),
            >(alloc, rest)?;
            Ok(OpenerCommand::Feeler { seed, word })
        }
        OpenerWord::Close => {
            let (peer, ()) = read_fields::<T, (OnePeer, ())>(alloc, rest)?;
            Ok(OpenerCommand::Close { peer })
        }
        OpenerWord::Log(verb) => {
            let command = read_command(alloc, verb, rest)?;
            Ok(OpenerCommand::Machine(command))
        }
    }
}
