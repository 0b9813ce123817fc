//! `check`: the size of `asmap.dat`.

ghost use Rattle.std.specs.Prelude.{IfOk, ◌≡◌};
ghost use Rattle.placing.specs.Inside.{asmap_of};
ghost use Rattle.addrman_run.specs.Asmaps.{IsAsmapLine, ReportsAsmap};
ghost use Rattle.addrman_run.specs.Check.{check_text};
ghost use Rattle.addrman_run.specs.declared.input.Input.TheVariants as input;

use crate::file_line::{FileLine, Refusal};
use crate::input::Input;
use asmap_vm::{Sane, check};
use net_addr::{Memory, put_number, put_text};
use std::alloc::Global;

/// The command that says how many bytes asmap.dat has.
#[derive(Drop)]
pub(crate) struct Check;

impl FileLine for Check {
    ghost file = { λ _. input.Asmap };

    ghost is_line = { λ _. IsAsmapLine check_text };

    ghost refuses = { λ _. ReportsAsmap };

    fn input(&self) -> Input {
        Input::Asmap
    }

    fn line_of(&self, alloc: Global, bytes: &[u8]) -> Result<Vec<u8>, Refusal> {
        match check(bytes) {
            Ok(asmap) => line_of(alloc, &asmap).map_err(|_| Refusal::Memory),
            Err(fault) => Err(Refusal::Asmap(fault)),
        }
    }
}

/// Returns the line with the size of an asmap.
fn line_of(alloc: Global, asmap: &Sane<'_>) -> Result<Vec<u8>, Memory>
    ensures { IfOk result (λ line. line.items ≡ check_text (asmap_of asmap.now)) }
{
    let mut text = Vec::new(alloc);
    put_number(b"sane ", asmap.code().len() as u64, &mut text)?;
    put_text(b" bytes\n", &mut text)?;
    Ok(text)
}
