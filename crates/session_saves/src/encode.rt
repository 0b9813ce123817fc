//! `encode`: the bytes of `peers.dat` for the tables as they are.

ghost use Rattle.std.specs.Prelude.{◌≡◌, IfOk};
ghost use Rattle.session_saves.specs.Files.{file_of};

use host_io::Bytes;
use peers_file::{Chain, write_file};
use std::alloc::Global;
use std::hash::BuildHasher;
use std::sync::ledger::{Blank, Ledger};
use steps::Steps;
use tables::{Memory, Tables};

/// Returns the file of the tables as they are. Its steps are counted, and nobody reads how many.
pub(crate) fn encode<L: Ledger, H: BuildHasher>(
    alloc: Global,
    tables: &Tables<'_, H>,
    chain: Chain,
    blank: Blank,
) -> Result<Bytes, Memory>
    requires name { blank.name ≡ L.name }
    requires parts { blank.parts ≡ L.parts }
    requires one { blank.parts ≡ 1 }
    ensures { IfOk result (λ bytes. bytes ≡ file_of chain tables.now) }
{
    let mut steps = Steps::<L>::none(blank);
    let snapshot = tables.snapshot(&mut steps)?;
    match write_file(alloc, &snapshot, chain) {
        Ok(bytes) => Ok(bytes),
        Err(_) => Err(Memory),
    }
}
