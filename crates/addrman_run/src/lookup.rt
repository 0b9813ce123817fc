//! `lookup`: the line with AS number and group.

ghost use Rattle.std.specs.Prelude.{◌≡◌, ◌++◌, OnOk};
ghost use Rattle.placing.specs.Inside.{asmap_of};
ghost use Rattle.addrman_run.specs.Asmaps.{IsAsmapLine, ReportsAsmap};
ghost use Rattle.addrman_run.specs.Lookup.{lookup_text};
ghost use Rattle.addrman_run.specs.declared.input.Input.TheVariants as input;

use crate::file_line::{FileLine, Refusal};
use crate::input::Input;
use asmap_vm::{Sane, check};
use net_addr::{Memory, NetAddr, Peer, put_hex, put_number, put_text};
use net_group::group;
use placing::number_of;
use std::alloc::Global;

/// The command that says which number and group a peer's address has.
#[derive(Drop)]
pub(crate) struct Lookup {
    pub(crate) peer: Peer,
}

impl FileLine for Lookup {
    ghost file = { λ _. input.Asmap };

    ghost is_line = { λ lookup. IsAsmapLine (λ asmap. lookup_text asmap lookup.peer.addr) };

    ghost refuses = { λ _. ReportsAsmap };

    fn input(&self) -> Input {
        Input::Asmap
    }

    fn line_of(&self, alloc: Global, bytes: &[u8]) -> Result<Vec<u8>, Refusal> {
        let asmap = match check(bytes) {
            Ok(asmap) => asmap,
            Err(fault) => return Err(Refusal::Asmap(fault)),
        };
        let mut line = Vec::new(alloc);
        match put_lookup(&asmap, &self.peer.addr, &mut line) {
            Ok(()) => Ok(line),
            Err(_) => Err(Refusal::Memory),
        }
    }
}

/// Appends the line about an address: the number that an asmap gives it, and its group. After
/// `Memory` the list may end in a part of the line.
#[tactic(auto, unfolding(crate::specs::Lookup::lookup_text))]
pub(crate) fn put_lookup(asmap: &Sane<'_>, addr: &NetAddr, out: &mut Vec<u8>) -> Result<(), Memory>
    ensures { OnOk result (out.new.items
        ≡ out.old.items ++ lookup_text (asmap_of asmap.now) addr.now) }
{
    let number = number_of(asmap, addr);
    put_number(b"asn ", u64::from(number), out)?;
    put_hex(b" group ", group(addr, number).as_slice(), out)?;
    put_text(b"\n", out)
}
