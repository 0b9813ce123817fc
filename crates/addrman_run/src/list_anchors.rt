//! `show --anchors`, the listing of a file of anchors.

ghost use Rattle.addrman_run.specs.Anchors.{IsAnchorsText, ReportsAnchors};
ghost use Rattle.addrman_run.specs.declared.input.Input.TheVariants as input;

use crate::file_line::{FileLine, Refusal};
use crate::input::Input;
use anchors::{AnchorsFault, anchors_text, read_file};
use peers_file::Chain;
use std::alloc::Global;

/// The command that lists the anchors in the file in the place of peers.dat.
#[derive(Drop)]
pub(crate) struct ListAnchors {
    /// The chain that the file has to be of.
    pub(crate) chain: Chain,
}

impl FileLine for ListAnchors {
    ghost file = { λ _. input.Anchors };

    ghost is_line = { λ list. IsAnchorsText list.chain };

    ghost refuses = { λ list. ReportsAnchors list.chain };

    fn input(&self) -> Input {
        Input::Anchors
    }

    fn line_of(&self, alloc: Global, bytes: &[u8]) -> Result<Vec<u8>, Refusal> {
        let anchors = match read_file(alloc, bytes, self.chain.magic()) {
            Ok(anchors) => anchors,
            Err(AnchorsFault::Memory) => return Err(Refusal::Memory),
            Err(fault) => return Err(Refusal::Anchors(fault)),
        };
        match anchors_text(alloc, anchors.items()) {
            Ok(text) => Ok(text),
            Err(_) => Err(Refusal::Memory),
        }
    }
}
