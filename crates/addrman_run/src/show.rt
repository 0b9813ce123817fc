//! `show`: the listing of `peers.dat`.

ghost use Rattle.addrman_run.specs.Show.{IsShowText, ReportsPeers};
ghost use Rattle.addrman_run.specs.declared.input.Input.TheVariants as input;

use crate::PeersFault;
use crate::file_line::{FileLine, Refusal};
use crate::input::Input;
use peers_file::{Chain, FileFault, read_file, snapshot_text};
use std::alloc::Global;

/// The command that lists what peers.dat has. It does not restore the tables, so two records may
/// have the same peer.
#[derive(Drop)]
pub(crate) struct Show {
    /// Whether the key is listed.
    pub(crate) keyed: bool,
    /// The chain that the file has to be of.
    pub(crate) chain: Chain,
}

impl FileLine for Show {
    ghost file = { λ _. input.Peers };

    ghost is_line = { λ show. IsShowText show.keyed show.chain };

    ghost refuses = { λ show. ReportsPeers show.chain };

    fn input(&self) -> Input {
        Input::Peers
    }

    fn line_of(&self, alloc: Global, bytes: &[u8]) -> Result<Vec<u8>, Refusal> {
        let snap = match read_file(alloc, bytes, self.chain) {
            Ok(snap) => snap,
            Err(FileFault::Memory) => return Err(Refusal::Memory),
            Err(fault) => return Err(Refusal::Peers(PeersFault::File(fault))),
        };
        match snapshot_text(alloc, self.keyed, &snap) {
            Ok(text) => Ok(text),
            Err(_) => Err(Refusal::Memory),
        }
    }
}
