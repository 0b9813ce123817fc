//! `Grouping`: what makes records one group for `risk`, which is `source`, `peer` or `network`.

ghost use Rattle.std.specs.Prelude.{◌≡◌, map, string_bytes, Some, IfSome};
ghost use Rattle.arguments.specs.Options.{IsAfterGrouping, grouping_word};
ghost use Rattle.arguments.specs.declared.grouping.Grouping.{Grouping};
ghost use Rattle.peers_file.specs.declared.chain.Chain.{Chain};

use crate::options::{first_word, read_net};
use grammar::{Keyword, find_keyword};
use peers_file::Chain;

/// What makes records one group.
#[derive(Clone, Copy)]
pub enum Grouping {
    /// The group of the address that first announced the peer.
    Source,
    /// The group of the peer's own address.
    Peer,
    /// The network of the peer's address.
    Network,
}

/// All of them, each once.
pub const GROUPINGS: [Grouping; 3] = [Grouping::Source, Grouping::Peer, Grouping::Network];

impl Keyword for Grouping {
    ghost word = { grouping_word };

    fn word(self) -> &'static [u8] {
        match self {
            Grouping::Source => b"source",
            Grouping::Peer => b"peer",
            Grouping::Network => b"network",
        }
    }
}

/// Reads what makes records one group, and after it the arguments that choose a chain.
pub(crate) fn read_after_grouping(words: &[String]) -> Option<(Grouping, Chain)>
    ensures found { IfSome result (λ o. IsAfterGrouping o.0 (map string_bytes words.now) o.1) }
    ensures only { (by : Grouping) (chain : Chain) →
        IsAfterGrouping by (map string_bytes words.now) chain → result ≡ Some (by, chain) }
{
    let Some((word, rest)) = first_word(words) else {
        return None;
    };
    let Some(by) = find_keyword(&GROUPINGS, word) else {
        return None;
    };
    match read_net(rest) {
        Some(chain) => Some((by, chain)),
        None => None,
    }
}
