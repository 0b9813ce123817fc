//! `By`: what makes records one group, which is the source, the peer or the network.
//!
//! A group by source is that of the record's first source, in both tables: the question is whose
//! word the node takes. Each group is counted once for every start that leads to a record of its
//! own.

ghost use Rattle.std.specs.Prelude.{◌≡◌};
ghost use Rattle.table_risk.specs.Grouping.{group_by};

use peer_rec::Rec;
use placing::Placer;
use table_groups::Group;

/// What makes records one group.
#[derive(Clone, Copy)]
pub enum By {
    /// The group of the address that first announced the peer.
    Source,
    /// The group of the peer's own address.
    Peer,
    /// The network of the peer's address.
    Network,
}

impl By {
    /// Returns the bytes of a record's group.
    pub fn group(self, placer: &Placer<'_>, rec: &Rec) -> Group
        ensures { result.items ≡ group_by self placer.now rec.now }
    {
        match self {
            By::Source => placer.group(&rec.source),
            By::Peer => placer.group(&rec.peer.addr),
            By::Network => network_group(rec),
        }
    }
}

ghost use Rattle.table_risk.specs.Grouping.{network_group};

/// Returns the group of the network of a record: the number of the network, a byte.
fn network_group(rec: &Rec) -> Group
    ensures { result.items ≡ network_group rec.now }
{
    let mut group = Group::new();
    group.push(rec.network().number());
    group
}
