//! `add_outbound` and `OutboundFault`: refused if ten are open, or one in its group.

ghost use Rattle.std.specs.Prelude.{◌≡◌, ◌≤◌, ◌<◌, ◌↔◌, length, Contains, Err, OnOk, OnErr};
ghost use Rattle.placing.specs.Places.{group};
ghost use Rattle.peer_open.specs.Groups.{groups, with_peer};
ghost use Rattle.peer_open.specs.declared.opener.TheConstants.{MAX_OUTBOUND};

use net_addr::Peer;
use peer_open::{MAX_OUTBOUND, Opener, Verdict};
use placing::Placer;

/// Why a peer is not noted as open.
#[derive(Clone, Copy, Debug, PartialEq, Eq)]
pub enum OutboundFault {
    /// Ten peers are open.
    Full,
    /// A peer of its network group is open.
    SameGroup,
}

/// Notes that an outbound connection to a peer was opened (`Opener::add_peer`). After an error
/// nothing has changed.
pub fn add_outbound(
    opener: &mut Opener,
    placer: &Placer<'_>,
    peer: &Peer,
) -> Result<(), OutboundFault>
    ensures open { OnOk result (opener.new
        ≡ with_peer peer.now (group placer.now peer.now.addr) opener.old) }
    ensures full { result ≡ Err OutboundFault.Full ↔ MAX_OUTBOUND ≤ length opener.old }
    ensures group { result ≡ Err OutboundFault.SameGroup ↔ (length opener.old < MAX_OUTBOUND)
        × Contains (groups opener.old) (group placer.now peer.now.addr) }
    ensures err { OnErr result (opener.new ≡ opener.old) }
{
    if opener.len() == MAX_OUTBOUND {
        return Err(OutboundFault::Full);
    }
    let group = placer.group(&peer.addr);
    if opener.judge(group.as_slice(), 0, 0, 1) == Verdict::SameGroup {
        return Err(OutboundFault::SameGroup);
    }
    opener.add_peer(*peer, group);
    Ok(())
}
