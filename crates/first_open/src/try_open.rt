//! `try_open`: one try of an outbound connection.

ghost use Rattle.std.specs.Prelude.{◌≡◌, IfSome, IfNone};
ghost use Rattle.placing.specs.Places.{group};
ghost use Rattle.peer_open.specs.Groups.{AreApart, with_peer};
ghost use Rattle.first_open.specs.Taken.{IsNoneTaken, IsTaken};

use net_addr::{NetSet, Peer};
use node_calls::select;
use peer_open::{MAX_OUTBOUND, Opener, Verdict};
use picking::Picked;
use placing::Placer;
use std::hash::BuildHasher;
use tables::Tables;

/// Makes one try for an outbound connection, at a time in seconds since 1970: picks a peer by the
/// random words, and adds it to the open ones if the rules take it in the try of this number, the
/// first of which is 1. Returns `None` if they do not, if no peer is picked, or if ten are open.
pub(crate) fn try_open<H: BuildHasher>(
    tables: &Tables<'_, H>,
    placer: &Placer<'_>,
    opener: &mut Opener,
    words: &[u64],
    now: u32,
    tries: u32,
) -> Option<Peer>
    ensures taken { IfSome result (λ peer.
        IsTaken tables.now placer.now opener.old words.now now tries peer) }
    ensures open { IfSome result (λ peer.
        opener.new ≡ with_peer peer (group placer.now peer.addr) opener.old) }
    ensures same { IfNone result (opener.new ≡ opener.old) }
    ensures none { IfNone result
        (IsNoneTaken tables.now placer.now opener.old words.now now tries) }
    ensures apart { AreApart opener.new }
{
    if opener.len() == MAX_OUTBOUND {
        return None;
    }
    let Picked::One(peer, last_try) = select(tables, false, NetSet::all(), words, now) else {
        return None;
    };
    let group = placer.group(&peer.addr);
    if opener.judge(group.as_slice(), last_try, now, tries) != Verdict::Take {
        return None;
    }
    opener.add_peer(peer, group);
    Some(peer)
}
