//! Prints a peer between two texts.

ghost use Rattle.std.specs.Prelude.{◌≡◌, ◌++◌, take, vec_len, OnOk};
ghost use Rattle.net_addr.specs.Text.{peer_text};

use net_addr::{Memory, Peer, put_peer, put_text};

/// Appends a peer between two texts. After `Memory` a part of them may be in the list.
pub fn put_peer_between(
    word: &[u8],
    peer: &Peer,
    after: &[u8],
    out: &mut Vec<u8>,
) -> Result<(), Memory>
    ensures text { OnOk result (out.new.items ≡
        out.old.items ++ word.now ++ peer_text peer.now ++ after.now) }
    ensures kept { take (vec_len out.old) out.new.items ≡ out.old.items }
{
    put_text(word, out)?;
    put_peer(peer, out)?;
    put_text(after, out)
}
