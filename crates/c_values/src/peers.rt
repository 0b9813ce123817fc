//! Writes peers to an output.

ghost use Rattle.std.specs.Prelude.{◌≡◌, ◌≢◌, ◌≤◌, length, drop};
ghost use Rattle.c_values.specs.Records.{ArePeers, PeersPut};

use crate::code::{OK, SHORT_BUFFER};
use crate::values::{AddrmanPeer, write_peer};
use net_addr::Peer;

/// Writes peers to the start of an output that has room for them.
fn put_start(out: &mut [AddrmanPeer], peers: &[Peer])
    requires { length peers.now ≤ length out.old }
    ensures told { ArePeers out.new peers.now }
    ensures rest { drop (length peers.now) out.new ≡ drop (length peers.now) out.old }
{
    for i in 0..peers.len() {
        out[i] = write_peer(&peers[i]);
    }
}

/// Writes peers, whole or not at all, and how many they are.
pub fn put_peers(out: &mut [AddrmanPeer], peers: &[Peer], length: &mut usize) -> u32
    ensures call { PeersPut peers.now result out.old out.new length.new }
    ensures same { result ≢ OK → out.new ≡ out.old }
{
    *length = peers.len();
    if peers.len() > out.len() {
        return SHORT_BUFFER;
    }
    put_start(out, peers);
    OK
}
