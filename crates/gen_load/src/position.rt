//! `Position`, the generator and the clock: draws peers and entries, with `PEERS` and `DAY`.

ghost use Rattle.std.specs.Prelude.{◌≡◌, ◌<◌};
ghost use Rattle.net_addr.specs.declared.net.Net.TheVariants.{Ipv4};
ghost use Rattle.gen_load.specs.Log.{peer_of};

use net_addr::{Entry, NetAddr, Peer};
use rand_core::utils::NextWord;
use rand_xoshiro::Xoshiro256PlusPlus;

/// How many peers there are.
const PEERS: u64 = 16_384;

/// Seconds: an entry's time is less than this before the clock.
const DAY: u64 = 86_400;

/// Where a log is: its random words to come, and its clock in seconds since 1970.
#[derive(Clone, Drop)]
pub struct Position {
    pub generator: Xoshiro256PlusPlus,
    pub time: u32,
}

impl Position {
    ghost use Rattle.std.specs.Prelude.{◌≡◌, ◌≤◌, ◌<◌};
    ghost use Rattle.net_addr.specs.declared.net.Net.TheVariants.{Ipv4};
    ghost use Rattle.gen_load.specs.Log.{draw, past, draw_peer, draw_entry};

    /// Returns the next random word modulo `limit`.
    pub fn draw(&mut self, limit: u64) -> u64
        requires { 0 < limit }
        ensures value { result ≡ draw limit self.old }
        ensures small { result < limit }
        ensures past { self.new ≡ past self.old }
        ensures time { self.new.time ≡ self.old.time }
    {
        self.generator.next_word() % limit
    }

    /// Returns a peer, by one random word.
    pub fn draw_peer(&mut self) -> Peer
        ensures value { result ≡ draw_peer self.old }
        ensures network { result.addr.net ≡ Ipv4 }
        ensures past { self.new ≡ past self.old }
        ensures time { self.new.time ≡ self.old.time }
    {
        let number = self.draw(PEERS);
        peer_of(number)
    }

    /// Returns an entry of a message, by two random words: for its time and for its peer.
    pub fn draw_entry(&mut self) -> Entry
        requires { 86400 ≤ self.old.time }
        ensures value { result ≡ draw_entry self.old }
        ensures network { result.peer.addr.net ≡ Ipv4 }
        ensures past { self.new ≡ past (past self.old) }
        ensures time { self.new.time ≡ self.old.time }
    {
        let age = self.draw(DAY) as u32;
        let peer = self.draw_peer();
        Entry {
            time: self.time - age,
            services: 1,
            peer,
        }
    }
}

/// Returns the peer of a number.
pub fn peer_of(number: u64) -> Peer
    requires { number < 16384 }
    ensures value { result ≡ peer_of number }
    ensures network { result.addr.net ≡ Ipv4 }
{
    let first = 20 + (number % 64) as u8;
    let second = (number / 64) as u8;
    Peer {
        addr: NetAddr::ipv4([first, second, 1, 1]),
        port: 8333,
    }
}
