//! `Counts`: the number of records of each network in each table, kept up to date.

ghost use Rattle.std.specs.Prelude.{◌≡◌, ◌<◌, ◌≤◌, ◌^◌, ℕ, true, get_or, cond};
ghost use Rattle.net_addr.specs.Address.{net_number};
ghost use Rattle.net_addr.specs.NetSet.{has};
ghost use Rattle.peer_index.specs.Inside.{AreOneMore, IsOneMore, sum_over, taken};
ghost use Rattle.peer_rec.specs.Rec.{network};

use net_addr::{Net, NetSet};
use peer_rec::Rec;

/// How many records each table has of each network, by the number of the network.
#[derive(Drop)]
pub(crate) struct Counts {
    pub(crate) in_new: [u32; 7],
    pub(crate) in_tried: [u32; 7],
}

impl Counts {
    /// Returns the counts of no records.
    pub(crate) fn none() -> Counts
        ensures new { (number : ℕ) → get_or result.in_new number 0 ≡ 0 }
        ensures tried { (number : ℕ) → get_or result.in_tried number 0 ≡ 0 }
    {
        Counts {
            in_new: [0; 7],
            in_tried: [0; 7],
        }
    }

    /// Counts one more record.
    pub(crate) fn raise(&mut self, net: Net, tried: bool)
        requires new { get_or self.old.in_new (net_number net) 0 ≤ 2 ^ 31 }
        requires tried { get_or self.old.in_tried (net_number net) 0 ≤ 2 ^ 31 }
        ensures { AreOneMore self.old self.new (net_number net) tried }
    {
        if tried {
            raise(&mut self.in_tried, net);
        } else {
            raise(&mut self.in_new, net);
        }
    }

    /// Counts one record less.
    pub(crate) fn lower(&mut self, net: Net, tried: bool)
        requires some { 0 < cond tried (get_or self.old.in_tried (net_number net) 0)
            (get_or self.old.in_new (net_number net) 0) }
        ensures { AreOneMore self.new self.old (net_number net) tried }
    {
        if tried {
            lower(&mut self.in_tried, net);
        } else {
            lower(&mut self.in_new, net);
        }
    }
}

/// Adds one to the count of a network.
fn raise(counts: &mut [u32; 7], net: Net)
    requires { get_or counts.old (net_number net) 0 ≤ 2 ^ 31 }
    ensures { IsOneMore counts.old counts.new (net_number net) true }
{
    counts[usize::from(net.number())] += 1;
}

/// Takes one from the count of a network.
fn lower(counts: &mut [u32; 7], net: Net)
    requires { 0 < get_or counts.old (net_number net) 0 }
    ensures { IsOneMore counts.new counts.old (net_number net) true }
{
    counts[usize::from(net.number())] -= 1;
}

/// Returns the counts of the networks of a set, added up.
pub(crate) fn sum(counts: &[u32; 7], nets: NetSet) -> usize
    ensures { result ≡ sum_over nets counts.now }
{
    count_in(counts, nets, Net::Unroutable)
        + count_in(counts, nets, Net::Ipv4)
        + count_in(counts, nets, Net::Ipv6)
        + count_in(counts, nets, Net::Onion)
        + count_in(counts, nets, Net::I2p)
        + count_in(counts, nets, Net::Cjdns)
        + count_in(counts, nets, Net::Internal)
}

/// Returns the count of a network if it is in the set, else 0.
fn count_in(counts: &[u32; 7], nets: NetSet, net: Net) -> usize
    ensures value { result ≡ taken (has nets net) (get_or counts.now (net_number net) 0) }
    ensures small { result < 2 ^ 32 }
{
    if nets.has(net) {
        counts[usize::from(net.number())] as usize
    } else {
        0
    }
}
