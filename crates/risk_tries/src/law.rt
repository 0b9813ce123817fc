//! Of the lists of tries, the share that opens all outbound connections to peers of one set.

ghost use Rattle.std.specs.Prelude.{◌≡◌, ℕ, ◌*◌, ◌^◌, ◌≤◌, Bool, List, map};
ghost use Rattle.net_addr.specs.declared.peer.Peer.{Peer};
ghost use Rattle.risk_tries.specs.TenBound.{group_share, ten_bound, whole_of};
ghost use Rattle.risk_tries.specs.Tries.{AreGroupsOf, all_theirs};
ghost use Rattle.table_machine.specs.Sound.{IsSound};
ghost use Rattle.table_machine.specs.State.{State};

use crate::TRY_LISTS;

/// The bound is computed as a part of so many lists.
pub fn limits()
    ensures { TRY_LISTS ≡ 2 ^ 62 }
{}

/// Of the lists of m tries, each of n random words of 64 bits, at most this part opens all outbound
/// connections to peers of a set. It is a product over the connections: of the picks of groups that
/// no open peer is in, those of the set's groups. Each quotient is rounded up.
///
/// A try picks from both tables and takes its peer unless an open one is in its group. Let P(g) / W
/// bound the part of the picks that returns a peer of the group g, and let these add up to S / W
/// over the groups of the set's peers. The bound is the product of (S - s(i)) / (W - s(i)) over the
/// i = 0 to 9 peers that are open, where s(i) is the least sum of P of i of the groups. It is 1 if
/// the parts add up to W or more, and else 0 if the set has fewer than ten groups. It is never more
/// than all lists (`whole`). A group counts with all its peers. Tries that run out of words before
/// ten peers are open, or find no peer, count for nobody. Left out are: that a recently tried peer
/// waits for the 31st try, since no try is known after a restart; connections that fail; the limit
/// of 100 tries; anchors, block-relay-only connections and feelers. Tables and time are the same in
/// all tries.
///
/// An example: the tried table is empty, and the new one has eleven records in eleven buckets, each
/// in a group of its own and without failures, ten of them in the set. Each has 1/11 of the picks.
/// The first pick is one of the ten for 10/11 of the lists, the second of another group for 9/10 of
/// those, and so on to 1/2 for the tenth: 1/11 in all. With nine of them in the set it is 0.
pub fn tries_are_bounded()
    ensures part { (st : State) (now n m unit : ℕ) (theirs : Peer → Bool) (groups : List (List ℕ)) →
        IsSound st → AreGroupsOf st theirs groups →
        all_theirs st now theirs n m * unit
        ≤ ((2 ^ 64) ^ n) ^ m * ten_bound (map (group_share st now) groups) (whole_of st) unit }
    ensures whole { (st : State) (now n m : ℕ) (theirs : Peer → Bool) →
        all_theirs st now theirs n m ≤ ((2 ^ 64) ^ n) ^ m }
{}
