//! Laws: parts are bounds, and they last; the limits as numbers.

ghost use Rattle.std.specs.Prelude.{◌≡◌, ℕ, ◌*◌, ◌^◌, ◌≤◌, Bool, true, false};
ghost use Rattle.net_addr.specs.NetSet.{all};
ghost use Rattle.net_addr.specs.declared.peer.Peer.{Peer};
ghost use Rattle.peer_rec.specs.Snapshot.{Snapshot};
ghost use Rattle.placing.specs.Places.{Places};
ghost use Rattle.risk_laws.specs.Lists.{searching_lists, selecting_lists};
ghost use Rattle.risk_parts.specs.Parts.{HasNoTries, parts_for};
ghost use Rattle.risk_parts.specs.declared.parts.TheConstants.{AHEAD, MILLION, WHOLE};
ghost use Rattle.table_machine.specs.Picks.{first_factor};
ghost use Rattle.table_machine.specs.Restoring.{restored};
ghost use Rattle.table_machine.specs.Sound.{IsSound};
ghost use Rattle.table_machine.specs.State.{State};

use crate::{AHEAD, MILLION, WHOLE};

/// How many refusals of a search are looked ahead, and which parts are computed and printed.
pub fn limits()
    ensures ahead { AHEAD ≡ 48 }
    ensures whole { WHOLE ≡ 2 ^ 64 }
    ensures million { MILLION ≡ 10 ^ 6 }
{}

/// Of the (2^64)^n lists of n random words, for every n, `select` returns a peer of a set for at
/// most the part that its parts say, in parts of a million: from both tables, or from the new one
/// only. A search of the tried table ends at one for at most the part `tried`.
///
/// `picks` is about any table, and `new` about the new one only, of records of all networks.
/// `parts_among` computes the parts for the peers that have an address in some sets.
pub fn parts_are_bounds()
    ensures picks { (st : State) (now n : ℕ) (theirs : Peer → Bool) → IsSound st →
        selecting_lists st false all now theirs n * 10 ^ 6
        ≤ (2 ^ 64) ^ n * (parts_for st now theirs).picks }
    ensures new { (st : State) (now n : ℕ) (theirs : Peer → Bool) → IsSound st →
        selecting_lists st true all now theirs n * 10 ^ 6
        ≤ (2 ^ 64) ^ n * (parts_for st now theirs).new }
    ensures tried { (st : State) (now n : ℕ) (theirs : Peer → Bool) → IsSound st →
        searching_lists st false all now theirs first_factor n * 10 ^ 6
        ≤ (2 ^ 64) ^ n * (parts_for st now theirs).tried }
{}

/// Tables that are restored from a file know of no try, and then the parts are the same at any time
/// from 600 seconds since 1970 on.
pub fn parts_last()
    ensures file { (snap : Snapshot) (places : Places) → HasNoTries (restored snap places) }
    ensures later { (st : State) (now later : ℕ) (theirs : Peer → Bool) → HasNoTries st →
        600 ≤ now → 600 ≤ later → parts_for st later theirs ≡ parts_for st now theirs }
{}
