//! Up to 100 tries, each a pick and a verdict, with `Outcome` and `TRY_WORDS`.

ghost use Rattle.std.specs.Prelude.{◌≡◌, ◌<◌, ℕ, Option, IfSome, IfNone, if◌then◌else◌};
ghost use Rattle.net_addr.specs.declared.peer.Peer as peers;
ghost use Rattle.opener_lines.specs.Tries.{counted, is_passed, pick_of_feeler, pick_of_try, services_of, HasOutcome, Next, Take, ToKeep, ToTest, try_by, try_of_peer};
ghost use Rattle.opener_lines.specs.Inside.{Finds};

use arrayvec::ArrayVec;
use manager::Manager;
use net_addr::{NetSet, Peer};
use peer_open::{MAX_COUNTED, MAX_TRIES, OpenRules, Opener, Verdict};
use picking::{Picked, select_by};
use random_words::Draws;
use std::hash::BuildHasher;
use std::sync::ledger::Ledger;
use steps::Steps;

/// The number of random words of a try.
pub const TRY_WORDS: u64 = 10_000;

/// Returns the pick of a feeler's try: in the first the occupant, if there is one, and else a peer
/// of the new table. The occupant comes with the time when it was last tried, in seconds since
/// 1970.
pub(crate) fn pick_of_feeler<H: BuildHasher, L: Ledger>(
    manager: &Manager<'_, H>,
    occupant: &Option<(Peer, u32)>,
    seed: u32,
    number: u32,
    steps: &mut Steps<L>,
) -> Picked
    ensures { result ≡ pick_of_feeler manager.now occupant.now seed number }
{
    match occupant {
        None => pick_of_try(manager, true, seed, number, steps),
        Some((peer, last_try)) => {
            if number == 1 {
                Picked::One(*peer, *last_try)
            } else {
                pick_of_try(manager, true, seed, number, steps)
            }
        }
    }
}

/// Returns the pick of the try of this number, from the new table only or from both. The random
/// words are taken as they are needed.
pub(crate) fn pick_of_try<H: BuildHasher, L: Ledger>(
    manager: &Manager<'_, H>,
    new_only: bool,
    seed: u32,
    number: u32,
    steps: &mut Steps<L>,
) -> Picked
    ensures { result ≡ pick_of_try manager.now new_only seed number }
{
    let words = Draws::seeded(u64::from(seed) + u64::from(number), TRY_WORDS);
    let (tables, now) = (manager.tables(), manager.clock());
    select_by(tables, new_only, NetSet::all(), words, now, steps)
}

/// What all tries come to.
#[derive(Clone, Copy, Debug, PartialEq, Eq)]
pub enum Outcome {
    /// The try of this number took the peer.
    Taken { peer: Peer, tries: u32 },
    /// There is no peer to take.
    Nothing,
    /// No try decided.
    GaveUp,
}

/// The same of an outbound connection, with the group that the peer counts in.
#[derive(Drop)]
pub(crate) enum Found {
    Taken {
        peer: Peer,
        group: ArrayVec<u8, MAX_COUNTED>,
        tries: u32,
    },
    Nothing,
    GaveUp,
}

/// Returns the services of a peer, 0 if it has no record.
fn services_of<H: BuildHasher, L: Ledger>(
    manager: &Manager<'_, H>,
    peer: &Peer,
    steps: &mut Steps<L>,
) -> u64
    ensures { result ≡ services_of manager.now.tables peer.now }
{
    match manager.tables().find(peer, steps) {
        Some(rec) => rec.services,
        None => 0,
    }
}

/// Returns the group that a peer counts in, which the try of this number picked for an outbound
/// connection, if the try takes it.
fn group_if_taken<H: BuildHasher, L: Ledger>(
    rules: &OpenRules,
    manager: &Manager<'_, H>,
    opener: &Opener,
    peer: &Peer,
    last_try: u32,
    number: u32,
    steps: &mut Steps<L>,
) -> Option<ArrayVec<u8, MAX_COUNTED>>
    ensures group { IfSome result (λ group.
        group.items ≡ counted rules.now manager.now.tables.places peer.now) }
    ensures taken { IfSome result (λ group.
        try_of_peer rules.now manager.now opener.now ToKeep number peer.now last_try
        ≡ Take peer.now) }
    ensures next { IfNone result
        (try_of_peer rules.now manager.now opener.now ToKeep number peer.now last_try ≡ Next) }
{
    let services = services_of(manager, peer, steps);
    let is_passed = rules.lacks_services(services) || rules.has_bad_port(peer, number);
    if is_passed {
        return None;
    }
    let group = manager.tables().placer().group(&peer.addr);
    let group = rules.counted_group(&peer.addr, &group);
    let now = manager.clock();
    match opener.judge(group.as_slice(), last_try, now, number) {
        Verdict::Take => Some(group),
        Verdict::SameGroup => None,
        Verdict::Recent => None,
    }
}

/// Returns `true` if the try of this number, which picked the peer for a connection that tests it,
/// takes it. The occupant is that of the tries.
fn is_taken<H: BuildHasher, L: Ledger>(
    rules: &OpenRules,
    manager: &Manager<'_, H>,
    opener: &Opener,
    peer: &Peer,
    last_try: u32,
    number: u32,
    steps: &mut Steps<L>,
) -> bool
    ensures { (occupant : Option (peers.Peer × ℕ)) →
        try_of_peer rules.now manager.now opener.now (ToTest occupant) number peer.now last_try
        ≡ (if result then Take peer.now else Next) }
{
    let services = services_of(manager, peer, steps);
    let is_passed = rules.lacks_useful_services(services) || rules.has_bad_port(peer, number);
    if is_passed {
        return false;
    }
    match opener.judge_feeler(last_try, manager.clock(), number) {
        Verdict::Take => true,
        Verdict::SameGroup => false,
        Verdict::Recent => false,
    }
}

/// Makes tries for an outbound connection until one decides, at most `MAX_TRIES`.
#[tactic(auto, using(crate::proofs::Outcomes::of_peer, crate::proofs::Outcomes::none_left))]
pub(crate) fn find_outbound<H: BuildHasher, L: Ledger>(
    rules: &OpenRules,
    manager: &Manager<'_, H>,
    opener: &Opener,
    seed: u32,
    steps: &mut Steps<L>,
) -> Found
    ensures { Finds rules.now manager.now opener.now seed result }
{
    for number in 1..MAX_TRIES + 1 {
        match pick_of_try(manager, false, seed, number, steps) {
            Picked::One(peer, last_try) => {
                if let Some(group) = group_if_taken(
                    rules, manager, opener, &peer, last_try, number, steps,
                ) {
                    return Found::Taken {
                        peer,
                        group,
                        tries: number,
                    };
                }
            }
            Picked::Nothing => return Found::Nothing,
            Picked::Exhausted => {}
        }
    }
    Found::GaveUp
}

/// Makes tries for a connection that tests a peer, until one decides, at most `MAX_TRIES`.
#[tactic(auto, using(crate::proofs::Outcomes::none_left))]
pub(crate) fn find_feeler<H: BuildHasher, L: Ledger>(
    rules: &OpenRules,
    manager: &Manager<'_, H>,
    opener: &Opener,
    occupant: &Option<(Peer, u32)>,
    seed: u32,
    steps: &mut Steps<L>,
) -> Outcome
    ensures { HasOutcome
        (try_by rules.now manager.now opener.now (ToTest occupant.now) seed) result }
{
    for number in 1..MAX_TRIES + 1 {
        match pick_of_feeler(manager, occupant, seed, number, steps) {
            Picked::One(peer, last_try) => {
                if is_taken(rules, manager, opener, &peer, last_try, number, steps) {
                    return Outcome::Taken {
                        peer,
                        tries: number,
                    };
                }
            }
            Picked::Nothing => return Outcome::Nothing,
            Picked::Exhausted => {}
        }
    }
    Outcome::GaveUp
}
