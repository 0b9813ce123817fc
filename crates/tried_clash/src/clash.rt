//! `clash_pick` (`SelectTriedCollision_`): a random word selects a collision, and the answer is its
//! slot's occupant.

ghost use Rattle.std.specs.Prelude.{◌≡◌, ◌%◌, ◌<◌, Contains, get_or, length};
ghost use Rattle.table_machine.specs.State.{by_number};
ghost use Rattle.table_machine.specs.Sound.{IsSound};
ghost use Rattle.table_machine.specs.Clashes.{clash_pick, pick_newcomer};

use net_addr::Peer;
use std::hash::BuildHasher;
use std::sync::ledger::Ledger;
use steps::Steps;
use tables::Tables;

/// Returns the occupant of the slot that a collision waits for, and when it was last tried, in
/// seconds since 1970. A random word selects the collision; one whose record was deleted is
/// dropped. Returns `None` if there is no collision, or if the record was deleted
/// (`AddrManImpl::SelectTriedCollision_` in addrman.cpp of Bitcoin Core). Takes no memory.
pub fn clash_pick<H: BuildHasher, L: Ledger>(
    tables: &mut Tables<'_, H>,
    word: u64,
    steps: &mut Steps<L>,
) -> Option<(Peer, u32)>
    ensures answer { result ≡ (clash_pick tables.old word).answer }
    ensures state { tables.new ≡ (clash_pick tables.old word).state }
    ensures sound { IsSound tables.new }
{
    let numbers = tables.clashes();
    if numbers.is_empty() {
        return None;
    }
    let number = number_at(numbers, word);
    occupant(tables, number, steps)
}

/// Returns the number that a random word selects.
fn number_at(numbers: &[u64], word: u64) -> u64
    requires some { 0 < length numbers.now }
    ensures number { result ≡ get_or numbers.now (word % length numbers.now) 0 }
    ensures waits { Contains numbers.now result }
{
    numbers[(word % numbers.len() as u64) as usize]
}

/// Returns the occupant of the slot that a collision waits for, by the collision's number, or drops
/// the collision if its record was deleted.
fn occupant<H: BuildHasher, L: Ledger>(
    tables: &mut Tables<'_, H>,
    number: u64,
    steps: &mut Steps<L>,
) -> Option<(Peer, u32)>
    requires waits { Contains tables.old.collisions number }
    ensures answer { result
        ≡ (pick_newcomer tables.old number (by_number tables.old number)).answer }
    ensures state { tables.new
        ≡ (pick_newcomer tables.old number (by_number tables.old number)).state }
{
    let peer = tables
        .by_number(number, steps)
        .map(|newcomer| newcomer.peer);
    match peer {
        None => {
            tables.erase_clash(number);
            None
        }
        Some(peer) => tables
            .tried_occupant(&peer, steps)
            .map(|occupant| (occupant.peer, occupant.last_try)),
    }
}
