//! `resolve` (`ResolveCollisions_`) decides each collision, and moves newcomers in.

ghost use Rattle.std.specs.Prelude.{◌≡◌, ◌+◌, ◌≤◌, Contains};
ghost use Rattle.table_machine.specs.State.{by_number};
ghost use Rattle.table_machine.specs.Sound.{IsSound};
ghost use Rattle.table_machine.specs.Clashes.{after_fate, fate_of, move_in, resolve};

use crate::fate::{fate_against, one_more};
use arrayvec::ArrayVec;
use peer_rec::{Fate, Resolved};
use std::hash::BuildHasher;
use std::sync::ledger::Ledger;
use steps::Steps;
use tables::Tables;

/// Decides on each collision, in increasing order of record numbers, and returns how many were
/// erased, moved and kept. `now` is in seconds since 1970 (`AddrManImpl::ResolveCollisions_` in
/// addrman.cpp of Bitcoin Core). Takes no memory.
pub fn resolve<H: BuildHasher, L: Ledger>(
    tables: &mut Tables<'_, H>,
    now: u32,
    steps: &mut Steps<L>,
) -> Resolved
    ensures answer { result ≡ (resolve tables.old now).answer }
    ensures state { tables.new ≡ (resolve tables.old now).state }
    ensures sound { IsSound tables.new }
    ensures steps { steps.new ≤ steps.old + 440 }
{
    let numbers = waiting(tables);
    let mut resolved = Resolved {
        erased: 0,
        moved: 0,
        kept: 0,
    };
    for number in numbers.as_slice() {
        let fate = settle(tables, *number, now, steps);
        resolved = one_more(fate, resolved);
    }
    resolved
}

/// Returns the numbers of the collisions.
fn waiting<H: BuildHasher>(tables: &Tables<'_, H>) -> ArrayVec<u64, 10>
    ensures waiting { result.items ≡ tables.now.collisions }
    ensures sound { IsSound tables.now }
{
    let mut numbers = ArrayVec::new();
    // There is room for all of them.
    let _ = numbers.try_extend_from_slice(tables.clashes());
    numbers
}

/// Decides on one collision.
fn settle<H: BuildHasher, L: Ledger>(
    tables: &mut Tables<'_, H>,
    number: u64,
    now: u32,
    steps: &mut Steps<L>,
) -> Fate
    requires waits { Contains tables.old.collisions number }
    ensures fate { result ≡ fate_of tables.old (by_number tables.old number) now }
    ensures state { tables.new
        ≡ after_fate result tables.old (by_number tables.old number) number now }
    ensures steps { steps.new ≤ steps.old + 44 }
{
    let fate = fate_of(tables, number, now, steps);
    match fate {
        Fate::Erased => tables.erase_clash(number),
        Fate::Kept => {}
        Fate::Moved => {
            move_in(tables, number, now, steps);
            tables.erase_clash(number);
        }
    }
    fate
}

/// Returns the fate of a collision, by its number.
fn fate_of<H: BuildHasher, L: Ledger>(
    tables: &Tables<'_, H>,
    number: u64,
    now: u32,
    steps: &mut Steps<L>,
) -> Fate
    requires waits { Contains tables.now.collisions number }
    ensures fate { result ≡ fate_of tables.now (by_number tables.now number) now }
    ensures steps { steps.new ≤ steps.old + 3 }
{
    match tables.by_number(number, steps) {
        None => Fate::Erased,
        Some(newcomer) => match tables.tried_occupant(&newcomer.peer, steps) {
            None => Fate::Moved,
            Some(occupant) => fate_against(newcomer, occupant, now),
        },
    }
}

/// Moves the record of a collision to its slot of the tried table.
fn move_in<H: BuildHasher, L: Ledger>(
    tables: &mut Tables<'_, H>,
    number: u64,
    now: u32,
    steps: &mut Steps<L>,
)
    requires waits { Contains tables.old.collisions number }
    ensures state { tables.new ≡ move_in tables.old (by_number tables.old number) now }
    ensures waiting { tables.new.collisions ≡ tables.old.collisions }
    ensures steps { steps.new ≤ steps.old + 41 }
{
    let peer = tables
        .by_number(number, steps)
        .map(|newcomer| newcomer.peer);
    if let Some(peer) = peer {
        tables.good(&peer, false, now, steps);
    }
}
