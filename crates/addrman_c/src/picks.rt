//! Selects peers and occupants: `addrman_select`, `addrman_select_record`,
//! `addrman_select_collision` and `addrman_resolve_collisions`.

ghost use Rattle.std.specs.Prelude.{◌≡◌, ◌≢◌, ◌%◌};
ghost use Rattle.net_addr.specs.NetBits.{nets_of};
ghost use Rattle.table_machine.specs.Picks.{select};
ghost use Rattle.table_machine.specs.Clashes.{resolve, clash_pick};
ghost use Rattle.addrman_c.specs.Calls.{PickCall, PickRecordCall, OccupantCall};
ghost use Rattle.addrman_c.specs.OnHandle.{OnTables};

use crate::records::find_on;
use c_handles::{Handle, Keyed};
use c_values::code::{CLOSED, EXHAUSTED, NONE, OK};
use c_values::{AddrmanPicked, AddrmanRecord, AddrmanResolved, read_nets, write_peer};
use net_addr::{NetSet, Peer};
use picking::Picked;
use std::alloc::Global;
use tables::Tables;

/// Writes a pick, and returns the code that says whether there is one.
fn put_pick(pick: &Picked, picked: &mut AddrmanPicked) -> u32
    ensures call { PickCall pick.now result picked.new }
    ensures same { result ≢ OK → picked.new ≡ picked.old }
{
    match pick {
        Picked::One(peer, last_try) => {
            *picked = AddrmanPicked {
                peer: write_peer(peer),
                last_try: *last_try,
            };
            OK
        }
        Picked::Nothing => NONE,
        Picked::Exhausted => EXHAUSTED,
    }
}

/// Selects a peer to connect to.
fn select_on(
    tables: &Tables<'_, Keyed>,
    new_only: bool,
    nets: NetSet,
    words: &[u64],
    now: u32,
    picked: &mut AddrmanPicked,
) -> u32
    ensures call { PickCall (select tables.now new_only nets words.now now) result picked.new }
    ensures same { result ≢ OK → picked.new ≡ picked.old }
{
    let pick = node_calls::select(tables, new_only, nets, words, now);
    put_pick(&pick, picked)
}

/// Selects a peer to connect to by random words, of the networks of a set.
#[unsafe(no_mangle)]
pub extern "C" fn addrman_select(
    alloc: Global,
    handle: &mut Handle,
    new_only: bool,
    nets: u32,
    words: &[u64],
    now: u32,
    picked: &mut AddrmanPicked,
) -> u32
    ensures call { OnTables handle.old.loose.kept result handle.new.loose.kept (λ old new.
        PickCall (select old new_only (nets_of (nets % 128)) words.now now) result picked.new
        × (new ≡ old)) }
    ensures same { result ≢ OK → picked.new ≡ picked.old }
{
    let Some(kept) = handle.take(alloc) else {
        return CLOSED;
    };
    let code = select_on(&kept.tables, new_only, read_nets(nets), words, now, picked);
    handle.put(kept);
    code
}

/// Selects a peer to connect to, and writes its record.
fn select_record_on(
    tables: &Tables<'_, Keyed>,
    new_only: bool,
    nets: NetSet,
    words: &[u64],
    now: u32,
    out: &mut AddrmanRecord,
) -> u32
    ensures call { PickRecordCall (select tables.now new_only nets words.now now) tables.now result
        out.new }
    ensures same { result ≢ OK → out.new ≡ out.old }
{
    match node_calls::select(tables, new_only, nets, words, now) {
        Picked::One(peer, _) => find_on(tables, Some(peer), out),
        Picked::Nothing => NONE,
        Picked::Exhausted => EXHAUSTED,
    }
}

/// Selects a peer to connect to by random words, of the networks of a set, and writes its record.
#[unsafe(no_mangle)]
pub extern "C" fn addrman_select_record(
    alloc: Global,
    handle: &mut Handle,
    new_only: bool,
    nets: u32,
    words: &[u64],
    now: u32,
    out: &mut AddrmanRecord,
) -> u32
    ensures call { OnTables handle.old.loose.kept result handle.new.loose.kept (λ old new.
        PickRecordCall (select old new_only (nets_of (nets % 128)) words.now now) old result out.new
        × (new ≡ old)) }
    ensures same { result ≢ OK → out.new ≡ out.old }
{
    let Some(kept) = handle.take(alloc) else {
        return CLOSED;
    };
    let code = select_record_on(&kept.tables, new_only, read_nets(nets), words, now, out);
    handle.put(kept);
    code
}

/// Writes the occupant of a collision's slot, and returns the code that says whether there is one.
fn put_occupant(occupant: Option<(Peer, u32)>, picked: &mut AddrmanPicked) -> u32
    ensures call { OccupantCall occupant result picked.new }
    ensures same { result ≢ OK → picked.new ≡ picked.old }
{
    match occupant {
        Some((peer, last_try)) => {
            *picked = AddrmanPicked {
                peer: write_peer(&peer),
                last_try,
            };
            OK
        }
        None => NONE,
    }
}

/// Selects a collision by a random word, and writes the occupant of its slot.
#[unsafe(no_mangle)]
pub extern "C" fn addrman_select_collision(
    alloc: Global,
    handle: &mut Handle,
    word: u64,
    occupant: &mut AddrmanPicked,
) -> u32
    ensures call { OnTables handle.old.loose.kept result handle.new.loose.kept (λ old new.
        OccupantCall (clash_pick old word).answer result occupant.new
        × (new ≡ (clash_pick old word).state)) }
    ensures same { result ≢ OK → occupant.new ≡ occupant.old }
{
    let Some(mut kept) = handle.take(alloc) else {
        return CLOSED;
    };
    let found = node_calls::clash_pick(&mut kept.tables, word);
    handle.put(kept);
    put_occupant(found, occupant)
}

/// Decides on all collisions, and writes how many had which result.
#[unsafe(no_mangle)]
pub extern "C" fn addrman_resolve_collisions(
    alloc: Global,
    handle: &mut Handle,
    now: u32,
    resolved: &mut AddrmanResolved,
) -> u32
    ensures call { OnTables handle.old.loose.kept result handle.new.loose.kept (λ old new.
        (result ≡ OK) × (resolved.new.erased ≡ (resolve old now).answer.erased)
        × (resolved.new.moved ≡ (resolve old now).answer.moved)
        × (resolved.new.kept ≡ (resolve old now).answer.kept)
        × (new ≡ (resolve old now).state)) }
    ensures same { result ≢ OK → resolved.new ≡ resolved.old }
{
    let Some(mut kept) = handle.take(alloc) else {
        return CLOSED;
    };
    let fates = node_calls::resolve(&mut kept.tables, now);
    handle.put(kept);
    *resolved = AddrmanResolved {
        erased: fates.erased,
        moved: fates.moved,
        kept: fates.kept,
    };
    OK
}
