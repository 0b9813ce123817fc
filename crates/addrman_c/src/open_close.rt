//! Empty tables, and their end: `addrman_open`, `addrman_open_core` and `addrman_close`; with
//! `check_map` and `placer_of`.

ghost use Rattle.std.specs.Prelude.{◌≡◌, [], None, IfOk, IfErr, IfSome};
ghost use Rattle.placing.specs.Inside.{map_of};
ghost use Rattle.placing.specs.declared.sum.SumRule.TheVariants.{Bytes, Bits};
ghost use Rattle.addrman_c.specs.Files.{IsMapOf, IsNoMap, IsOpened, OpenCall};

use asmap_vm::{CodeFault, Sane};
use c_handles::{Handle, Kept, Keyed};
use c_values::code::{MEMORY, OK, REFUSED};
use peer_open::Opener;
use placing::{Placer, SumRule};
use std::alloc::Global;
use tables::Tables;

/// Checks an asmap. No bytes are no asmap.
pub(crate) fn check_map(bytes: &[u8]) -> Result<Option<Sane<'_>>, CodeFault>
    ensures found { IfOk result (λ map. IsMapOf bytes.now (map_of map)) }
    ensures cause { IfErr result (λ fault. IsNoMap bytes.now) }
{
    if bytes.is_empty() {
        return Ok(None);
    }
    match asmap_vm::check(bytes) {
        Ok(sane) => Ok(Some(sane)),
        Err(fault) => Err(fault),
    }
}

/// Makes a placer that has a copy of the asmap and a rule for its checksum, or returns `None` if
/// there is no memory for it.
pub(crate) fn placer_of(
    alloc: Global,
    key: [u8; 32],
    map: Option<Sane<'_>>,
    rule: SumRule,
) -> Option<Placer<'static>>
    ensures { IfSome result (λ placer.
        placer ≡ record { key = key; map = map_of map.entry; rule = rule }) }
{
    let Some(map) = map else {
        return Some(Placer::make(key, None).with_rule(rule));
    };
    match Placer::with_copy(alloc, key, &map) {
        Ok(placer) => Some(placer.with_rule(rule)),
        Err(_) => None,
    }
}

/// Puts tables into a box, with no outbound peers.
pub(crate) fn boxed(alloc: Global, tables: Tables<'static, Keyed>) -> Option<Box<Kept>>
    ensures { IfSome result (λ kept. kept.value ≡ record { tables = tables.entry; opener = [] }) }
{
    let kept = Kept {
        tables,
        opener: Opener::make(),
    };
    match Box::new(alloc, kept) {
        Ok(kept) => Some(kept),
        Err(_) => None,
    }
}

/// Makes empty tables.
fn empty(
    alloc: Global,
    key: [u8; 32],
    hasher: Keyed,
    map: Option<Sane<'_>>,
    rule: SumRule,
) -> Option<Box<Kept>>
    ensures { IfSome result (λ kept. IsOpened key (map_of map.entry) rule kept.value) }
{
    let placer = placer_of(alloc, key, map, rule)?;
    match Tables::open(alloc, placer, hasher) {
        Ok(tables) => boxed(alloc, tables),
        Err(_) => None,
    }
}

/// Opens empty tables with a rule for the asmap's checksum. What the handle had is dropped.
fn open_by(
    alloc: Global,
    handle: &mut Handle,
    key: &[u8; 32],
    seed: &[u64; 2],
    asmap: &[u8],
    rule: SumRule,
) -> u32
    ensures { OpenCall key.now asmap.now rule result handle.new.loose.kept }
{
    let _old = handle.take(alloc);
    let Ok(map) = check_map(asmap) else {
        return REFUSED;
    };
    let Some(kept) = empty(alloc, *key, Keyed::of(seed), map, rule) else {
        return MEMORY;
    };
    handle.put(kept);
    OK
}

/// Opens empty tables. What the handle had is dropped.
#[unsafe(no_mangle)]
pub extern "C" fn addrman_open(
    alloc: Global,
    handle: &mut Handle,
    key: &[u8; 32],
    seed: &[u64; 2],
    asmap: &[u8],
) -> u32
    ensures { OpenCall key.now asmap.now Bytes result handle.new.loose.kept }
{
    open_by(alloc, handle, key, seed, asmap, SumRule::Bytes)
}

/// Does the same, and the checksum of the asmap is Bitcoin Core's.
#[unsafe(no_mangle)]
pub extern "C" fn addrman_open_core(
    alloc: Global,
    handle: &mut Handle,
    key: &[u8; 32],
    seed: &[u64; 2],
    asmap: &[u8],
) -> u32
    ensures { OpenCall key.now asmap.now Bits result handle.new.loose.kept }
{
    open_by(alloc, handle, key, seed, asmap, SumRule::Bits)
}

/// Drops what the handle has.
#[unsafe(no_mangle)]
pub extern "C" fn addrman_close(alloc: Global, handle: &mut Handle)
    ensures { handle.new.loose.kept ≡ None }
{
    handle.close(alloc);
}
