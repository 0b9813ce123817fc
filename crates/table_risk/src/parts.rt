//! `set_parts`: the parts of several sets of addresses.

ghost use Rattle.std.specs.Prelude.{◌≡◌, IfOk};
ghost use Rattle.risk_parts.specs.Parts.{parts_for};
ghost use Rattle.risk_parts.specs.Sets.{is_among};

use crate::Memory;
use crate::leads::known_of;
use risk_parts::{AddrSet, Parts, parts_among};
use std::alloc::Global;
use std::hash::BuildHasher;
use std::marker::Brand;
use std::sync::ledger::{Blank, Ledger};
use steps::Steps;
use tables::Tables;

/// Returns the same as `set_parts`. The steps are counted, and nobody reads how many.
fn parts_of<L: Ledger, H: BuildHasher>(
    alloc: Global,
    tables: &Tables<'_, H>,
    sets: &[AddrSet],
    now: u32,
    blank: Blank,
) -> Result<Parts, Memory>
    requires name { blank.name ≡ L.name }
    requires parts { blank.parts ≡ L.parts }
    requires one { blank.parts ≡ 1 }
    ensures { IfOk result (λ parts. parts
        ≡ parts_for tables.now now (is_among tables.now.places sets.now)) }
{
    let mut steps = Steps::<L>::none(blank);
    let known = known_of(alloc, tables, now, &mut steps)?;
    parts_among(
        alloc,
        known.leads.as_slice(),
        known.new.as_slice(),
        known.tried.as_slice(),
        known.wanted,
        sets,
    )
}

/// Returns which part of the picks at a time, in seconds since 1970, falls to peers whose addresses
/// are in one of the sets, at most.
pub fn set_parts<H: BuildHasher>(
    alloc: Global,
    tables: &Tables<'_, H>,
    sets: &[AddrSet],
    now: u32,
) -> Result<Parts, Memory>
    ensures { IfOk result (λ parts. parts
        ≡ parts_for tables.now now (is_among tables.now.places sets.now)) }
{
    parts_of::<Brand, H>(alloc, tables, sets, now, Blank::new(1))
}
