//! `Lead`: what counts of a record; and the starts by chance (`CHANCES`), of all records and of a
//! set.

ghost use Rattle.std.specs.Prelude.{◌≡◌, ◌≤◌, ◌<◌, ℕ, List, All, IfOk, filter, get_or, length, map, sum_by};
ghost use Rattle.risk_sum.specs.declared.kinds.Kind.{Kind};
ghost use Rattle.slot_grid.specs.declared.sizes.TheConstants.{NEW_SLOTS};
ghost use Rattle.risk_parts.specs.Leads.{FitTable, among, class_starts, kind_of_all, kinds_of_all, lead_starts, with_theirs};
ghost use Rattle.risk_parts.specs.Sets.{any_by};
ghost use Rattle.risk_parts.specs.declared.addr_set.AddrSet.{AddrSet};

use crate::AddrSet;
use arrayvec::ArrayVec;
use net_addr::NetAddr;
use risk_sum::Kind;
use std::alloc::{AllocError, Global};

/// The chances that a record can have, in parts of 2^30: after no try to eight tries, and the same
/// after a try in the last ten minutes (`AddrInfo::GetChance` in addrman.cpp of Bitcoin Core).
pub const CHANCES: [u32; 18] = [
    1_073_741_824,
    708_669_603,
    467_721_938,
    308_696_479,
    203_739_676,
    134_468_186,
    88_749_003,
    58_574_342,
    38_659_065,
    10_737_418,
    7_086_696,
    4_677_219,
    3_086_964,
    2_037_396,
    1_344_681,
    887_490,
    585_743,
    386_590,
];

/// What counts of a record.
#[derive(Clone, Copy)]
pub struct Lead {
    pub addr: NetAddr,
    /// the number of the autonomous system that announces the address
    pub number: u32,
    /// in parts of 2^30
    pub chance: u64,
    /// how many starts of the new table lead to the record
    pub new: u32,
    /// how many starts of the tried table do
    pub tried: u32,
}

impl Lead {
    /// Returns how many starts of a table lead to the record.
    fn starts(&self, in_new: bool) -> u32
        ensures { result ≡ lead_starts in_new self.now }
    {
        if in_new { self.new } else { self.tried }
    }
}

/// Returns `true` if one of the sets has the address, which this autonomous system announces.
pub fn any_has(sets: &[AddrSet], addr: &NetAddr, number: u32) -> bool
    ensures { result ≡ any_by sets.now addr.now number }
{
    for set in sets {
        if set.has(addr, number) {
            return true;
        }
    }
    false
}

/// Returns those whose addresses are in one of the sets.
pub(crate) fn leads_among(
    alloc: Global,
    leads: &[Lead],
    sets: &[AddrSet],
) -> Result<Vec<Lead>, AllocError>
    ensures { IfOk result (λ found. found.items ≡ among leads.now sets.now) }
{
    let mut found = Vec::new(alloc);
    for lead in leads {
        if any_has(sets, &lead.addr, lead.number) {
            found.push(*lead)?;
        }
    }
    Ok(found)
}

/// Returns the starts of a record of the chance, and none of another one's.
fn class_starts(lead: &Lead, in_new: bool, chance: u32) -> u32
    ensures { result ≡ class_starts in_new chance lead.now }
{
    if lead.chance == u64::from(chance) {
        lead.starts(in_new)
    } else {
        0
    }
}

/// Returns how many starts of a table lead to records of a chance.
fn starts_for(leads: &[Lead], in_new: bool, chance: u32) -> u32
    requires { sum_by (class_starts in_new chance) leads.now ≤ NEW_SLOTS }
    ensures { result ≡ sum_by (class_starts in_new chance) leads.now }
{
    let mut sum = 0;
    for lead in leads {
        sum += class_starts(lead, in_new, chance);
    }
    sum
}

/// Returns how many starts of a table lead to records of a chance, and none to the set's.
fn kind_of_all(leads: &[Lead], in_new: bool, chance: u32) -> Kind
    requires { sum_by (class_starts in_new chance) leads.now ≤ NEW_SLOTS }
    ensures { result ≡ kind_of_all leads.now in_new chance }
{
    Kind {
        chance,
        all: starts_for(leads, in_new, chance),
        theirs: 0,
    }
}

/// Returns how many starts of a table lead to records of each chance.
pub fn kinds_of_all(leads: &[Lead], in_new: bool) -> ArrayVec<Kind, 18>
    requires { FitTable leads.now in_new }
    ensures { result.items ≡ kinds_of_all leads.now in_new }
{
    let mut kinds = ArrayVec::new();
    for chance in &CHANCES {
        kinds.push(kind_of_all(leads, in_new, *chance));
    }
    kinds
}

/// Returns the same of a chance, and how many of its starts lead to some of the records.
fn kind_with(kind: &Kind, some: &[Lead], in_new: bool) -> Kind
    requires { sum_by (class_starts in_new kind.now.chance) some.now ≤ NEW_SLOTS }
    ensures { result ≡ with_theirs some.now in_new kind.now }
{
    Kind {
        chance: kind.chance,
        all: kind.all,
        theirs: starts_for(some, in_new, kind.chance),
    }
}

/// Returns the same, and how many of these starts lead to some of the records.
pub(crate) fn with_theirs(kinds: &[Kind], some: &[Lead], in_new: bool) -> ArrayVec<Kind, 18>
    requires few { length kinds.now ≤ 18 }
    requires fit { All (λ k. sum_by (class_starts in_new k.chance) some.now ≤ NEW_SLOTS) kinds.now }
    ensures { result.items ≡ map (with_theirs some.now in_new) kinds.now }
{
    let mut found = ArrayVec::new();
    for kind in kinds {
        found.push(kind_with(kind, some, in_new));
    }
    found
}
