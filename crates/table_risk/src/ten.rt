//! `ten_part`: the share of lists of tries that open all connections to peers of sets, from the
//! shares of their groups in the tables.

ghost use Rattle.std.specs.Prelude.{◌≡◌, ◌≤◌, ◌^◌, ℕ, List, [], IfOk, OnOk, fold, map};
ghost use Rattle.indexmap.specs.IndexMap.{keys};
ghost use Rattle.table_groups.specs.Tally.{by_bytes};
ghost use Rattle.table_machine.specs.Sound.{IsSound};
ghost use Rattle.table_risk.specs.Inside.{FitsSide, both_shares, noted_among, part_by, side_value};
ghost use Rattle.table_risk.specs.Tens.{ten_part};

use crate::classes::Search;
use crate::rows::{Side, share_in, side_of, whole_in};
use crate::{By, Memory};
use indexmap::IndexMap;
use peer_rec::Rec;
use placing::Placer;
use risk_parts::{AddrSet, any_has, millionths};
use risk_tries::{TRY_LISTS, ten_bound};
use std::alloc::{AllocError, Global};
use std::hash::BuildHasher;
use std::sync::ledger::Ledger;
use steps::Steps;
use table_groups::{Group, Lent, Tally, put_value};
use tables::Tables;

/// Notes the group of a record's peer, if one of the sets has its address.
fn note_rec<H: BuildHasher>(
    groups: &mut Tally<'_, (), H>,
    placer: &Placer<'_>,
    sets: &[AddrSet],
    rec: &Rec,
) -> Result<(), AllocError>
    ensures { OnOk result (by_bytes groups.new.entries
        ≡ noted_among placer.now sets.now (by_bytes groups.old.entries) rec.now) }
{
    let addr = &rec.peer.addr;
    if !any_has(sets, addr, placer.asn(addr)) {
        return Ok(());
    }
    put_value(groups, placer.group(addr), ())
}

/// Finds the groups of the peers whose addresses are in one of the sets, each once.
fn find_groups<'a, H: BuildHasher>(
    alloc: Global,
    hasher: &'a H,
    placer: &Placer<'_>,
    recs: &[Rec],
    sets: &[AddrSet],
) -> Result<Tally<'a, (), H>, AllocError>
    ensures { IfOk result (λ groups. by_bytes groups.entries
        ≡ fold (noted_among placer.now sets.now) [] recs.now) }
{
    let mut groups = IndexMap::with_hasher(alloc, Lent::of(hasher));
    for rec in recs {
        note_rec(&mut groups, placer, sets, rec)?;
    }
    Ok(groups)
}

/// Returns how many of 2^64 picks from one table, or of 2^65 from both, return a peer of a group.
fn both_shares<H: BuildHasher>(new: &Side<'_, H>, tried: &Side<'_, H>, group: &Group) -> u128
    requires new { FitsSide (side_value new.now) group.now.items }
    requires tried { FitsSide (side_value tried.now) group.now.items }
    ensures is { result ≡ both_shares (side_value new.now) (side_value tried.now) group.now.items }
    ensures few { result ≤ 2 ^ 65 }
{
    share_in(new, group) + share_in(tried, group)
}

/// Returns the same of each group.
fn shares_of<H: BuildHasher>(
    alloc: Global,
    new: &Side<'_, H>,
    tried: &Side<'_, H>,
    groups: &Tally<'_, (), H>,
) -> Result<Vec<u128>, AllocError>
    requires new { (g : List ℕ) → FitsSide (side_value new.now) g }
    requires tried { (g : List ℕ) → FitsSide (side_value tried.now) g }
    ensures { IfOk result (λ shares. shares.items
        ≡ map (λ g. both_shares (side_value new.now) (side_value tried.now) g.items)
        (keys groups.now)) }
{
    let mut shares = Vec::new(alloc);
    for group in groups.keys() {
        shares.push(both_shares(new, tried, group))?;
    }
    Ok(shares)
}

/// Returns which part of the lists of tries opens all outbound connections to peers of some groups,
/// at most, in parts of a million.
fn part_of<H: BuildHasher>(
    alloc: Global,
    new: &Side<'_, H>,
    tried: &Side<'_, H>,
    groups: &Tally<'_, (), H>,
) -> Result<u32, AllocError>
    requires new { (g : List ℕ) → FitsSide (side_value new.now) g }
    requires tried { (g : List ℕ) → FitsSide (side_value tried.now) g }
    ensures { IfOk result (λ part. part ≡ part_by (side_value new.now) (side_value tried.now)
        (map (λ g. g.items) (keys groups.now))) }
{
    let shares = shares_of(alloc, new, tried, groups)?;
    let bound = ten_bound(shares.as_slice(), whole_in(new, tried));
    Ok(millionths(bound, TRY_LISTS))
}

/// Returns which part of the lists of tries opens all outbound connections to peers of some sets,
/// at most, in parts of a million.
pub(crate) fn ten_part<L: Ledger, H: BuildHasher, G: BuildHasher>(
    alloc: Global,
    hasher: &G,
    tables: &Tables<'_, H>,
    sets: &[AddrSet],
    now: u32,
    steps: &mut Steps<L>,
) -> Result<u32, Memory>
    requires { IsSound tables.now }
    ensures { IfOk result (λ part. part ≡ ten_part tables.now now sets.now) }
{
    let recs = tables.recs(steps)?;
    let groups = find_groups(alloc, hasher, tables.placer(), recs.items(), sets)?;
    let in_new = Search {
        in_new: true,
        by: By::Peer,
        now,
    };
    let in_tried = Search {
        in_new: false,
        by: By::Peer,
        now,
    };
    let new = side_of(alloc, hasher, tables, in_new, steps)?;
    let tried = side_of(alloc, hasher, tables, in_tried, steps)?;
    Ok(part_of(alloc, &new, &tried, &groups)?)
}
