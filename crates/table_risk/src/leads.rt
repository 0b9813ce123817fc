//! `Known`: what counts of each record, for sets of addresses.

ghost use Rattle.std.specs.Prelude.{◌≡◌, ◌<◌, All, IfOk, map};
ghost use Rattle.peer_rec.specs.Rec.{buckets_of};
ghost use Rattle.risk_parts.specs.Leads.{AreLeads, lead_of};
ghost use Rattle.slot_grid.specs.declared.sizes.TheConstants.{NEW_BUCKETS};

use crate::Memory;
use crate::starts::starts_of;
use arrayvec::ArrayVec;
use peer_rec::Rec;
use risk_parts::{Lead, kinds_of_all};
use risk_sum::Kind;
use std::alloc::{AllocError, Global};
use std::hash::BuildHasher;
use std::sync::ledger::Ledger;
use steps::Steps;
use tables::Tables;

/// Returns what counts of a record.
fn lead_of<H: BuildHasher, L: Ledger>(
    tables: &Tables<'_, H>,
    rec: &Rec,
    now: u32,
    steps: &mut Steps<L>,
) -> Lead
    requires { All (λ b. b < NEW_BUCKETS) (buckets_of rec.now) }
    ensures { result ≡ lead_of tables.now now rec.now }
{
    Lead {
        addr: rec.peer.addr,
        number: tables.placer().asn(&rec.peer.addr),
        chance: rec.chance(now),
        new: starts_of(tables, true, rec, steps),
        tried: starts_of(tables, false, rec, steps),
    }
}

/// Returns what counts of each record.
fn leads_of<H: BuildHasher, L: Ledger>(
    alloc: Global,
    tables: &Tables<'_, H>,
    recs: &[Rec],
    now: u32,
    steps: &mut Steps<L>,
) -> Result<Vec<Lead>, AllocError>
    requires { All (λ r. All (λ b. b < NEW_BUCKETS) (buckets_of r)) recs.now }
    ensures { IfOk result (λ leads. leads.items ≡ map (lead_of tables.now now) recs.now) }
{
    let mut leads = Vec::new(alloc);
    for rec in recs {
        leads.push(lead_of(tables, rec, now, steps))?;
    }
    Ok(leads)
}

/// What is computed of the tables for any set of addresses.
#[derive(Drop)]
pub(crate) struct Known {
    pub(crate) leads: Vec<Lead>,
    /// how many starts of the new table lead to records of each chance
    pub(crate) new: ArrayVec<Kind, 18>,
    /// how many of the tried table do
    pub(crate) tried: ArrayVec<Kind, 18>,
    /// how many records the tables have
    pub(crate) wanted: (u32, u32),
}

/// Returns what counts of each record at a time, and sums of it.
pub(crate) fn known_of<H: BuildHasher, L: Ledger>(
    alloc: Global,
    tables: &Tables<'_, H>,
    now: u32,
    steps: &mut Steps<L>,
) -> Result<Known, Memory>
    ensures { IfOk result (λ k.
        AreLeads tables.now now k.leads.items k.new.items k.tried.items k.wanted) }
{
    let counts = tables.counts();
    let recs = tables.recs(steps)?;
    let leads = leads_of(alloc, tables, recs.items(), now, steps)?;
    let new = kinds_of_all(leads.as_slice(), true);
    let tried = kinds_of_all(leads.as_slice(), false);
    Ok(Known {
        leads,
        new,
        tried,
        wanted: (counts.new_count, counts.tried_count),
    })
}
