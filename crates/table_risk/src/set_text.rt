//! `sets_text`, the output of `risk -`: a line for each set and one for all.

ghost use Rattle.std.specs.Prelude.{◌≡◌, ◌++◌, ℕ, All, IfOk, OnOk};
ghost use Rattle.std.specs.List.{flat_map};
ghost use Rattle.risk_parts.specs.Leads.{AreLeads, AreSomeLeads};
ghost use Rattle.risk_parts.specs.Sets.{IsProperSet};
ghost use Rattle.table_machine.specs.State.{State};
ghost use Rattle.table_risk.specs.SetTexts.{line_at, lines_at, set_line, sets_text, ten_line, union_line};

use crate::Memory;
use crate::leads::known_of;
use crate::ten::ten_part;
use crate::text::{put_heading_of, put_part, put_parts};
use net_addr::put_text;
use risk_parts::{AddrSet, Lead, Parts, parts_among, put_set};
use risk_sum::Kind;
use std::alloc::Global;
use std::hash::BuildHasher;
use std::sync::ledger::Ledger;
use steps::Steps;
use tables::Tables;

/// Appends the line of a set.
#[tactic(auto, unfolding(crate::specs::SetTexts::set_line))]
fn put_set_line(set: &AddrSet, parts: &Parts, out: &mut Vec<u8>) -> Result<(), Memory>
    requires { IsProperSet set.now }
    ensures { OnOk result (out.new.items ≡ out.old.items ++ set_line set.now parts.now) }
{
    put_text(b"set ", out)?;
    put_set(set, out)?;
    put_parts(parts.picks, parts.new, parts.tried, out)?;
    Ok(())
}

/// Appends the line of all sets together.
#[tactic(auto, unfolding(crate::specs::SetTexts::union_line))]
fn put_union_line(parts: &Parts, out: &mut Vec<u8>) -> Result<(), Memory>
    ensures { OnOk result (out.new.items ≡ out.old.items ++ union_line parts.now) }
{
    put_text(b"union", out)?;
    put_parts(parts.picks, parts.new, parts.tried, out)?;
    Ok(())
}

/// Appends the last line.
#[tactic(auto, unfolding(crate::specs::SetTexts::ten_line))]
fn put_ten_line(part: u32, out: &mut Vec<u8>) -> Result<(), Memory>
    ensures { OnOk result (out.new.items ≡ out.old.items ++ ten_line part) }
{
    put_part(b"all ten at most ", part, out)?;
    put_text(b"\n", out)?;
    Ok(())
}

/// Appends the line of each set.
fn put_set_lines(
    alloc: Global,
    leads: &[Lead],
    new: &[Kind],
    tried: &[Kind],
    wanted: (u32, u32),
    sets: &[AddrSet],
    out: &mut Vec<u8>,
) -> Result<(), Memory>
    requires leads { AreSomeLeads leads.now new.now tried.now wanted }
    requires proper { All IsProperSet sets.now }
    ensures { OnOk result ((st : State) (now : ℕ) →
        AreLeads st now leads.now new.now tried.now wanted →
        out.new.items ≡ out.old.items ++ flat_map (line_at st now) sets.now) }
{
    for set in sets {
        let parts = parts_among(alloc, leads, new, tried, wanted, &[*set])?;
        put_set_line(set, &parts, out)?;
    }
    Ok(())
}

/// Appends the line of each set and that of all together.
fn put_lines(
    alloc: Global,
    leads: &[Lead],
    new: &[Kind],
    tried: &[Kind],
    wanted: (u32, u32),
    sets: &[AddrSet],
    out: &mut Vec<u8>,
) -> Result<(), Memory>
    requires leads { AreSomeLeads leads.now new.now tried.now wanted }
    requires proper { All IsProperSet sets.now }
    ensures { OnOk result ((st : State) (now : ℕ) →
        AreLeads st now leads.now new.now tried.now wanted →
        out.new.items ≡ out.old.items ++ lines_at st now sets.now) }
{
    put_set_lines(alloc, leads, new, tried, wanted, sets, out)?;
    let parts = parts_among(alloc, leads, new, tried, wanted, sets)?;
    put_union_line(&parts, out)
}

/// Returns the text of which part of the picks at a time, in seconds since 1970, falls to peers of
/// each set, and to those of all sets together, and which part of the lists of tries opens all
/// outbound connections to these.
pub fn sets_text<L: Ledger, H: BuildHasher, G: BuildHasher>(
    alloc: Global,
    hasher: &G,
    tables: &Tables<'_, H>,
    sets: &[AddrSet],
    now: u32,
    steps: &mut Steps<L>,
) -> Result<Vec<u8>, Memory>
    requires { All IsProperSet sets.now }
    ensures { IfOk result (λ text. text.items ≡ sets_text tables.now now sets.now) }
{
    let known = known_of(alloc, tables, now, steps)?;
    let part = ten_part(alloc, hasher, tables, sets, now, steps)?;
    let mut out = Vec::new(alloc);
    put_heading_of(tables, &mut out, steps)?;
    put_lines(
        alloc,
        known.leads.as_slice(),
        known.new.as_slice(),
        known.tried.as_slice(),
        known.wanted,
        sets,
        &mut out,
    )?;
    put_ten_line(part, &mut out)?;
    Ok(out)
}
