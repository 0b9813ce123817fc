//! `Parts`, `parts_among` and `millionths`, with `AHEAD`, `WHOLE` and `MILLION`.
//!
//! The parts are bounds in integers, each quotient rounded up: exact shares are fractions whose
//! denominators have thousands of digits. The two differ by less than 2^-57, so a part that is a
//! whole number of millionths may be printed as one more. A table's part is cut off at the whole.

ghost use Rattle.std.specs.Prelude.{◌≡◌, ◌≤◌, ◌<◌, ◌^◌, ◌==◌, ◌||◌, ℕ, IfOk, length, true, false};
ghost use Rattle.risk_sum.specs.Kinds.{AreKinds};
ghost use Rattle.risk_parts.specs.Leads.{AreLeads, AreSomeLeads, FitsSets, parts_in, share_within};
ghost use Rattle.risk_parts.specs.Parts.{millionths, parts_for, parts_from};
ghost use Rattle.risk_parts.specs.Sets.{is_among};
ghost use Rattle.table_machine.specs.State.{State};

use crate::leads::{Lead, leads_among, with_theirs};
use crate::{AddrSet, Memory};
use risk_sum::{Kind, most};
use std::alloc::Global;

/// How many refusals of a search are looked ahead: with eight failures and a try just now a record
/// is accepted at the 45th.
pub const AHEAD: u32 = 48;

/// The searches that shares are parts of.
pub const WHOLE: u128 = 18_446_744_073_709_551_616;
/// The parts in which shares are printed.
pub const MILLION: u128 = 1_000_000;

/// Which part falls to some records, at most, of the picks from both tables, of those from the new
/// table only, and of the searches of the tried table, in parts of a million.
#[derive(Clone, Copy, Debug, PartialEq, Eq)]
pub struct Parts {
    pub picks: u32,
    pub new: u32,
    pub tried: u32,
}

/// Returns a share of `whole` in parts of a million, rounded up. A share above `whole` counts as
/// `whole`.
pub fn millionths(share: u128, whole: u128) -> u32
    requires some { 0 < whole }
    requires few { whole ≤ 2 ^ 65 }
    ensures { result ≡ millionths share whole }
{
    if share < whole {
        ((share * MILLION + (whole - 1)) / whole) as u32
    } else {
        MILLION as u32
    }
}

/// Returns how many of 2^64 searches of a table with so many records end at some of them, at most.
/// Without records none do.
fn share_within(kinds: &[Kind], wanted: u32) -> u128
    requires few { length kinds.now ≤ 18 }
    requires kinds { (wanted == 0) ≡ false → AreKinds kinds.now }
    ensures is { result ≡ share_within wanted kinds.now }
    ensures few { result ≤ 2 ^ 64 }
{
    if wanted == 0 {
        return 0;
    }
    let share = most(kinds, AHEAD);
    if share < WHOLE { share } else { WHOLE }
}

/// Returns the parts of these shares of 2^64 searches. With records in both tables, half of the
/// picks come from each.
fn parts_from(new: u128, tried: u128, is_one: bool) -> Parts
    requires new { new ≤ 2 ^ 64 }
    requires tried { tried ≤ 2 ^ 64 }
    ensures { result ≡ parts_from new tried is_one }
{
    let whole = if is_one { WHOLE } else { 2 * WHOLE };
    Parts {
        picks: millionths(new + tried, whole),
        new: millionths(new, WHOLE),
        tried: millionths(tried, WHOLE),
    }
}

/// Returns which part falls to records whose addresses are in one of the sets. The tables have so
/// many records, and these starts lead to records of each chance.
fn parts_in(
    alloc: Global,
    leads: &[Lead],
    new: &[Kind],
    tried: &[Kind],
    wanted: (u32, u32),
    sets: &[AddrSet],
) -> Result<Parts, Memory>
    requires new { FitsSets leads.now true new.now wanted.0 sets.now }
    requires tried { FitsSets leads.now false tried.now wanted.1 sets.now }
    ensures { IfOk result (λ parts. parts
        ≡ parts_in leads.now new.now tried.now wanted.0 wanted.1 sets.now) }
{
    let some = leads_among(alloc, leads, sets)?;
    let in_new = with_theirs(new, some.as_slice(), true);
    let in_tried = with_theirs(tried, some.as_slice(), false);
    let is_one = wanted.0 == 0 || wanted.1 == 0;
    Ok(parts_from(
        share_within(in_new.as_slice(), wanted.0),
        share_within(in_tried.as_slice(), wanted.1),
        is_one,
    ))
}

/// Returns which part of the picks falls to peers whose addresses are in one of the sets, from what
/// counts of each record of the tables, how many starts lead to records of each chance, and how
/// many records the tables have.
pub fn parts_among(
    alloc: Global,
    leads: &[Lead],
    new: &[Kind],
    tried: &[Kind],
    wanted: (u32, u32),
    sets: &[AddrSet],
) -> Result<Parts, Memory>
    requires { AreSomeLeads leads.now new.now tried.now wanted }
    ensures { IfOk result (λ parts. (st : State) (now : ℕ) →
        AreLeads st now leads.now new.now tried.now wanted →
        parts ≡ parts_for st now (is_among st.places sets.now)) }
{
    parts_in(alloc, leads, new, tried, wanted, sets)
}
