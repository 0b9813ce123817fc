//! `put_picture_of_sets`: the picture whose colours show sets of addresses, with their texts.

ghost use Rattle.std.specs.Prelude.{◌≡◌, ◌≤◌, ◌++◌, All, length, map, IfOk, OnOk};
ghost use Rattle.risk_parts.specs.Sets.{IsProperSet, set_text};
ghost use Rattle.table_picture.specs.Picture.{picture_of_sets};
ghost use Rattle.table_picture.specs.Sets.{HasAddress};

use crate::Memory;
use crate::facts::facts_of;
use crate::marks_by_rule::set_marks;
use picture_text::put_sets_picture;
use risk_parts::{AddrSet, put_set};
use std::alloc::Global;
use std::sync::ledger::Ledger;
use steps::Steps;
use table_groups::TableView;

/// Returns the text of a set.
fn set_name(alloc: Global, set: AddrSet) -> Result<Vec<u8>, Memory>
    requires { IsProperSet set }
    ensures name { IfOk result (λ name. name.items ≡ set_text set) }
    ensures address { HasAddress set }
{
    let mut name = Vec::new(alloc);
    put_set(&set, &mut name)?;
    Ok(name)
}

/// Returns the texts of sets.
fn set_names(alloc: Global, sets: &[AddrSet]) -> Result<Vec<Vec<u8>>, Memory>
    requires { All IsProperSet sets.now }
    ensures names { IfOk result (λ names. map (λ v. v.items) names.items
        ≡ map set_text sets.now) }
    ensures long { IfOk result (λ names. length names.items ≡ length sets.now) }
    ensures addresses { IfOk result (λ _. All HasAddress sets.now) }
{
    let mut names = Vec::new(alloc);
    for set in sets {
        names.push(set_name(alloc, *set)?)?;
    }
    Ok(names)
}

/// Appends the picture of the tables whose colours go by at most six sets of addresses: that of the
/// first set that has the peer. The file is of a chain of this name.
#[tactic(auto, unfolding(crate::specs::Picture::picture_of_sets))]
pub fn put_picture_of_sets<T: TableView, L: Ledger>(
    alloc: Global,
    tables: &T,
    sets: &[AddrSet],
    chain: &[u8],
    out: &mut Vec<u8>,
    steps: &mut Steps<L>,
) -> Result<(), Memory>
    requires few { length sets.now ≤ 6 }
    requires proper { All IsProperSet sets.now }
    ensures text { OnOk result (out.new.items ≡ out.old.items
        ++ picture_of_sets sets.now chain.now (T.view tables.now)) }
    ensures addresses { OnOk result (All HasAddress sets.now) }
{
    let recs = tables.records(steps)?;
    let facts = facts_of(alloc, chain, recs.items(), tables.places())?;
    let marks = set_marks(alloc, tables, sets, steps)?;
    let names = set_names(alloc, sets)?;
    put_sets_picture(facts.as_slice(), marks.as_slice(), names.as_slice(), out)
}
