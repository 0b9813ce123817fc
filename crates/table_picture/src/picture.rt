//! `put_picture` and `put_picture_by`: from a `TableView` to the text of `picture_text`.

ghost use Rattle.std.specs.Prelude.{◌≡◌, ◌≤◌, ◌==◌, ◌++◌, length, map, IfOk, OnOk, option_map};
ghost use Rattle.std.specs.List.{position_or_len};
ghost use Rattle.table_picture.specs.By.{newest_in, view_by};
ghost use Rattle.table_picture.specs.Picture.{names_in, picture_by, picture_of, picture_with, rec_name};

use crate::Memory;
use crate::classes::{name_by, newest_of};
use crate::facts::facts_of;
use crate::marks::marks_by;
use crate::marks_by_rule::spread_marks;
use crate::recoloured::{Recoloured, rec_in};
use peer_rec::Rec;
use picture_text::{By, listed_in, put_spread_picture, spread_of};
use placing::Placer;
use std::alloc::Global;
use std::hash::BuildHasher;
use std::sync::ledger::Ledger;
use steps::Steps;
use table_groups::{TableView, name_of, sources_of};

/// Returns the index of the first slot that has the mark, and their number if none has.
fn first_slot(marks: &[u8], mark: u8) -> usize
    ensures { result ≡ position_or_len (λ m. m == mark) marks.now }
{
    let mut rest = marks;
    let mut at = 0;
    while let [first, after @ ..] = rest {
        if *first == mark {
            return at;
        }
        at += 1;
        rest = after;
    }
    at
}

/// Returns the name of the colour of a record.
fn rec_name(
    alloc: Global,
    placer: &Placer<'_>,
    by: By,
    newest: u32,
    rec: Option<&Rec>,
) -> Result<Vec<u8>, Memory>
    ensures { IfOk result (λ name. name.items
        ≡ rec_name by newest placer.now (option_map (λ r. r.now) rec.entry)) }
{
    match rec {
        Some(rec) => name_by(alloc, placer, by, newest, rec),
        None => Ok(Vec::new(alloc)),
    }
}

/// Returns the names of the listed groups, of which there are `count`.
fn names_in<T: TableView, L: Ledger>(
    alloc: Global,
    tables: &T,
    by: By,
    newest: u32,
    marks: &[u8],
    count: u8,
    steps: &mut Steps<L>,
) -> Result<Vec<Vec<u8>>, Memory>
    requires { count ≤ 6 }
    ensures names { IfOk result (λ names. map (λ v. v.items) names.items
        ≡ names_in by newest (T.view tables.now) marks.now count) }
    ensures long { IfOk result (λ names. length names.items ≡ count) }
{
    let mut names = Vec::new(alloc);
    for index in 0..count {
        let rec = rec_in(tables, first_slot(marks, index + 1), steps);
        names.push(rec_name(alloc, tables.places(), by, newest, rec)?)?;
    }
    Ok(names)
}

/// Appends the picture of the tables, an SVG. It takes four steps a slot, and two for each name.
#[tactic(auto, unfolding(crate::specs::Picture::picture_of, crate::specs::Picture::listed_of))]
pub fn put_picture<T: TableView, G: BuildHasher, L: Ledger>(
    alloc: Global,
    hasher: &G,
    tables: &T,
    out: &mut Vec<u8>,
    steps: &mut Steps<L>,
) -> Result<(), Memory>
    ensures text { OnOk result (out.new.items ≡ out.old.items ++ picture_of (T.view tables.now)) }
{
    let sources = sources_of(alloc, hasher, tables, steps)?;
    let listed = listed_in(sources.as_slice());
    let marks = marks_by(alloc, tables, listed, steps)?;
    let names = names_in(
        alloc,
        tables,
        By::Source,
        0,
        marks.as_slice(),
        listed.len() as u8,
        steps,
    )?;
    picture_text::put_picture(alloc, sources.as_slice(), marks.as_slice(), names, out)?;
    Ok(())
}

/// Appends the picture of some tables with the names that records of others have.
#[tactic(auto, unfolding(crate::specs::Picture::picture_with, crate::specs::Picture::listed_of))]
fn put_picture_with<T: TableView, U: TableView, G: BuildHasher, L: Ledger>(
    alloc: Global,
    hasher: &G,
    by: By,
    facts: &[u8],
    newest: u32,
    tables: &T,
    other: &U,
    out: &mut Vec<u8>,
    steps: &mut Steps<L>,
) -> Result<(), Memory>
    ensures text { OnOk result (out.new.items ≡ out.old.items
        ++ picture_with by facts.now newest (T.view tables.now) (U.view other.now)) }
{
    let sources = sources_of(alloc, hasher, other, steps)?;
    let listed = listed_in(sources.as_slice());
    let marks = marks_by(alloc, other, listed, steps)?;
    let names = names_in(
        alloc,
        tables,
        by,
        newest,
        marks.as_slice(),
        listed.len() as u8,
        steps,
    )?;
    let (groups, marks) = (sources.as_slice(), marks.as_slice());
    if spread_of(by, groups) == 0 {
        return picture_text::put_picture_by(alloc, by, facts, groups, marks, names, out);
    }
    let over = spread_marks(alloc, hasher, by, other, groups, steps)?;
    put_spread_picture(alloc, by, facts, groups, marks, names, over.as_slice(), out)
}

/// Appends the picture of the tables whose colours go by something. The file is of a chain of this
/// name. Takes memory for a copy of the record in each slot.
pub fn put_picture_by<T: TableView, G: BuildHasher, L: Ledger>(
    alloc: Global,
    hasher: &G,
    tables: &T,
    by: By,
    chain: &[u8],
    out: &mut Vec<u8>,
    steps: &mut Steps<L>,
) -> Result<(), Memory>
    ensures text { OnOk result (out.new.items ≡ out.old.items
        ++ picture_by by chain.now (T.view tables.now)) }
{
    let recs = tables.records(steps)?;
    let newest = newest_of(recs.items());
    let facts = facts_of(alloc, chain, recs.items(), tables.places())?;
    let other = Recoloured::of(alloc, tables, by, newest, steps)?;
    let facts = facts.as_slice();
    put_picture_with(alloc, hasher, by, facts, newest, tables, &other, out, steps)
}
