//! `Class` and `Search`: for each chance, how many starts lead to records, in all and by group.

ghost use Rattle.std.specs.Prelude.{◌≡◌, ◌≤◌, ◌<◌, ◌+◌, ◌^◌, ℕ, List, IfOk, OnOk, length, map};
ghost use Rattle.risk_laws.specs.Classes.{chances};
ghost use Rattle.table_groups.specs.Tally.{by_bytes, noted, value_in};
ghost use Rattle.slot_grid.specs.declared.sizes.TheConstants.{NEW_SLOTS};
ghost use Rattle.table_risk.specs.Inside.{all_starts, class_by, class_value, class_visits, kind_in, plus};
ghost use Rattle.table_risk.specs.Occupants.{starts_in};

use crate::occupants::Occupant;
use crate::{By, Memory};
use arrayvec::ArrayVec;
use indexmap::IndexMap;
use placing::Placer;
use risk_parts::CHANCES;
use risk_sum::Kind;
use std::alloc::{AllocError, Global};
use std::hash::BuildHasher;
use table_groups::{Group, Lent, Tally, put_value, value_of};

/// What is asked about one table.
#[derive(Clone, Copy)]
pub(crate) struct Search {
    /// the new table, or else the tried one
    pub(crate) in_new: bool,
    pub(crate) by: By,
    /// in seconds since 1970
    pub(crate) now: u32,
}

/// How many starts of a table lead to records of one chance.
#[derive(Drop)]
pub(crate) struct Class<'a, H: BuildHasher> {
    chance: u32,
    /// to all records
    all: u32,
    /// to those of each group
    groups: Tally<'a, u32, H>,
}

/// Adds starts to those of a group.
fn add_starts<H: BuildHasher>(
    tally: &mut Tally<'_, u32, H>,
    group: Group,
    starts: u32,
) -> Result<(), AllocError>
    requires { (g : List ℕ) → value_in 0 (by_bytes tally.old.entries) g + starts < 2 ^ 32 }
    ensures { OnOk result (by_bytes tally.new.entries
        ≡ noted 0 plus (by_bytes tally.old.entries) (group.items, starts)) }
{
    let sum = value_of(tally, &group, 0) + starts;
    put_value(tally, group, sum)
}

/// Returns how many of the starts lead to records of the chance.
#[tactic(auto, unfolding(crate::specs::Inside::class_visits))]
fn class_of<'a, G: BuildHasher>(
    alloc: Global,
    hasher: &'a G,
    placer: &Placer<'_>,
    occupants: &[Occupant],
    what: Search,
    chance: u32,
) -> Result<Class<'a, G>, Memory>
    requires { all_starts (class_visits placer.now what occupants.now chance) ≤ NEW_SLOTS }
    ensures { IfOk result (λ class.
        class_value class ≡ class_by placer.now what occupants.now chance) }
{
    let mut groups = IndexMap::with_hasher(alloc, Lent::of(hasher));
    let mut all = 0;
    for occupant in occupants {
        let rec = &occupant.rec;
        if rec.chance(what.now) == u64::from(chance) {
            let starts = occupant.starts;
            all += starts;
            add_starts(&mut groups, what.by.group(placer, rec), starts)?;
        }
    }
    Ok(Class {
        chance,
        all,
        groups,
    })
}

/// Returns how many of the starts lead to records of each chance.
pub(crate) fn classes_of<'a, G: BuildHasher>(
    alloc: Global,
    hasher: &'a G,
    placer: &Placer<'_>,
    occupants: &[Occupant],
    what: Search,
) -> Result<Vec<Class<'a, G>>, Memory>
    requires { starts_in occupants.now ≤ NEW_SLOTS }
    ensures { IfOk result (λ classes. map class_value classes.items
        ≡ map (class_by placer.now what occupants.now) chances) }
{
    let mut classes = Vec::new(alloc);
    for chance in &CHANCES {
        classes.push(class_of(alloc, hasher, placer, occupants, what, *chance)?)?;
    }
    Ok(classes)
}

/// Returns the starts of a class, and those that lead to records of a group.
fn kind_in<H: BuildHasher>(class: &Class<'_, H>, group: &Group) -> Kind
    ensures { result ≡ kind_in group.now.items (class_value class.now) }
{
    Kind {
        chance: class.chance,
        all: class.all,
        theirs: value_of(&class.groups, group, 0),
    }
}

/// Returns the same of each class.
pub(crate) fn kinds_in<H: BuildHasher>(
    classes: &[Class<'_, H>],
    group: &Group,
) -> ArrayVec<Kind, 18>
    requires { length classes.now ≤ 18 }
    ensures { result.items ≡ map (kind_in group.now.items) (map class_value classes.now) }
{
    let mut kinds = ArrayVec::new();
    for class in classes {
        kinds.push(kind_in(class, group));
    }
    kinds
}
