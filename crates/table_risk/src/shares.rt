//! `share`: of 2^64 searches of a table, how many end at a group.

ghost use Rattle.std.specs.Prelude.{◌≡◌, ◌≤◌, ◌*◌, ◌^◌, length, map};
ghost use Rattle.risk_sum.specs.Kinds.{AreKinds, most_by, starts_of};
ghost use Rattle.table_risk.specs.Inside.{class_value, kind_in};

use crate::classes::{Class, kinds_in};
use risk_sum::most;
use std::hash::BuildHasher;
use table_groups::Group;

/// Returns how many of 2^64 searches of a table end at records of a group, at most.
pub(crate) fn share<H: BuildHasher>(classes: &[Class<'_, H>], group: &Group, ahead: u32) -> u128
    requires few { length classes.now ≤ 18 }
    requires ahead { ahead ≤ 64 }
    requires kinds { AreKinds (map (kind_in group.now.items) (map class_value classes.now)) }
    ensures { let kinds = map (kind_in group.now.items) (map class_value classes.now) in
        result ≡ most_by kinds (starts_of kinds * 2 ^ 30) (2 ^ 64) ahead (2 ^ 30) }
{
    most(kinds_in(classes, group).as_slice(), ahead)
}
