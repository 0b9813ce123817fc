//! `Tally`, a map from groups to values; and `Lent`, a maker of hashers that is borrowed.

ghost use Rattle.std.specs.Prelude.{◌≡◌, bytes_eq, OnOk};
ghost use Rattle.indexmap.specs.IndexMap.{insert_entry};
ghost use Rattle.table_groups.specs.Tally.{by_bytes, value_in};

use crate::Group;
use indexmap::IndexMap;
use std::alloc::{AllocError, Global};
use std::hash::BuildHasher;

/// A maker of hashers that is lent, so that several maps have one.
#[derive(Clone, Copy)]
pub struct Lent<'a, H> {
    hasher: &'a H,
}

impl<'a, H: BuildHasher> Lent<'a, H> {
    /// Lends a maker of hashers.
    pub fn of(hasher: &'a H) -> Lent<'a, H> {
        Lent { hasher }
    }
}

impl<'a, H: BuildHasher> BuildHasher for Lent<'a, H> {
    type Hasher = H::Hasher;

    ghost build_hasher = { λ lent. H.build_hasher lent.hasher.now };

    fn build_hasher(&self) -> H::Hasher {
        self.hasher.build_hasher()
    }
}

/// The values of groups, in the order of the first ones.
pub type Tally<'a, V, H> = IndexMap<Group, V, Lent<'a, H>>;

/// Returns the value of a group, `none` if it has none.
pub fn value_of<V: Copy, H: BuildHasher>(tally: &Tally<'_, V, H>, group: &Group, none: V) -> V
    ensures { result ≡ value_in none (by_bytes tally.now.entries) group.now.items }
{
    match tally.get(group) {
        Some(value) => *value,
        None => none,
    }
}

/// Writes the value of a group.
pub fn put_value<V: Copy + Drop, H: BuildHasher>(
    tally: &mut Tally<'_, V, H>,
    group: Group,
    value: V,
) -> Result<(), AllocError>
    ensures { OnOk result (by_bytes tally.new.entries
        ≡ insert_entry bytes_eq (by_bytes tally.old.entries) group.items value) }
{
    tally.insert(group, value)?;
    Ok(())
}
