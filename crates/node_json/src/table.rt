//! `Table`: `new` or `tried`, as JSON names it.

/// One of the two tables.
#[derive(Clone, Copy)]
pub enum Table {
    New,
    Tried,
}

impl Table {
    ghost use Rattle.std.specs.Prelude.{◌≡◌};
    ghost use Rattle.node_json.specs.Raw.{buckets_of, name_of};

    /// Returns the number of its buckets.
    pub(crate) fn buckets(self) -> u16
        ensures { result ≡ buckets_of self }
    {
        match self {
            Table::New => slot_grid::NEW_BUCKETS,
            Table::Tried => slot_grid::TRIED_BUCKETS,
        }
    }

    /// Returns its name.
    pub(crate) fn name(self) -> &'static str
        ensures { result.now ≡ name_of self }
    {
        match self {
            Table::New => "new",
            Table::Tried => "tried",
        }
    }
}
