//! `risk`: `RiskText`, the parts of groups as a text of a view; and `AFTER_RESTART`.

ghost use Rattle.std.specs.Prelude.{◌≡◌};
ghost use Rattle.addrman_run.specs.Risk.{by_of};

use crate::Memory;
use crate::view_text::ViewText;
use arguments::Grouping;
use std::alloc::Global;
use std::hash::BuildHasher;
use std::sync::ledger::Ledger;
use steps::Steps;
use table_groups::TableView;
use table_risk::{By, risk_text};

/// The time of the picks, in seconds since 1970. The tables of a file know of no try, as after a
/// restart, and so the text is the same at any later time (`parts_last` of `risk_parts`, and
/// `later` of `rows_are_bounds`).
pub const AFTER_RESTART: u32 = 600;

/// Which part of the picks falls to each group of the records, at most.
#[derive(Drop)]
pub(crate) struct RiskText {
    /// What makes records one group.
    pub(crate) by: Grouping,
}

impl ViewText for RiskText {
    ghost use Rattle.std.specs.Prelude.{⊤};
    ghost use Rattle.addrman_run.specs.Risk.{IsRisk};

    ghost is_text = { λ command. IsRisk command.by };

    ghost ready = { λ _. ⊤ };

    fn text_of<V: TableView, G: BuildHasher, L: Ledger>(
        &self,
        alloc: Global,
        hasher: &G,
        tables: &V,
        steps: &mut Steps<L>,
    ) -> Result<Vec<u8>, Memory> {
        risk_text(alloc, hasher, tables, by_of(self.by), AFTER_RESTART, steps)
    }
}

/// Returns what makes records one group.
fn by_of(by: Grouping) -> By
    ensures { result ≡ by_of by }
{
    match by {
        Grouping::Source => By::Source,
        Grouping::Peer => By::Peer,
        Grouping::Network => By::Network,
    }
}
