//! A table as it was.
use crate::rows::BundleRows;
use std::marker::Model;

/// The bundles as they were when they were saved: a copy of the rows, and how many events there were.
#[derive(Drop)]
pub struct Saved {
    pub(crate) rows: BundleRows,
    pub(crate) owed: usize,
    pub(crate) events: usize,
}

impl Model for Saved {
    ghost use Rattle.bundle_life.specs.Numbers.{SavedBundles, stops};
    ghost use Rattle.std.specs.Prelude.{◌≡◌};
    ghost use Rattle.std.specs.List.{count_by};

    ghost Value = { SavedBundles };

    ghost view = { λ s. record { rows = s.rows.rows; numbered = s.rows.numbered; events = s.events } };

    ghost invariant = { λ s. s.owed ≡ count_by stops s.rows.rows };
}
