//! A bundle that is about to change, kept so that it can be put back without memory.
use crate::BundleLife;
use row_places::RowRoom;
use std::marker::Model;

/// A bundle as it was before a step, how many events there were, and room for the rows. Contracts see for how many.
#[derive(Drop)]
pub struct KeptBundle {
    pub(crate) row: BundleLife,
    pub(crate) events: usize,
    pub(crate) room: RowRoom<BundleLife>,
}

impl Model for KeptBundle {
    ghost use Rattle.bundle_life.specs.Undoing.{Kept};

    ghost Value = { Kept };

    ghost view = { λ k. record { row = k.row; events = k.events; room = k.room } };
}
