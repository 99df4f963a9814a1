//! What a pass looks at.
use crate::{Component, OpenPeriod, Origin};
use component_dto::Description;
use service_registry::ServiceRow;
use std::marker::Model;

/// What stands when the pass of an entry begins. Its rows are borrowed, so a pass changes none of them.
#[derive(Debug, Drop)]
pub struct Stage<'a> {
    /// The place of the entry, from 0 on.
    pub place: u64,
    /// The number of the next service, from 1 on.
    pub next: u64,
    /// The descriptions of all installed bundles.
    pub descriptions: &'a [Description],
    /// Their levels, in the same order.
    pub levels: &'a [u32],
    /// The direct services.
    pub direct: &'a [ServiceRow],
    /// The component configurations, by number.
    pub components: &'a [Component],
    /// What was open before the entry, with the properties that it has now, in the order of the openings.
    pub open_before: &'a [OpenPeriod],
    /// The living instances.
    pub origins: &'a [&'a Origin],
    /// The component configurations that are failed after the entry.
    pub failed: &'a [u64],
    /// Those whose creation or activation ended in it without success.
    pub failing: &'a [u64],
}

impl<'a> Model for Stage<'a> {
    ghost use Rattle.component_state.specs.Passes.{Stage as Standing};
    ghost use Rattle.std.specs.Prelude.{map};

    ghost Value = { Standing };

    ghost view = { λ s. record {
      place = s.place;
      next = s.next;
      descriptions = s.descriptions.now;
      levels = s.levels.now;
      direct = s.direct.now;
      components = s.components.now;
      open_before = s.open_before.now;
      origins = map (λ o. o.now) s.origins.now;
      failed = s.failed.now;
      failing = s.failing.now;
    } };
}
