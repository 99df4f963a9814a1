//! Open periods: from the entry that opens a component configuration to the next one that closes it.
ghost use Rattle.component_state.specs.declared.open_period.OpenPeriod.{OpenPeriod};

use prop_map::{Copies, OutOfMemory};
use service_registry::{HasRow, ServiceRow};
use std::alloc::Global;

/// An open period that hasn't ended.
#[derive(Debug, PartialEq, Eq, Drop)]
pub struct OpenPeriod {
    /// The number of the component configuration that is open.
    pub configuration: u64,
    /// The place of the entry that opened it, from 0 on.
    pub opened: u64,
    /// Its service. Where the component provides none, this has the number 0 and no interfaces.
    pub row: ServiceRow,
}

impl Copies for OpenPeriod {
    fn copy(&self, alloc: Global) -> Result<OpenPeriod, OutOfMemory> {
        Ok(OpenPeriod {
            configuration: self.configuration,
            opened: self.opened,
            row: self.row.copy(alloc)?,
        })
    }
}

impl HasRow for OpenPeriod {
    ghost row_of = { λ (p : OpenPeriod). p.row };

    fn row(&self) -> &ServiceRow {
        &self.row
    }
}
