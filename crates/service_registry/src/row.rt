//! A registered service.

ghost use Rattle.service_registry.specs.declared.row.ServiceRow.{ServiceRow};
ghost use Rattle.std.specs.Prelude.{◌≡◌};

use crate::Interfaces;
use prop_map::{Copies, OutOfMemory, Properties};
use std::alloc::Global;

/// A registered service.
#[derive(Debug, PartialEq, Eq, Drop)]
pub struct ServiceRow {
    /// Its number, from 1 on, in the order of registration. 0 is the platform's own service.
    pub id: u64,
    /// The bundle that registered it, 0 for the platform.
    pub bundle: u64,
    /// Its interfaces.
    pub interfaces: Interfaces,
    /// Its properties, those that every service has among them.
    pub properties: Properties,
    /// How often its properties were set since it was registered.
    pub revision: u64,
    /// A command registered it, or the platform did: there is no component behind it.
    pub direct: bool,
}

impl Copies for ServiceRow {
    fn copy(&self, alloc: Global) -> Result<ServiceRow, OutOfMemory> {
        Ok(ServiceRow {
            id: self.id,
            bundle: self.bundle,
            interfaces: self.interfaces.copy(alloc)?,
            properties: self.properties.copy(alloc)?,
            revision: self.revision,
            direct: self.direct,
        })
    }
}

/// What has the row of a service: the row itself, or what keeps a service registered.
pub trait HasRow: Sized {
    ghost row_of: { Self → ServiceRow };

    /// The row.
    fn row(&self) -> &ServiceRow
        ensures { result.now ≡ row_of self.now };
}

impl HasRow for ServiceRow {
    ghost row_of = { λ r. r };

    fn row(&self) -> &ServiceRow {
        self
    }
}
