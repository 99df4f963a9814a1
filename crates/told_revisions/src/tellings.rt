//! What an instance was told of services, and when it was to forget it.

use prop_map::{Copies, OutOfMemory, Str};
use std::alloc::Global;

/// The revision of a service that an instance was told of last.
#[derive(Drop)]
pub struct ToldRevision {
    /// The name of the reference.
    pub reference: Str,
    /// The number of the service.
    pub service: u64,
    /// The service's revision when its Bind or its last Updated began.
    pub revision: u64,
}

impl Copies for ToldRevision {
    fn copy(&self, alloc: Global) -> Result<ToldRevision, OutOfMemory> {
        Ok(ToldRevision {
            reference: self.reference.copy(alloc)?,
            service: self.service,
            revision: self.revision,
        })
    }
}

/// A revision that was told, or a service of which nothing is told any more.
#[derive(Drop)]
pub(crate) enum Telling {
    Told(ToldRevision),
    Forgotten { reference: Str, service: u64 },
}

impl Copies for Telling {
    fn copy(&self, alloc: Global) -> Result<Telling, OutOfMemory> {
        match self {
            Telling::Told(told) => Ok(Telling::Told(told.copy(alloc)?)),
            Telling::Forgotten { reference, service } => Ok(Telling::Forgotten {
                reference: reference.copy(alloc)?,
                service: *service,
            }),
        }
    }
}
