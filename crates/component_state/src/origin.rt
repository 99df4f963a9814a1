//! Where living instances come from.
use prop_map::{Copies, List, OutOfMemory};
use std::alloc::Global;

/// The services that an instance chose at its Create for a static reference.
#[derive(Debug, PartialEq, Eq, Drop)]
pub struct Choice {
    /// The index of the reference in the description, from 0 on.
    pub reference: u64,
    /// The numbers of the services, best first.
    pub services: List<u64>,
}

impl Copies for Choice {
    fn copy(&self, alloc: Global) -> Result<Choice, OutOfMemory> {
        Ok(Choice {
            reference: self.reference,
            services: List::of(Vec::from_slice(alloc, self.services.as_slice())?),
        })
    }
}

/// Where a living instance comes from. It is what a pass sees of the instance.
#[derive(Debug, PartialEq, Eq, Drop)]
pub struct Origin {
    /// The number of its component configuration.
    pub configuration: u64,
    /// The place of the entry in which its Create began, from 0 on.
    pub created: u64,
    /// What it chose at its Create, for each static reference.
    pub chosen: List<Choice>,
}

impl Copies for Origin {
    fn copy(&self, alloc: Global) -> Result<Origin, OutOfMemory> {
        Ok(Origin {
            configuration: self.configuration,
            created: self.created,
            chosen: self.chosen.copy(alloc)?,
        })
    }
}
