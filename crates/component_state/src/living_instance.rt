//! Living instances, as the component configurations of a platform know them.
use crate::Origin;
use prop_map::{Copies, OutOfMemory};
use std::alloc::Global;

/// A living instance.
#[derive(Debug, PartialEq, Eq, Drop)]
pub struct LivingInstance {
    /// Its number.
    pub number: u64,
    /// Where it comes from.
    pub origin: Origin,
    /// It is active.
    pub active: bool,
}

impl Copies for LivingInstance {
    fn copy(&self, alloc: Global) -> Result<LivingInstance, OutOfMemory> {
        Ok(LivingInstance {
            number: self.number,
            origin: self.origin.copy(alloc)?,
            active: self.active,
        })
    }
}
