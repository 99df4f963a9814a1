//! Patterns in effect.
use prop_map::{Copies, OutOfMemory, Str};
use std::alloc::Global;

/// A pattern in effect: in a context it belongs to a servlet.
#[derive(Drop)]
pub struct RouteRow {
    /// The context's path.
    pub path: Str,
    /// The pattern's text.
    pub pattern: Str,
    /// The servlet's service.
    pub service: u64,
}

impl Copies for RouteRow {
    fn copy(&self, alloc: Global) -> Result<RouteRow, OutOfMemory> {
        Ok(RouteRow {
            path: self.path.copy(alloc)?,
            pattern: self.pattern.copy(alloc)?,
            service: self.service,
        })
    }
}
