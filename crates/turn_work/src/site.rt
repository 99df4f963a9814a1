//! What component code is told of an instance.

use prop_map::{Copies, OutOfMemory, Properties, Str};
use std::alloc::Global;

/// What component code is told of an instance.
#[derive(Debug, PartialEq, Eq, Drop)]
pub struct Site {
    /// The name of its implementation class.
    pub class: Str,
    /// Its component properties, as it took them when its Create or its last Modified began.
    pub properties: Properties,
}

impl Copies for Site {
    fn copy(&self, alloc: Global) -> Result<Site, OutOfMemory> {
        Ok(Site {
            class: self.class.copy(alloc)?,
            properties: self.properties.copy(alloc)?,
        })
    }
}
