//! Component configurations (OSGi Compendium 8, chapter 112, "Components").
use component_dto::Description;
use prop_map::{Copies, OutOfMemory, Properties, Shared, Str};
use std::alloc::Global;

/// A component configuration.
#[derive(Debug, PartialEq, Eq, Drop)]
pub struct Component {
    /// Its number, from 1 on, in the order in which they come.
    pub number: u64,
    /// The number of its bundle.
    pub bundle: u64,
    /// The index of its description in the bundle's document, from 0 on.
    pub index: u64,
    /// The PID of the factory's configuration that names it, if one does.
    pub pid: Option<Str>,
    /// It hasn't ceased.
    pub exists: bool,
    /// Its description, which goes on with it from command to command.
    pub description: Shared<Description>,
    /// Each of its PIDs has a configuration that counts.
    pub configured: bool,
    /// Its properties, its name and its number among them.
    pub properties: Properties,
    /// The place of the entry that changed its properties last, if one did since it came.
    pub changed: Option<u64>,
}

impl Copies for Component {
    fn copy(&self, alloc: Global) -> Result<Component, OutOfMemory> {
        Ok(Component {
            number: self.number,
            bundle: self.bundle,
            index: self.index,
            pid: self.pid.copy(alloc)?,
            exists: self.exists,
            description: self.description.share()?,
            configured: self.configured,
            properties: self.properties.copy(alloc)?,
            changed: self.changed,
        })
    }
}
