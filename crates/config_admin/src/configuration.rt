//! A configuration.
ghost use Rattle.config_admin.specs.Configurations.{factory_configuration, own_configuration};
ghost use Rattle.prop_map.specs.Maps.{put};
ghost use Rattle.prop_map.specs.declared.value.Value.TheVariants.{Text};
ghost use Rattle.std.specs.Prelude.{◌≡◌, codes, IfOk};

use crate::pids::factory_pid;
use prop_map::{Copies, OutOfMemory, Properties, Str, Value};
use std::alloc::Global;

/// A configuration, or one of a factory.
#[derive(Debug, PartialEq, Eq, Drop)]
pub struct Configuration {
    /// Its PID; of a factory's configuration that of the factory, `~` and its name.
    pub pid: Str,
    /// The PID of its factory, if it has one.
    pub factory: Option<Str>,
    /// Its properties, `service.pid` among them, and `service.factoryPid` where it has a factory.
    pub properties: Properties,
}

impl Copies for Configuration {
    fn copy(&self, alloc: Global) -> Result<Configuration, OutOfMemory> {
        Ok(Configuration {
            pid: self.pid.copy(alloc)?,
            factory: self.factory.copy(alloc)?,
            properties: self.properties.copy(alloc)?,
        })
    }
}

/// The configuration of a PID with properties that were given.
pub(crate) fn own_configuration(
    alloc: Global,
    pid: &str,
    given: Properties,
) -> Result<Configuration, OutOfMemory>
    ensures { IfOk result (λ made. made ≡ own_configuration pid.now given) }
{
    let pid = Str::of(String::from_str(alloc, pid)?).shared(alloc)?;
    let properties = with_pid(alloc, given, &pid)?;
    Ok(Configuration {
        pid,
        factory: None,
        properties,
    })
}

/// The configuration of a factory with a name.
pub(crate) fn factory_configuration(
    alloc: Global,
    factory: &str,
    name: &str,
    given: Properties,
) -> Result<Configuration, OutOfMemory>
    ensures { IfOk result (λ made. made ≡ factory_configuration factory.now name.now given) }
{
    let pid = factory_pid(alloc, factory, name)?.shared(alloc)?;
    let factory = Str::of(String::from_str(alloc, factory)?).shared(alloc)?;
    let mut properties = with_pid(alloc, given, &pid)?;
    properties.set(
        alloc,
        "service.factoryPid",
        Value::Text(factory.copy(alloc)?),
    )?;
    Ok(Configuration {
        pid,
        factory: Some(factory),
        properties,
    })
}

// Properties that tell a PID.
fn with_pid(alloc: Global, given: Properties, pid: &Str) -> Result<Properties, OutOfMemory>
    ensures { IfOk result (λ told. told ≡ put given (codes "service.pid") (Text pid.now)) }
{
    let mut properties = given;
    properties.set(alloc, "service.pid", Value::Text(pid.copy(alloc)?))?;
    Ok(properties)
}
