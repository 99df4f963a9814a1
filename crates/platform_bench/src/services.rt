//! Services that come and go.
use anyhow::{Result, bail};
use prop_map::{List, Properties, Str};
use scr_core::{Command, Core, Reply};
use std::alloc::Global;

/// Registers so many services, each of an interface of its own.
pub(crate) fn register_many(alloc: Global, core: &mut Core, bundle: u64, count: u64) -> Result<()> {
    for number in 0..count {
        let _service = register(alloc, core, bundle, format!(in alloc; "S{number}")?)?;
    }
    Ok(())
}

/// Registers a service and unregisters it, so many times.
pub(crate) fn come_and_go(alloc: Global, core: &mut Core, bundle: u64, times: u64) -> Result<()> {
    for _ in 0..times {
        let service = register(alloc, core, bundle, format!(in alloc; "S")?)?;
        core.command(alloc, Command::Unregister { bundle, service })?;
    }
    Ok(())
}

fn register(alloc: Global, core: &mut Core, bundle: u64, interface: String) -> Result<u64> {
    let mut interfaces = Vec::new(alloc);
    interfaces.push(Str::of(interface))?;
    let command = Command::Register {
        bundle,
        interfaces: List::of(interfaces),
        properties: Properties::new(alloc),
    };
    match core.command(alloc, command)?.reply {
        Reply::Service(service) => Ok(service),
        _ => bail!("no service was registered"),
    }
}
