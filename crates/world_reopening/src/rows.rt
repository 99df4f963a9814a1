//! The rows of a kept world as commands.
ghost use Rattle.scr_world.specs.declared.command.Command.{Command};
ghost use Rattle.std.specs.Prelude.{◌≡◌, IfOk};
ghost use Rattle.world_reopening.specs.Reopening.{configuration_command, factory_command, install_command, own_command};
ghost use Rattle.bundle_doc.specs.declared.document.BundleDoc.{BundleDoc};

use crate::readings::{document_in, name_of, properties_in};
use bundle_doc::{BundleDoc, with_shared_texts};
use prop_map::{Copies, OutOfMemory, Properties, Str};
use scr_world::Command;
use std::alloc::Global;
use world_keeper::{KeptBundle, KeptConfiguration};

/// The command that a kept configuration is read as, if it has a reading.
pub(crate) fn configuration_command(
    alloc: Global,
    configuration: &KeptConfiguration,
) -> Result<Option<Command>, OutOfMemory>
    ensures { IfOk result (λ command. command ≡ configuration_command configuration.now) }
{
    match &configuration.factory {
        None => own_command(alloc, &configuration.pid, &configuration.properties),
        Some(factory) => {
            factory_command(
                alloc,
                factory,
                &configuration.pid,
                &configuration.properties,
            )
        }
    }
}

fn own_command(alloc: Global, pid: &Str, text: &Str) -> Result<Option<Command>, OutOfMemory>
    ensures { IfOk result (λ command. command ≡ own_command pid.now text.now) }
{
    match properties_in(alloc, text.as_str())? {
        Some(properties) => Ok(Some(configure(pid.copy(alloc)?, properties))),
        None => Ok(None),
    }
}

fn configure(pid: Str, properties: Properties) -> Command
    ensures { result ≡ Command.Configure pid properties }
{
    Command::Configure { pid, properties }
}

fn factory_command(
    alloc: Global,
    factory: &Str,
    pid: &Str,
    text: &Str,
) -> Result<Option<Command>, OutOfMemory>
    ensures { IfOk result (λ command. command ≡ factory_command factory.now pid.now text.now) }
{
    let Some(name) = name_of(factory.as_str(), pid.as_str()) else {
        return Ok(None);
    };
    match properties_in(alloc, text.as_str())? {
        Some(properties) => Ok(Some(named(alloc, factory, name, properties)?)),
        None => Ok(None),
    }
}

fn named(
    alloc: Global,
    factory: &Str,
    name: &str,
    properties: Properties,
) -> Result<Command, OutOfMemory>
    ensures { IfOk result (λ command. command ≡ Command.ConfigureFactory factory.now name.now properties) }
{
    let factory = factory.copy(alloc)?;
    let name = Str::spell(alloc, name)?;
    Ok(Command::ConfigureFactory {
        factory,
        name,
        properties,
    })
}

/// The command that a kept bundle is read as, if its document has a reading.
pub(crate) fn install_command(
    alloc: Global,
    bundle: &KeptBundle,
) -> Result<Option<Command>, OutOfMemory>
    ensures { IfOk result (λ command. command ≡ install_command bundle.now) }
{
    match document_in(alloc, bundle.document.as_str())? {
        Some(doc) => Ok(Some(Command::Install {
            doc: placed(alloc, doc, &bundle.location)?,
        })),
        None => Ok(None),
    }
}

// A document with this location. Its texts are shared, so that what is told of its components takes no memory for them.
fn placed(alloc: Global, mut doc: BundleDoc, location: &Str) -> Result<BundleDoc, OutOfMemory>
    ensures { IfOk result (λ placed. placed ≡ record doc { location = location.now }) }
{
    doc.location = location.copy(alloc)?;
    with_shared_texts(alloc, doc)
}
