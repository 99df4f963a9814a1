//! What a keeper keeps, and how a platform is made again from it, as lines of a text.

use prop_map::{OutOfMemory, Properties, Value};
use scr_world::Command;
use std::alloc::Global;
use world_keeper::{Keeper, Kept, KeptBundle, KeptConfiguration};
use world_reopening::reopen_commands;

/// Whether the bundles that a keeper keeps, the configurations, and the commands for them, or why there are none, are shown so.
pub(crate) fn is_shown<K: Keeper>(alloc: Global, keeper: &mut K, wanted: &str) -> bool {
    match keeper.load() {
        Ok(kept) => is_text(text_of(alloc, &kept), wanted),
        Err(_) => false,
    }
}

fn is_text(text: Result<String, OutOfMemory>, wanted: &str) -> bool {
    match text {
        Ok(text) => text.as_str() == wanted,
        Err(_) => false,
    }
}

fn text_of(alloc: Global, kept: &Kept) -> Result<String, OutOfMemory> {
    let mut text = String::new(alloc);
    add_kept(&mut text, kept)?;
    add_commands(alloc, &mut text, kept)?;
    Ok(text)
}

fn add_kept(text: &mut String, kept: &Kept) -> Result<(), OutOfMemory> {
    for bundle in kept.bundles.as_slice() {
        add_bundle(text, bundle)?;
    }
    for configuration in kept.configurations.as_slice() {
        add_configuration(text, configuration)?;
    }
    Ok(())
}

fn add_bundle(text: &mut String, bundle: &KeptBundle) -> Result<(), OutOfMemory> {
    text.push_str(bundle.location.as_str())?;
    text.push_str(if bundle.started {
        " started "
    } else {
        " stopped "
    })?;
    text.push_str(bundle.document.as_str())?;
    text.push('\n')
}

fn add_configuration(
    text: &mut String,
    configuration: &KeptConfiguration,
) -> Result<(), OutOfMemory> {
    text.push_str(configuration.pid.as_str())?;
    text.push_str(" of ")?;
    match &configuration.factory {
        Some(factory) => text.push_str(factory.as_str())?,
        None => text.push_str("none")?,
    }
    text.push(' ')?;
    text.push_str(configuration.properties.as_str())?;
    text.push('\n')
}

fn add_commands(alloc: Global, text: &mut String, kept: &Kept) -> Result<(), OutOfMemory> {
    match reopen_commands(alloc, kept) {
        Ok(commands) => add_all(alloc, text, commands.as_slice()),
        Err(fault) => add(text, format!(in alloc; "{fault}\n")),
    }
}

fn add_all(alloc: Global, text: &mut String, commands: &[Command]) -> Result<(), OutOfMemory> {
    for command in commands {
        add(text, line_of(alloc, command))?;
    }
    Ok(())
}

fn add(text: &mut String, line: Result<String, OutOfMemory>) -> Result<(), OutOfMemory> {
    match line {
        Ok(line) => text.push_str(line.as_str()),
        Err(fault) => Err(fault),
    }
}

fn line_of(alloc: Global, command: &Command) -> Result<String, OutOfMemory> {
    match command {
        Command::Configure { pid, properties } => {
            format!(in alloc; "configure {pid} {}\n", number_in(properties))
        }
        Command::ConfigureFactory {
            factory,
            name,
            properties,
        } => format!(in alloc; "configure {factory} {name} {}\n", number_in(properties)),
        Command::Install { doc } => format!(in alloc; "install {}\n", doc.location),
        Command::Start { bundle } => format!(in alloc; "start {bundle}\n"),
        _ => String::from_str(alloc, "another\n"),
    }
}

fn number_in(properties: &Properties) -> i64 {
    match properties.get("v") {
        Some(Value::Whole(number)) => *number,
        _ => 0,
    }
}
