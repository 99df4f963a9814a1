//! Changes that a keeper is told.

use prop_map::{OutOfMemory, Str};
use std::alloc::Global;
use world_keeper::{Change, KeepFault, Keeper};

/// The document of the bundle P.
pub(crate) const P: &str = r#"{"location":"p"}"#;

/// The document of the bundle C.
pub(crate) const C: &str = r#"{"location":"c"}"#;

/// A change, by its texts.
#[derive(Clone, Copy)]
pub(crate) enum Told<'t> {
    /// A bundle is installed: its location and its document.
    Install(&'t str, &'t str),
    /// A bundle has another document.
    Update(&'t str, &'t str),
    /// A bundle is uninstalled.
    Remove(&'t str),
    /// A bundle is started.
    Start(&'t str),
    /// A bundle is stopped.
    Stop(&'t str),
    /// A PID has a configuration with these properties.
    Configure(&'t str, &'t str),
    /// A configuration of a factory, by the PIDs of both, has these properties.
    ConfigureFactory(&'t str, &'t str, &'t str),
    /// A PID has no configuration any more.
    Unconfigure(&'t str),
}

fn install(alloc: Global, location: &str, document: &str) -> Result<Change, OutOfMemory> {
    let location = Str::spell(alloc, location)?;
    let document = Str::spell(alloc, document)?;
    Ok(Change::Install { location, document })
}

fn update(alloc: Global, location: &str, document: &str) -> Result<Change, OutOfMemory> {
    let location = Str::spell(alloc, location)?;
    let document = Str::spell(alloc, document)?;
    Ok(Change::Update { location, document })
}

fn remove(alloc: Global, location: &str) -> Result<Change, OutOfMemory> {
    let location = Str::spell(alloc, location)?;
    Ok(Change::Remove { location })
}

fn started(alloc: Global, location: &str, yes: bool) -> Result<Change, OutOfMemory> {
    let location = Str::spell(alloc, location)?;
    Ok(Change::Started { location, yes })
}

fn configure(alloc: Global, pid: &str, properties: &str) -> Result<Change, OutOfMemory> {
    let pid = Str::spell(alloc, pid)?;
    let properties = Str::spell(alloc, properties)?;
    Ok(Change::Configured {
        pid,
        factory: None,
        properties,
    })
}

fn configure_factory(
    alloc: Global,
    factory: &str,
    pid: &str,
    properties: &str,
) -> Result<Change, OutOfMemory> {
    let factory = Str::spell(alloc, factory)?;
    let pid = Str::spell(alloc, pid)?;
    let properties = Str::spell(alloc, properties)?;
    Ok(Change::Configured {
        pid,
        factory: Some(factory),
        properties,
    })
}

fn unconfigure(alloc: Global, pid: &str) -> Result<Change, OutOfMemory> {
    let pid = Str::spell(alloc, pid)?;
    Ok(Change::Unconfigured { pid })
}

fn change(alloc: Global, told: &Told<'_>) -> Result<Change, OutOfMemory> {
    match told {
        Told::Install(location, document) => install(alloc, location, document),
        Told::Update(location, document) => update(alloc, location, document),
        Told::Remove(location) => remove(alloc, location),
        Told::Start(location) => started(alloc, location, true),
        Told::Stop(location) => started(alloc, location, false),
        Told::Configure(pid, properties) => configure(alloc, pid, properties),
        Told::ConfigureFactory(factory, pid, properties) => {
            configure_factory(alloc, factory, pid, properties)
        }
        Told::Unconfigure(pid) => unconfigure(alloc, pid),
    }
}

/// Tells a change, where there is memory for it.
pub(crate) fn tell<K: Keeper>(
    alloc: Global,
    keeper: &mut K,
    told: &Told<'_>,
) -> Result<(), KeepFault> {
    match change(alloc, told) {
        Ok(change) => keeper.apply(&change),
        Err(_) => Err(KeepFault::OutOfMemory),
    }
}

/// Tells changes, and whether each was kept.
pub(crate) fn tells<K: Keeper>(alloc: Global, keeper: &mut K, changes: &[Told<'_>]) -> bool {
    for told in changes {
        if tell(alloc, keeper, told).is_err() {
            return false;
        }
    }
    true
}
