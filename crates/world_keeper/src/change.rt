//! A change of what is kept.
ghost use Rattle.std.specs.Prelude.{◌≡◌, IfOk};

use prop_map::{Copies, OutOfMemory, Str};
use std::alloc::Global;

/// A change of what is kept: what a command did, by locations and PIDs.
#[derive(Debug, PartialEq, Eq, Drop)]
pub enum Change {
    /// A bundle was installed.
    Install {
        /// Its location.
        location: Str,
        /// Its document, a JSON text.
        document: Str,
    },
    /// A bundle has another document.
    Update {
        /// Its location.
        location: Str,
        /// The document.
        document: Str,
    },
    /// A bundle was uninstalled.
    Remove {
        /// Its location.
        location: Str,
    },
    /// A bundle was started or stopped.
    Started {
        /// Its location.
        location: Str,
        /// Whether it was started.
        yes: bool,
    },
    /// A PID has a configuration.
    Configured {
        /// The PID; of a factory's configuration that of the factory, `~` and its name.
        pid: Str,
        /// The PID of its factory, if it has one.
        factory: Option<Str>,
        /// Its properties, a JSON text.
        properties: Str,
    },
    /// A PID has no configuration any more.
    Unconfigured {
        /// The PID.
        pid: Str,
    },
}

impl Copies for Change {
    fn copy(&self, alloc: Global) -> Result<Change, OutOfMemory> {
        match self {
            Change::Install { location, document } => installed(alloc, location, document),
            Change::Update { location, document } => updated(alloc, location, document),
            Change::Remove { location } => removed(alloc, location),
            Change::Started { location, yes } => started(alloc, location, *yes),
            Change::Configured {
                pid,
                factory,
                properties,
            } => configured(alloc, pid, factory, properties),
            Change::Unconfigured { pid } => unconfigured(alloc, pid),
        }
    }
}

pub(crate) fn installed(
    alloc: Global,
    location: &Str,
    document: &Str,
) -> Result<Change, OutOfMemory>
    ensures { IfOk result (λ change. change ≡ Change.Install location.now document.now) }
{
    Ok(Change::Install {
        location: location.copy(alloc)?,
        document: document.copy(alloc)?,
    })
}

fn updated(alloc: Global, location: &Str, document: &Str) -> Result<Change, OutOfMemory>
    ensures { IfOk result (λ change. change ≡ Change.Update location.now document.now) }
{
    Ok(Change::Update {
        location: location.copy(alloc)?,
        document: document.copy(alloc)?,
    })
}

fn removed(alloc: Global, location: &Str) -> Result<Change, OutOfMemory>
    ensures { IfOk result (λ change. change ≡ Change.Remove location.now) }
{
    Ok(Change::Remove {
        location: location.copy(alloc)?,
    })
}

pub(crate) fn started(alloc: Global, location: &Str, yes: bool) -> Result<Change, OutOfMemory>
    ensures { IfOk result (λ change. change ≡ Change.Started location.now yes) }
{
    Ok(Change::Started {
        location: location.copy(alloc)?,
        yes,
    })
}

pub(crate) fn configured(
    alloc: Global,
    pid: &Str,
    factory: &Option<Str>,
    properties: &Str,
) -> Result<Change, OutOfMemory>
    ensures { IfOk result (λ change. change ≡ Change.Configured pid.now factory.now properties.now) }
{
    Ok(Change::Configured {
        pid: pid.copy(alloc)?,
        factory: factory.copy(alloc)?,
        properties: properties.copy(alloc)?,
    })
}

fn unconfigured(alloc: Global, pid: &Str) -> Result<Change, OutOfMemory>
    ensures { IfOk result (λ change. change ≡ Change.Unconfigured pid.now) }
{
    Ok(Change::Unconfigured {
        pid: pid.copy(alloc)?,
    })
}
