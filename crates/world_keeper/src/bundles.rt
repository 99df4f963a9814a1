//! Bundles as they are kept, changed in place.
ghost use Rattle.std.specs.Prelude.{◌≡◌, map, IfOk, OnOk};
ghost use Rattle.world_keeper.specs.KeptWorlds.{bundles_after, is_marked, with_document, with_install};
ghost use Rattle.world_keeper.specs.KeptWorlds.{with_mark, without_location};

use crate::{Change, KeptBundle};
use prop_map::{Copies, OutOfMemory, Str};
use std::alloc::Global;

/// Changes bundles as a change says. They may be changed in part where there is no memory.
pub(crate) fn change_bundles(
    alloc: Global,
    bundles: &mut Vec<KeptBundle>,
    change: &Change,
) -> Result<(), OutOfMemory>
    ensures { OnOk result (bundles.new.items ≡ bundles_after bundles.old.items change.now) }
{
    match change {
        Change::Install { location, document } => install(alloc, bundles, location, document),
        Change::Update { location, document } => {
            update(alloc, bundles.as_mut_slice(), location, document)
        }
        Change::Remove { location } => {
            leave_out(bundles, location);
            Ok(())
        }
        Change::Started { location, yes } => {
            mark(bundles.as_mut_slice(), location, *yes);
            Ok(())
        }
        Change::Configured { .. } | Change::Unconfigured { .. } => Ok(()),
    }
}

fn install(
    alloc: Global,
    bundles: &mut Vec<KeptBundle>,
    location: &Str,
    document: &Str,
) -> Result<(), OutOfMemory>
    ensures { OnOk result (bundles.new.items ≡ with_install location.now document.now bundles.old.items) }
{
    let started = is_marked(bundles.as_slice(), location);
    let bundle = bundle_of(alloc, location, document, started)?;
    leave_out(bundles, location);
    bundles.push(bundle)?;
    Ok(())
}

fn bundle_of(
    alloc: Global,
    location: &Str,
    document: &Str,
    started: bool,
) -> Result<KeptBundle, OutOfMemory>
    ensures { IfOk result (λ bundle.
        bundle ≡ record { location = location.now; document = document.now; started = started }) }
{
    Ok(KeptBundle {
        location: location.copy(alloc)?,
        document: document.copy(alloc)?,
        started,
    })
}

// Whether a location is there and marked as started.
fn is_marked(bundles: &[KeptBundle], location: &Str) -> bool
    ensures { result ≡ is_marked location.now bundles.now }
{
    bundles
        .iter()
        .any(|bundle| bundle.location == *location && bundle.started)
}

// Leaves a location out.
fn leave_out(bundles: &mut Vec<KeptBundle>, location: &Str)
    ensures { bundles.new.items ≡ without_location location.now bundles.old.items }
{
    bundles.retain(|bundle| bundle.location != *location);
}

// Gives a location another document.
fn update(
    alloc: Global,
    bundles: &mut [KeptBundle],
    location: &Str,
    document: &Str,
) -> Result<(), OutOfMemory>
    ensures { OnOk result (bundles.new ≡ map (with_document location.now document.now) bundles.old) }
{
    for bundle in bundles.iter_mut() {
        update_one(alloc, bundle, location, document)?;
    }
    Ok(())
}

fn update_one(
    alloc: Global,
    bundle: &mut KeptBundle,
    location: &Str,
    document: &Str,
) -> Result<(), OutOfMemory>
    ensures { OnOk result (bundle.new ≡ with_document location.now document.now bundle.old) }
{
    if bundle.location == *location {
        bundle.document = document.copy(alloc)?;
    }
    Ok(())
}

// Marks a location as started or stopped.
fn mark(bundles: &mut [KeptBundle], location: &Str, yes: bool)
    ensures { bundles.new ≡ map (with_mark location.now yes) bundles.old }
{
    for bundle in bundles.iter_mut() {
        mark_one(bundle, location, yes);
    }
}

fn mark_one(bundle: &mut KeptBundle, location: &Str, yes: bool)
    ensures { bundle.new ≡ with_mark location.now yes bundle.old }
{
    if bundle.location == *location {
        bundle.started = yes;
    }
}
