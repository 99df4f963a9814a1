//! The changes that keep a world again.
ghost use Rattle.std.specs.Prelude.{◌≡◌, ◌++◌, map, filter, IfOk, OnOk};
ghost use Rattle.world_keeper.specs.Again.{changes_again, configured, installed, is_started, start_of};

use crate::change::{configured, installed, started};
use crate::{Change, Kept, KeptBundle, KeptConfiguration};
use prop_map::OutOfMemory;
use std::alloc::Global;

/// The configurations by PID, the installs in order, and then the starts in order.
pub(crate) fn changes_again(alloc: Global, kept: &Kept) -> Result<Vec<Change>, OutOfMemory>
    ensures { IfOk result (λ changes. changes.items ≡ changes_again kept.now) }
{
    let mut changes = Vec::new(alloc);
    add_configured(alloc, kept.configurations.as_slice(), &mut changes)?;
    add_installed(alloc, kept.bundles.as_slice(), &mut changes)?;
    add_started(alloc, kept.bundles.as_slice(), &mut changes)?;
    Ok(changes)
}

fn add_configured(
    alloc: Global,
    configurations: &[KeptConfiguration],
    changes: &mut Vec<Change>,
) -> Result<(), OutOfMemory>
    ensures { OnOk result (changes.new.items ≡ changes.old.items ++ map configured configurations.now) }
{
    for one in configurations {
        changes.push(configured(alloc, &one.pid, &one.factory, &one.properties)?)?;
    }
    Ok(())
}

fn add_installed(
    alloc: Global,
    bundles: &[KeptBundle],
    changes: &mut Vec<Change>,
) -> Result<(), OutOfMemory>
    ensures { OnOk result (changes.new.items ≡ changes.old.items ++ map installed bundles.now) }
{
    for bundle in bundles {
        changes.push(installed(alloc, &bundle.location, &bundle.document)?)?;
    }
    Ok(())
}

fn add_started(
    alloc: Global,
    bundles: &[KeptBundle],
    changes: &mut Vec<Change>,
) -> Result<(), OutOfMemory>
    ensures { OnOk result (changes.new.items ≡ changes.old.items ++ map start_of (filter is_started bundles.now)) }
{
    for bundle in bundles {
        if bundle.started {
            changes.push(started(alloc, &bundle.location, true)?)?;
        }
    }
    Ok(())
}
