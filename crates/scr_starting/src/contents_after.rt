//! What the bundles hold after a command of one of them (OSGi Compendium 8, chapter 112, "Enabled").
ghost use Rattle.scr_world.specs.Tables.{flagged, set_back};
ghost use Rattle.scr_world.specs.declared.contents.Contents.{Contents};
ghost use Rattle.std.specs.Prelude.{◌≡◌, IfOk, map};

use crate::enabled_flags::{defaults, with_flag};
use prop_map::{Copies, List, OutOfMemory, Str};
use scr_world::Contents;
use std::alloc::Global;

/// What the bundles hold where each description of one of them is enabled as by default.
///
/// # Errors
/// Only want of memory.
pub(crate) fn set_back(
    alloc: Global,
    bundle: u64,
    documents: &[Contents],
) -> Result<List<Contents>, OutOfMemory>
    ensures { IfOk result (λ after. after ≡ map (set_back bundle) documents.now) }
{
    let mut after = Vec::new(alloc);
    for contents in documents {
        after.push(one_set_back(alloc, bundle, contents)?)?;
    }
    Ok(List::of(after))
}

fn one_set_back(alloc: Global, bundle: u64, contents: &Contents) -> Result<Contents, OutOfMemory>
    ensures { IfOk result (λ after. after ≡ set_back bundle contents.now) }
{
    if contents.bundle != bundle {
        return contents.copy(alloc);
    }
    let descriptions = contents.document.get().descriptions.as_slice();
    with_enabled(alloc, contents, defaults(alloc, descriptions)?)
}

// The same with other flags.
fn with_enabled(
    alloc: Global,
    contents: &Contents,
    enabled: List<bool>,
) -> Result<Contents, OutOfMemory>
    ensures { IfOk result (λ after. after ≡ record contents.now { enabled = enabled }) }
{
    Ok(Contents {
        bundle: contents.bundle,
        document: contents.document.copy(alloc)?,
        enabled,
    })
}

/// What the bundles hold where the description of this name of one of them is enabled, or isn't.
///
/// # Errors
/// Only want of memory.
pub(crate) fn flagged(
    alloc: Global,
    bundle: u64,
    name: &Str,
    flag: bool,
    documents: &[Contents],
) -> Result<List<Contents>, OutOfMemory>
    ensures { IfOk result (λ after. after ≡ map (flagged bundle name.now flag) documents.now) }
{
    let mut after = Vec::new(alloc);
    for contents in documents {
        after.push(one_flagged(alloc, bundle, name, flag, contents)?)?;
    }
    Ok(List::of(after))
}

fn one_flagged(
    alloc: Global,
    bundle: u64,
    name: &Str,
    flag: bool,
    contents: &Contents,
) -> Result<Contents, OutOfMemory>
    ensures { IfOk result (λ after. after ≡ flagged bundle name.now flag contents.now) }
{
    if contents.bundle != bundle {
        return contents.copy(alloc);
    }
    let descriptions = contents.document.get().descriptions.as_slice();
    let enabled = with_flag(alloc, name, flag, descriptions, contents.enabled.as_slice())?;
    with_enabled(alloc, contents, enabled)
}
