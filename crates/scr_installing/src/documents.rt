//! What the bundles hold after an install, an update or an uninstall (OSGi Core 8, chapter 4, "Installing Bundles", "Updating
//! Bundles", "Uninstalling Bundles").
ghost use Rattle.scr_world.specs.Tables.{contents_with, defaults, replaced};
ghost use Rattle.scr_world.specs.declared.contents.Contents.{Contents};
ghost use Rattle.std.specs.Prelude.{◌≡◌, ◌==◌, ◌++◌, ◌∷◌, [], IfOk, filter, map, not};

use bundle_doc::BundleDoc;
use component_dto::Description;
use prop_map::{Copies, List, OutOfMemory, Shared};
use scr_world::Contents;
use std::alloc::Global;

/// What the bundles hold, and behind it the contents of a new one. The documents of those that were there stay shared.
///
/// # Errors
/// Only want of memory.
pub(crate) fn documents_with(
    alloc: Global,
    documents: &[Contents],
    number: u64,
    doc: &BundleDoc,
) -> Result<List<Contents>, OutOfMemory>
    ensures { IfOk result (λ after. after ≡ documents.now ++ contents_with number doc.now ∷ []) }
{
    let mut after = Vec::new(alloc);
    for contents in documents {
        after.push(contents.copy(alloc)?)?;
    }
    after.push(contents_with(alloc, number, doc)?)?;
    Ok(List::of(after))
}

/// What a bundle of this number holds whose document this is: each description is as enabled as it is by default.
///
/// # Errors
/// Only want of memory.
pub(crate) fn contents_with(
    alloc: Global,
    number: u64,
    doc: &BundleDoc,
) -> Result<Contents, OutOfMemory>
    ensures { IfOk result (λ contents. contents ≡ contents_with number doc.now) }
{
    let enabled = defaults(alloc, doc.descriptions.as_slice())?;
    let document = Shared::of(alloc, doc.copy(alloc)?)?;
    Ok(Contents {
        bundle: number,
        document,
        enabled,
    })
}

fn defaults(alloc: Global, descriptions: &[Description]) -> Result<List<bool>, OutOfMemory>
    ensures { IfOk result (λ flags. flags ≡ defaults descriptions.now) }
{
    let mut flags = Vec::new(alloc);
    for description in descriptions {
        flags.push(description.default_enabled)?;
    }
    Ok(List::of(flags))
}

/// What the bundles hold without one of them.
///
/// # Errors
/// Only want of memory.
pub(crate) fn documents_without(
    alloc: Global,
    documents: &[Contents],
    bundle: u64,
) -> Result<List<Contents>, OutOfMemory>
    ensures { IfOk result (λ after. after ≡ filter (λ (c : Contents). not (c.bundle == bundle)) documents.now) }
{
    let mut after = Vec::new(alloc);
    for contents in documents {
        if contents.bundle != bundle {
            after.push(contents.copy(alloc)?)?;
        }
    }
    Ok(List::of(after))
}

/// What the bundles hold where one of them has this document.
///
/// # Errors
/// Only want of memory.
pub(crate) fn documents_replaced(
    alloc: Global,
    documents: &[Contents],
    bundle: u64,
    doc: &BundleDoc,
) -> Result<List<Contents>, OutOfMemory>
    ensures { IfOk result (λ after. after ≡ map (replaced bundle doc.now) documents.now) }
{
    let mut after = Vec::new(alloc);
    for contents in documents {
        after.push(replaced(alloc, bundle, doc, contents)?)?;
    }
    Ok(List::of(after))
}

fn replaced(
    alloc: Global,
    bundle: u64,
    doc: &BundleDoc,
    contents: &Contents,
) -> Result<Contents, OutOfMemory>
    ensures { IfOk result (λ after. after ≡ replaced bundle doc.now contents.now) }
{
    if contents.bundle == bundle {
        contents_with(alloc, bundle, doc)
    } else {
        contents.copy(alloc)
    }
}
