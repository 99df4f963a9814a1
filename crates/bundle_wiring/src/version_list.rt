//! The versions that the attribute of a capability lists (OSGi Core 8, chapter 3 "Module Layer", "Provide-Capability
//! Header": the attribute types `Version` and `List<Version>`).
ghost use Rattle.bundle_wiring.specs.Texts.{version_of};
ghost use Rattle.bundle_wiring.specs.Wirings.{greatest, versions_after, versions_listed};
ghost use Rattle.std.specs.List.{slice_split};
ghost use Rattle.std.specs.Prelude.{◌≡◌, ◌==◌, [], map, IfOk};

use osgi_version::{Version, VersionFault};
use prop_map::{Copies, List, OutOfMemory};
use std::alloc::{AllocError, Global};

/// The versions between the commas of a text, none where it is no list of versions.
///
/// # Errors
/// Only want of memory.
pub(crate) fn versions_listed(alloc: Global, text: &str) -> Result<List<Version>, OutOfMemory>
    ensures { IfOk result (λ versions. versions ≡ versions_listed text.now) }
{
    let parts = parts_of(alloc, text)?;
    match versions_of(alloc, parts.as_slice())? {
        Some(versions) => Ok(versions),
        None => Ok(List::of(Vec::new(alloc))),
    }
}

fn parts_of(alloc: Global, text: &str) -> Result<Vec<&str>, OutOfMemory>
    ensures { IfOk result (λ parts. map (λ p. p.now) parts.items ≡ slice_split (λ b. b == 44) text.now) }
{
    text.split(',').collect(alloc)
}

fn versions_of(alloc: Global, parts: &[&str]) -> Result<Option<List<Version>>, OutOfMemory>
    ensures { IfOk result (λ versions. versions ≡ versions_after [] (map (λ p. p.now) parts.now)) }
{
    let mut versions = Vec::new(alloc);
    for part in parts {
        match version_of(alloc, part)? {
            Some(version) => versions.push(version)?,
            None => return Ok(None),
        }
    }
    Ok(Some(List::of(versions)))
}

fn version_of(alloc: Global, text: &str) -> Result<Option<Version>, OutOfMemory>
    ensures { IfOk result (λ version. version ≡ version_of text.now) }
{
    match Version::parse(alloc, text) {
        Ok(version) => Ok(Some(version)),
        Err(VersionFault::BadVersion { .. }) => Ok(None),
        Err(VersionFault::OutOfMemory) => Err(AllocError),
    }
}

/// The greatest of several versions, 0.0.0 of none.
///
/// # Errors
/// Only want of memory.
pub(crate) fn greatest(alloc: Global, versions: &[Version]) -> Result<Version, OutOfMemory>
    ensures { IfOk result (λ version. version ≡ greatest versions.now) }
{
    let mut best = Version::empty(alloc);
    for version in versions {
        if best.cmp(version).is_lt() {
            best = version.copy(alloc)?;
        }
    }
    Ok(best)
}
