//! What a bundle's document says.

use bundle_headers::Manifest;
use component_dto::Description;
use osgi_version::Version;
use prop_map::{Copies, List, OutOfMemory, Str};
use std::alloc::Global;

/// A bundle as its document describes it.
#[derive(Debug, PartialEq, Eq, Drop)]
pub struct BundleDoc {
    /// Where it comes from, not empty: the identity of the bundle.
    pub location: Str,
    /// Its symbolic name; without a manifest the location.
    pub name: Str,
    /// Its version, by default 0.0.0.
    pub version: Version,
    /// Its manifest, if it has one.
    pub manifest: Option<Manifest>,
    /// The class that its manifest names as activator. It is not called.
    pub activator: Option<Str>,
    /// Its components: in byte order of the names of their entries, or in the order of its manifest, each with a name of
    /// its own.
    pub descriptions: List<Description>,
}

impl Copies for BundleDoc {
    fn copy(&self, alloc: Global) -> Result<BundleDoc, OutOfMemory> {
        Ok(BundleDoc {
            location: self.location.copy(alloc)?,
            name: self.name.copy(alloc)?,
            version: self.version.copy(alloc)?,
            manifest: self.manifest.copy(alloc)?,
            activator: self.activator.copy(alloc)?,
            descriptions: self.descriptions.copy(alloc)?,
        })
    }
}
