//! What an installed bundle holds.
use bundle_doc::BundleDoc;
use prop_map::{Copies, List, OutOfMemory, Shared};
use std::alloc::Global;

/// What an installed bundle holds.
#[derive(Debug, PartialEq, Eq, Drop)]
pub struct Contents {
    /// The bundle's number.
    pub bundle: u64,
    /// The document of its last update, or else of its install.
    pub document: Shared<BundleDoc>,
    /// Which of its descriptions are enabled, in their order.
    pub enabled: List<bool>,
}

impl Copies for Contents {
    fn copy(&self, alloc: Global) -> Result<Contents, OutOfMemory> {
        Ok(Contents {
            bundle: self.bundle,
            document: self.document.copy(alloc)?,
            enabled: self.enabled.copy(alloc)?,
        })
    }
}
