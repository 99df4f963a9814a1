//! Bundles for tests.

use bundle_headers::Manifest;
use bundle_wiring::{Offer, WireFault, Wiring, read_wiring};
use std::alloc::Global;

/// What a manifest with these headers needs and offers, or why that is none; nothing where it is no manifest.
pub(crate) fn wiring(alloc: Global, headers: &str) -> Option<Result<Wiring, WireFault>> {
    match Manifest::parse(alloc, headers.as_bytes()) {
        Ok(manifest) => Some(read_wiring(alloc, &manifest)),
        Err(_) => None,
    }
}

/// Whether an offer has this version.
pub(crate) fn has_version(alloc: Global, offer: &Offer, version: &str) -> bool {
    match offer.version.get().text(alloc) {
        Ok(text) => text.as_str() == version,
        Err(_) => false,
    }
}
