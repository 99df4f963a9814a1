//! What the document of a bundle says of its needs and offers (OSGi Core 8, chapter 3 "Module Layer").
ghost use Rattle.bundle_wiring.specs.Faults.{Reads};
ghost use Rattle.kept_wirings.specs.DocumentWirings.{fault_of, manifest_wiring, no_wiring, part_of};
ghost use Rattle.std.specs.Prelude.{◌≡◌, IfOk};

use bundle_doc::BundleDoc;
use bundle_headers::Manifest;
use bundle_wiring::{WireFault, Wiring, read_wiring};
use prop_map::{List, OutOfMemory};
use std::alloc::{AllocError, Global};

/// What a bundle with this document needs and offers, or the first fault of its manifest's four headers. Without a manifest
/// it needs and offers nothing.
///
/// # Errors
/// Only want of memory.
pub(crate) fn document_wiring(
    alloc: Global,
    doc: &BundleDoc,
) -> Result<Result<Wiring, WireFault>, OutOfMemory>
    ensures { IfOk result (λ wiring. wiring ≡ manifest_wiring doc.now.manifest) }
{
    match manifest_wiring(alloc, &doc.manifest) {
        Ok(wiring) => Ok(Ok(wiring)),
        Err(WireFault::OutOfMemory) => Err(AllocError),
        Err(fault) => Ok(Err(fault)),
    }
}

#[tactic(auto, unfolding(crate::specs::DocumentWirings::manifest_wiring))]
fn manifest_wiring(alloc: Global, manifest: &Option<Manifest>) -> Result<Wiring, WireFault>
    ensures { Reads result (manifest_wiring manifest.now) }
{
    match manifest {
        Some(manifest) => read_wiring(alloc, manifest),
        None => Ok(no_wiring(alloc)),
    }
}

// Neither needs nor offers. It takes no memory.
fn no_wiring(alloc: Global) -> Wiring
    ensures { result ≡ no_wiring }
{
    Wiring {
        needs: List::of(Vec::new(alloc)),
        offers: List::of(Vec::new(alloc)),
    }
}

/// What is kept of a bundle: what it needs and offers, which is nothing where its manifest is faulty, and the fault then.
#[derive(Drop)]
pub(crate) struct Part {
    pub(crate) wiring: Wiring,
    pub(crate) fault: Option<WireFault>,
}

/// What is kept of a bundle of which this was read. It takes no memory.
pub(crate) fn part_of(alloc: Global, read: Result<Wiring, WireFault>) -> Part
    ensures wiring { result.wiring ≡ part_of read }
    ensures fault { result.fault ≡ fault_of read }
{
    match read {
        Ok(wiring) => Part {
            wiring,
            fault: None,
        },
        Err(fault) => Part {
            wiring: no_wiring(alloc),
            fault: Some(fault),
        },
    }
}
