//! What a manifest says of its bundle's needs and offers.
ghost use Rattle.bundle_wiring.specs.Faults.{Reads};
ghost use Rattle.bundle_wiring.specs.Wirings.{wiring_of};

use crate::capabilities::needs_in;
use crate::offers::offers_in;
use crate::{WireFault, Wiring};
use bundle_headers::Manifest;
use std::alloc::Global;

/// Reads what a bundle needs and offers (OSGi Core 8, chapter 3 "Module Layer"). A need is a package in Import-Package with
/// its range `version`, or a namespace in Require-Capability with its `filter:=`; `resolution:=optional` makes it optional,
/// and one whose `effective:=` isn't `resolve` is passed over, though its range or filter has to be one. An offer is a
/// package in Export-Package with its `version`, or a namespace in Provide-Capability with its attributes and the versions
/// that its `version` lists. What a clause says, it says of each of its names.
///
/// # Errors
/// The first fault, where the headers are read in the order Import-Package, Require-Capability, Export-Package,
/// Provide-Capability: `BadClause` where a header is no list of clauses; then clause by clause `BadVersion` or `BadFilter`
/// where the range, the filter or the version of an exported package is none, and `DuplicateImport` for a package that an
/// earlier clause or the same one imports too.
pub fn read_wiring(alloc: Global, manifest: &Manifest) -> Result<Wiring, WireFault>
    ensures { Reads result (wiring_of manifest.now) }
{
    let needs = needs_in(alloc, manifest)?;
    let offers = offers_in(alloc, manifest)?;
    Ok(Wiring { needs, offers })
}
