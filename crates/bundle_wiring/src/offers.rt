//! The packages that a bundle exports, and the capabilities that it provides (OSGi Core 8, chapter 3 "Module Layer",
//! "Export-Package Header" and "Provide-Capability Header").
ghost use Rattle.bundle_wiring.specs.Faults.{Reads};
ghost use Rattle.bundle_wiring.specs.Wirings.{attributes_in, greatest, offers_after, offers_in, offers_of, properties_of, version_in, version_or_empty, versions_in, versions_or_empty};
ghost use Rattle.std.specs.Prelude.{◌≡◌, ◌++◌, [], ◌∷◌, option_map, IfOk, OnOk};

use crate::clauses::{clauses_in, value_of};
use crate::texts::version_of;
use crate::version_list::{greatest, versions_listed};
use crate::{Offer, WireFault};
use bundle_headers::{Clause, Manifest};
use osgi_version::Version;
use prop_map::{Copies, List, OutOfMemory, Properties, Shared, Str, Value};
use std::alloc::Global;

/// What a manifest offers: the packages that it exports, and then the capabilities that it provides.
pub(crate) fn offers_in(alloc: Global, manifest: &Manifest) -> Result<List<Offer>, WireFault>
    ensures { Reads result (offers_in manifest.now) }
{
    let exports = clauses_in(alloc, manifest, "Export-Package")?;
    let offers = with_offers(
        alloc,
        true,
        List::of(Vec::new(alloc)),
        exports.list.as_slice(),
    )?;
    let capabilities = clauses_in(alloc, manifest, "Provide-Capability")?;
    with_offers(alloc, false, offers, capabilities.list.as_slice())
}

fn with_offers(
    alloc: Global,
    is_package: bool,
    earlier: List<Offer>,
    clauses: &[Clause],
) -> Result<List<Offer>, WireFault>
    ensures { Reads result (offers_after is_package earlier clauses.now) }
{
    let mut offers = earlier.items();
    for clause in clauses {
        let versions = versions_in(alloc, is_package, clause)?;
        push_offers(alloc, &mut offers, is_package, clause, versions)?;
    }
    Ok(List::of(offers))
}

fn versions_in(alloc: Global, is_package: bool, clause: &Clause) -> Result<List<Version>, WireFault>
    ensures { Reads result (versions_in is_package clause.now) }
{
    if is_package {
        let version = version_in(alloc, clause)?;
        Ok(one_version(alloc, version)?)
    } else {
        Ok(versions_or_empty(alloc, value_of(clause.attributes.as_slice(), "version"))?)
    }
}

fn version_in(alloc: Global, clause: &Clause) -> Result<Version, WireFault>
    ensures { Reads result (version_in clause.now) }
{
    version_or_empty(alloc, value_of(clause.attributes.as_slice(), "version"))
}

fn version_or_empty(alloc: Global, text: Option<&str>) -> Result<Version, WireFault>
    ensures { Reads result (version_or_empty (option_map (λ t. t.now) text.entry)) }
{
    match text {
        Some(text) => version_of(alloc, text),
        None => Ok(Version::empty(alloc)),
    }
}

fn versions_or_empty(alloc: Global, text: Option<&str>) -> Result<List<Version>, OutOfMemory>
    ensures { IfOk result (λ versions. versions ≡ versions_or_empty (option_map (λ t. t.now) text.entry)) }
{
    match text {
        Some(text) => versions_listed(alloc, text),
        None => one_version(alloc, Version::empty(alloc)),
    }
}

fn one_version(alloc: Global, version: Version) -> Result<List<Version>, OutOfMemory>
    ensures { IfOk result (λ versions. versions ≡ version ∷ []) }
{
    let mut versions = Vec::new(alloc);
    versions.push(version)?;
    Ok(List::of(versions))
}

// What a clause says of each of its offers.
#[derive(Drop)]
struct Said {
    version: Shared<Version>,
    versions: Shared<List<Version>>,
    attributes: Shared<Properties>,
}

fn push_offers(
    alloc: Global,
    offers: &mut Vec<Offer>,
    is_package: bool,
    clause: &Clause,
    versions: List<Version>,
) -> Result<(), OutOfMemory>
    ensures { OnOk result (offers.new.items ≡ offers.old.items ++ offers_of is_package clause.now versions) }
{
    let said = said_by(alloc, is_package, clause, versions)?;
    for path in clause.paths.as_slice() {
        offers.push(offer_of(alloc, is_package, &said, path)?)?;
    }
    Ok(())
}

fn said_by(
    alloc: Global,
    is_package: bool,
    clause: &Clause,
    versions: List<Version>,
) -> Result<Said, OutOfMemory>
    ensures version { IfOk result (λ said. said.version ≡ greatest versions) }
    ensures versions { IfOk result (λ said. said.versions ≡ versions) }
    ensures attributes { IfOk result (λ said. said.attributes ≡ attributes_in is_package clause.now) }
{
    Ok(Said {
        version: Shared::of(alloc, greatest(alloc, versions.as_slice())?)?,
        versions: Shared::of(alloc, versions)?,
        attributes: Shared::of(alloc, attributes_in(alloc, is_package, clause)?)?,
    })
}

fn offer_of(alloc: Global, is_package: bool, said: &Said, path: &Str) -> Result<Offer, OutOfMemory>
    ensures { IfOk result (λ offer. offer ≡ record { name = path.now; «package» = is_package; version = said.now.version; versions = said.now.versions; attributes = said.now.attributes }) }
{
    Ok(Offer {
        name: path.copy(alloc)?,
        package: is_package,
        version: said.version.share()?,
        versions: said.versions.share()?,
        attributes: said.attributes.share()?,
    })
}

fn attributes_in(
    alloc: Global,
    is_package: bool,
    clause: &Clause,
) -> Result<Properties, OutOfMemory>
    ensures { IfOk result (λ attributes. attributes ≡ attributes_in is_package clause.now) }
{
    if is_package {
        Ok(Properties::new(alloc))
    } else {
        properties_of(alloc, clause.attributes.as_slice())
    }
}

fn properties_of(alloc: Global, attributes: &[(Str, Str)]) -> Result<Properties, OutOfMemory>
    ensures { IfOk result (λ properties. properties ≡ properties_of attributes.now) }
{
    let mut properties = Properties::new(alloc);
    for attribute in attributes {
        let value = Value::Text(attribute.1.copy(alloc)?);
        properties.set(alloc, attribute.0.as_str(), value)?;
    }
    Ok(properties)
}
