//! The bundles that resolve together (OSGi Core 8, chapter 3 "Module Layer", "Resolving Process").
ghost use Rattle.bundle_wiring.specs.Placing.{IsTable};
ghost use Rattle.bundle_wiring.specs.Resolution.{Bundle, IsResolution, platform_offer, platform_offers, version_of_numbers};
ghost use Rattle.bundle_wiring.specs.Standings.{IsSettled, left_of};
ghost use Rattle.bundle_wiring.specs.Wirings.{properties_of};
ghost use Rattle.osgi_version.specs.Versions.{version_text};
ghost use Rattle.std.specs.Prelude.{◌≡◌, IfOk, [], ◌∷◌, codes, map};

use crate::offer_table::{is_left, offer_table};
use crate::placed_offers::PlacedOffer;
use crate::standings::{Stand, look_on, some_lost, stands_of, strike_lost};
use crate::wires::wires_of;
use crate::{Offer, Resolved, Wiring};
use osgi_version::{Qualifier, Version};
use prop_map::{Copies, List, OutOfMemory, Properties, Shared, Str, Value};
use std::alloc::Global;

/// Which of these bundles resolve together, and their wires. Each bundle comes with its number; bundle 0, which offers
/// what the platform offers, is always there and not among them.
///
/// The bundles are the greatest set in which each need that isn't optional has a candidate: an offer of a bundle of the set
/// or of bundle 0 that meets it. Each need of these bundles that has a candidate, optional or not, has one wire, to the
/// best: the one of the higher version, then of the lower bundle number, then at the lower place.
///
/// # Errors
/// Only want of memory.
pub fn resolve(alloc: Global, bundles: &[(u64, Wiring)]) -> Result<Resolved, OutOfMemory>
    ensures { IfOk result (λ resolved. IsResolution bundles.now resolved) }
{
    let platform = platform_offers(alloc)?;
    let offers = offer_table(alloc, platform.as_slice(), bundles)?;
    let table = offers.as_slice();
    let settled = settle(alloc, table, bundles)?;
    let left = settled.left.as_slice();
    let stands = settled.stands.as_slice();
    let wires = wires_of(alloc, table, left, stands)?;
    let numbers = numbers_of(alloc, left, bundles)?;
    Ok(Resolved {
        bundles: List::of(numbers),
        wires: List::of(wires),
    })
}

fn numbers_of(
    alloc: Global,
    left: &[bool],
    bundles: &[(u64, Wiring)],
) -> Result<Vec<u64>, OutOfMemory>
    ensures { IfOk result (λ numbers. numbers.items ≡ map (λ (b : Bundle). b.0) (left_of left.now bundles.now)) }
{
    let mut numbers = Vec::new(alloc);
    for (home, bundle) in bundles.iter().enumerate() {
        if is_left(left, home) {
            numbers.push(bundle.0)?;
        }
    }
    Ok(numbers)
}

/// Which bundles are left, and where each need stands.
#[derive(Drop)]
pub(crate) struct Settled<'b> {
    pub(crate) left: Vec<bool>,
    pub(crate) stands: Vec<Stand<'b>>,
}

// Bundles that lack a candidate are struck out, and the needs whose candidate was theirs look on, until none lacks one.
pub(crate) fn settle<'b>(
    alloc: Global,
    table: &[PlacedOffer],
    bundles: &'b [(u64, Wiring)],
) -> Result<Settled<'b>, OutOfMemory>
    requires { IsTable bundles.now table.now }
    ensures { IfOk result (λ settled. IsSettled bundles.now table.now settled.left.items settled.stands.items) }
{
    let mut left = vec![in alloc; true; bundles.len()]?;
    let mut stands = stands_of(alloc, table, left.as_slice(), bundles)?;
    'rounds: while some_lost(table, left.as_slice(), stands.as_slice()) {
        strike_lost(table, left.as_mut_slice(), stands.as_slice());
        look_on(table, left.as_slice(), stands.as_mut_slice());
    }
    Ok(Settled { left, stands })
}

pub(crate) fn platform_offers(alloc: Global) -> Result<Vec<Offer>, OutOfMemory>
    ensures { IfOk result (λ offers. offers.items ≡ platform_offers) }
{
    let mut offers = Vec::new(alloc);
    let extender = version_of_numbers(alloc, 1, 5, 0);
    offers.push(platform_offer(alloc, "osgi.extender", "osgi.component", extender)?)?;
    let environment = version_of_numbers(alloc, 17, 0, 0);
    offers.push(platform_offer(alloc, "osgi.ee", "JavaSE", environment)?)?;
    Ok(offers)
}

fn version_of_numbers(alloc: Global, major: u32, minor: u32, micro: u32) -> Version
    ensures { result ≡ version_of_numbers major minor micro }
{
    Version {
        major,
        minor,
        micro,
        qualifier: Qualifier::empty(alloc),
    }
}

fn platform_offer(
    alloc: Global,
    name: &str,
    value: &str,
    version: Version,
) -> Result<Offer, OutOfMemory>
    ensures { IfOk result (λ offer. offer ≡ platform_offer name.now value.now version) }
{
    let attributes = platform_attributes(alloc, name, value, &version)?;
    let versions = List::of(vec![in alloc; version.copy(alloc)?]?);
    Ok(Offer {
        name: Str::of(String::from_str(alloc, name)?),
        package: false,
        version: Shared::of(alloc, version)?,
        versions: Shared::of(alloc, versions)?,
        attributes: Shared::of(alloc, attributes)?,
    })
}

fn platform_attributes(
    alloc: Global,
    name: &str,
    value: &str,
    version: &Version,
) -> Result<Properties, OutOfMemory>
    ensures { IfOk result (λ attributes. attributes ≡ properties_of ((name.now, value.now) ∷ (codes "version", version_text version.now) ∷ [])) }
{
    let mut attributes = Properties::new(alloc);
    let value = Value::Text(Str::of(String::from_str(alloc, value)?));
    attributes.set(alloc, name, value)?;
    let version = Value::Text(Str::of(version.text(alloc)?));
    attributes.set(alloc, "version", version)?;
    Ok(attributes)
}
