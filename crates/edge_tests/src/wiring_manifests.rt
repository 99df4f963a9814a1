//! What manifests need and offer.

use crate::wiring_samples::{has_version, wiring};
use bundle_wiring::{Offer, WireFault, WireNeed};
use prop_map::{List, Str};
use std::alloc::Global;

const NEEDS: &str =
    "Import-Package: a;b;version=\"[1,2)\",c;effective:=active\nRequire-Capability: n;filter:=\"(x=1)\";resolution:=optional\n";

// Two packages with one range.
fn are_packages(first: &WireNeed, second: &WireNeed) -> bool {
    first.name.as_str() == "a"
        && second.name.as_str() == "b"
        && first.package
        && second.package
        && first.range.is_some()
        && first.range == second.range
        && !first.optional
}

fn is_capability(need: &WireNeed) -> bool {
    need.name.as_str() == "n"
        && !need.package
        && need.filter.is_some()
        && need.range.is_none()
        && need.optional
}

fn are_needs(needs: &[WireNeed]) -> bool {
    match needs {
        [first, second, third] => are_packages(first, second) && is_capability(third),
        _ => false,
    }
}

fn reads_needs(alloc: Global) -> bool {
    match wiring(alloc, NEEDS) {
        Some(Ok(read)) => are_needs(read.needs.as_slice()),
        _ => false,
    }
}

#[test]
fn needs_are_read(rt: HostRuntime) {
    assert!(rt; reads_needs(rt.alloc()));
}

const OFFERS: &str =
    "Export-Package: a;version=1.2,b\nProvide-Capability: n;v:Version=2;version:Version=3\n";

fn are_shown(alloc: Global, offers: &List<Offer>) -> bool {
    match format!(in alloc; "{:?}", offers) {
        Ok(shown) => shown.as_str().len() > 0,
        Err(_) => false,
    }
}

fn has_attributes(offer: &Offer, count: usize) -> bool {
    offer.attributes.get().as_slice().len() == count
}

fn are_offers(alloc: Global, offers: &[Offer]) -> bool {
    match offers {
        [first, second, third] => {
            has_version(alloc, first, "1.2.0")
                && has_version(alloc, second, "0.0.0")
                && has_version(alloc, third, "3.0.0")
                && has_attributes(third, 2)
                && has_attributes(first, 0)
        }
        _ => false,
    }
}

fn reads_offers(alloc: Global) -> bool {
    match wiring(alloc, OFFERS) {
        Some(Ok(read)) => {
            are_shown(alloc, &read.offers) && are_offers(alloc, read.offers.as_slice())
        }
        _ => false,
    }
}

#[test]
fn offers_are_read(rt: HostRuntime) {
    assert!(rt; reads_offers(rt.alloc()));
}

/// What a fault tells.
#[derive(Clone, Copy, PartialEq, Eq)]
enum Told<'t> {
    Clause(usize),
    Version(usize),
    Filter(usize),
    Twice(&'t str),
    NoMemory,
}

fn told_by(fault: &WireFault) -> Told<'_> {
    match fault {
        WireFault::BadClause { at } => Told::Clause(*at),
        WireFault::BadVersion { at } => Told::Version(*at),
        WireFault::BadFilter { at } => Told::Filter(*at),
        WireFault::DuplicateImport { package } => Told::Twice(package.as_str()),
        WireFault::OutOfMemory => Told::NoMemory,
    }
}

fn is_told(alloc: Global, headers: &str, wanted: &Told<'_>) -> bool {
    match wiring(alloc, headers) {
        Some(Err(fault)) => told_by(&fault) == *wanted,
        _ => false,
    }
}

fn are_told(alloc: Global, rows: &[(&str, Told<'_>)]) -> bool {
    for (headers, wanted) in rows {
        if !is_told(alloc, headers, wanted) {
            return false;
        }
    }
    true
}

const FAULTS: &[(&str, Told<'_>)] = &[
    ("Import-Package: a;;b\n", Told::Clause(2)),
    ("Import-Package: a;version=\"[1,x)\"\n", Told::Version(3)),
    ("Import-Package: a,b,a\n", Told::Twice("a")),
    (
        "Require-Capability: n;filter:=\"(x=1\";effective:=meta\n",
        Told::Filter(4),
    ),
    (
        "Provide-Capability: n;version=1.x\nExport-Package: a;version=.\n",
        Told::Version(0),
    ),
];

#[test]
fn the_first_fault_is_told(rt: HostRuntime) {
    assert!(rt; are_told(rt.alloc(), FAULTS));
}

fn is_printed(alloc: Global, fault: WireFault, wanted: &str) -> bool {
    match format!(in alloc; "{fault}") {
        Ok(text) => text.as_str() == wanted,
        Err(_) => false,
    }
}

fn package_is_printed(alloc: Global, package: &str, wanted: &str) -> bool {
    match Str::spell(alloc, package) {
        Ok(package) => is_printed(alloc, WireFault::DuplicateImport { package }, wanted),
        Err(_) => false,
    }
}

fn are_printed(alloc: Global) -> bool {
    is_printed(
        alloc,
        WireFault::BadClause { at: 1 },
        "no list of clauses, from byte 1",
    ) && is_printed(
        alloc,
        WireFault::BadVersion { at: 2 },
        "no version, from byte 2",
    ) && is_printed(
        alloc,
        WireFault::BadFilter { at: 3 },
        "no filter, from byte 3",
    ) && package_is_printed(alloc, "a.b", "a.b is imported twice")
        && is_printed(alloc, WireFault::OutOfMemory, "out of memory")
}

#[test]
fn faults_are_printed(rt: HostRuntime) {
    assert!(rt; are_printed(rt.alloc()));
}
