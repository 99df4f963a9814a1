//! Filters over the versions of an offer.

use crate::wiring_samples::{has_version, wiring};
use bundle_wiring::{Offer, matches_versioned};
use ldap_filter::Filter;
use osgi_version::Version;
use prop_map::{OutOfMemory, Properties, Str, Value};
use std::alloc::Global;

fn attributes(alloc: Global) -> Result<Properties, OutOfMemory> {
    let text = Value::Text(Str::spell(alloc, "JavaSE")?);
    let mut attributes = Properties::new(alloc);
    attributes.set(alloc, "osgi.ee", text)?;
    Ok(attributes)
}

// Whether attributes with a version match a filter, and that is wanted, or don't, and that is.
fn version_matches(
    alloc: Global,
    filter: &Filter,
    attributes: &Properties,
    version: &str,
    wanted: bool,
) -> bool {
    match Version::parse(alloc, version) {
        Ok(version) => matches_versioned(filter, attributes, &[version]) == wanted,
        Err(_) => false,
    }
}

fn matches(
    alloc: Global,
    attributes: &Properties,
    filter: &str,
    version: &str,
    wanted: bool,
) -> bool {
    match Filter::parse(alloc, filter) {
        Ok(filter) => version_matches(alloc, &filter, attributes, version, wanted),
        Err(_) => false,
    }
}

fn all_match(alloc: Global, attributes: &Properties, rows: &[(&str, &str, bool)]) -> bool {
    for (filter, version, wanted) in rows {
        if !matches(alloc, attributes, filter, version, *wanted) {
            return false;
        }
    }
    true
}

// A filter, a version, and whether they match.
const COMPARED: &[(&str, &str, bool)] = &[
    ("(&(osgi.ee=JavaSE)(version=17))", "17", true),
    ("(Version=17.0)", "17", true),
    ("(version>= 1.10 )", "1.9", false),
    ("(version>=1.9)", "1.10", true),
    ("(version<=1.2.3.b)", "1.2.3.a", true),
    ("(version<=1.2.3.a)", "1.2.3.b", false),
    ("(version=1.2.3.a)", "1.2.3.a", true),
    ("(version>=x)", "17", false),
    ("(!(version>=x))", "17", true),
    ("(version=*)", "17", false),
    ("(version~=17)", "17", false),
];

fn are_compared(alloc: Global) -> bool {
    match attributes(alloc) {
        Ok(attributes) => all_match(alloc, &attributes, COMPARED),
        Err(_) => false,
    }
}

#[test]
fn a_filter_compares_the_version(rt: HostRuntime) {
    assert!(rt; are_compared(rt.alloc()));
}

fn offer_matches(alloc: Global, offer: &Offer, filter: &str, wanted: bool) -> bool {
    match Filter::parse(alloc, filter) {
        Ok(filter) => {
            let versions = offer.versions.get().as_slice();
            matches_versioned(&filter, offer.attributes.get(), versions) == wanted
        }
        Err(_) => false,
    }
}

fn offer_matches_all(alloc: Global, offer: &Offer, rows: &[(&str, bool)]) -> bool {
    for (filter, wanted) in rows {
        if !offer_matches(alloc, offer, filter, *wanted) {
            return false;
        }
    }
    true
}

// The first contract is one that a bundle of a servlet container provides.
const OFFERS: &str =
    "Provide-Capability: osgi.contract;osgi.contract=JavaServlet;version:List<Version>=\"2.6, 3.1 ,3.0\";uses:=\"javax.servlet\",c;version=\"1,b\"\n";

const OF_THE_CONTRACT: &[(&str, bool)] = &[
    ("(&(osgi.contract=JavaServlet)(version=3.0))", true),
    ("(version=2.6.0)", true),
    ("(version=2.5)", false),
    ("(version>=3.1)", true),
    ("(version>=3.2)", false),
    ("(version<=2.6)", true),
    ("(version<=2.5)", false),
    ("(!(version=3))", false),
    ("(version=3,0)", false),
];

const OF_THE_OTHER: &[(&str, bool)] = &[
    ("(Version=1,b)", true),
    ("(version>=1)", true),
    ("(version=1)", false),
    ("(version=*)", true),
];

fn have_versions(alloc: Global, offers: &[Offer]) -> bool {
    match offers {
        [contract, other, ..] => {
            has_version(alloc, contract, "3.1.0")
                && has_version(alloc, other, "0.0.0")
                && offer_matches_all(alloc, contract, OF_THE_CONTRACT)
                && offer_matches_all(alloc, other, OF_THE_OTHER)
        }
        _ => false,
    }
}

fn one_is_enough(alloc: Global) -> bool {
    match wiring(alloc, OFFERS) {
        Some(Ok(read)) => have_versions(alloc, read.offers.as_slice()),
        _ => false,
    }
}

#[test]
fn one_of_several_versions_has_to_pass(rt: HostRuntime) {
    assert!(rt; one_is_enough(rt.alloc()));
}
