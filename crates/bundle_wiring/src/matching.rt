//! When an offer meets a need.
ghost use Rattle.bundle_wiring.specs.Resolution.{is_in_range, is_matched, meets};
ghost use Rattle.bundle_wiring.specs.Versioned.{asks_version, every_versioned, is_like, matches_versioned, order_passes, some_passes, some_versioned, version_passes};
ghost use Rattle.bundle_wiring.specs.Texts.{version_of};
ghost use Rattle.ldap_filter.specs.Matching.{passes, value_compares};
ghost use Rattle.ldap_filter.specs.Nodes.{tree_of};
ghost use Rattle.ldap_filter.specs.Trees.{trees_of};
ghost use Rattle.prop_map.specs.Maps.{get};
ghost use Rattle.std.specs.Prelude.{◌≡◌, map, if◌then◌else◌};

use crate::version_text::version_order;
use crate::{Offer, WireNeed};
use ldap_filter::{Comparison, Filter, Node, value_compares, value_has_parts};
use osgi_version::{Version, VersionRange};
use prop_map::{Properties, Shared};
use std::cmp::Ordering;

/// Whether a filter matches the attributes and the versions of an offer (OSGi Core 8, section 3.2.7 "Filter Syntax"). It
/// matches as `Filter::matches` says, but an attribute `version`, in whatever case, under `=`, `>=` and `<=` compares the
/// offer's versions, whatever the attributes say, with the one that the filter's value spells, and is true where one of
/// them passes; where the value spells none, the comparison is false. Without any versions it is an attribute like others.
/// It takes no memory.
pub fn matches_versioned(filter: &Filter, properties: &Properties, versions: &[Version]) -> bool
    ensures { result ≡ matches_versioned filter.now properties.now versions.now }
{
    node_matches(filter.node(), properties, versions)
}

#[cycle(versioned_nodes)]
fn node_matches(node: &Node, properties: &Properties, versions: &[Version]) -> bool
    ensures { result ≡ matches_versioned (tree_of node.now) properties.now versions.now }
{
    match node {
        Node::Every(nodes) => every_matches(nodes.as_slice(), properties, versions),
        Node::Any(nodes) => some_matches(nodes.as_slice(), properties, versions),
        Node::Not(node) => !node_matches(node, properties, versions),
        Node::Present(attribute) => properties.get(attribute.as_str()).is_some(),
        Node::Compare {
            comparison,
            attribute,
            value,
        } => compares(
            *comparison,
            attribute.as_str(),
            value.as_str(),
            properties,
            versions,
        ),
        Node::Parts { attribute, parts } => match properties.get(attribute.as_str()) {
            Some(property) => value_has_parts(parts.as_slice(), property),
            None => false,
        },
    }
}

#[cycle(versioned_nodes)]
fn every_matches(nodes: &[Node], properties: &Properties, versions: &[Version]) -> bool
    ensures { result ≡ every_versioned (trees_of (map tree_of nodes.now)) properties.now versions.now }
{
    for node in nodes {
        if !node_matches(node, properties, versions) {
            return false;
        }
    }
    true
}

#[cycle(versioned_nodes)]
fn some_matches(nodes: &[Node], properties: &Properties, versions: &[Version]) -> bool
    ensures { result ≡ some_versioned (trees_of (map tree_of nodes.now)) properties.now versions.now }
{
    for node in nodes {
        if node_matches(node, properties, versions) {
            return true;
        }
    }
    false
}

fn compares(
    comparison: Comparison,
    attribute: &str,
    value: &str,
    properties: &Properties,
    versions: &[Version],
) -> bool
    ensures { result ≡ (if asks_version comparison attribute.now versions.now then some_passes comparison versions.now (version_of value.now) else passes (value_compares comparison value.now) (get properties.now attribute.now)) }
{
    if asks_version(comparison, attribute, versions) {
        some_passes(comparison, versions, value)
    } else {
        match properties.get(attribute) {
            Some(property) => value_compares(comparison, value, property),
            None => false,
        }
    }
}

fn asks_version(comparison: Comparison, attribute: &str, versions: &[Version]) -> bool
    ensures { result ≡ asks_version comparison attribute.now versions.now }
{
    ("version".eq_ignore_ascii_case(attribute) && !is_like(comparison)) && !versions.is_empty()
}

fn is_like(comparison: Comparison) -> bool
    ensures { result ≡ is_like comparison }
{
    match comparison {
        Comparison::Like => true,
        Comparison::Equal | Comparison::AtLeast | Comparison::AtMost => false,
    }
}

fn some_passes(comparison: Comparison, versions: &[Version], value: &str) -> bool
    ensures { result ≡ some_passes comparison versions.now (version_of value.now) }
{
    versions
        .iter()
        .any(|version| version_passes(comparison, version, value))
}

fn version_passes(comparison: Comparison, version: &Version, value: &str) -> bool
    ensures { result ≡ version_passes comparison version.now (version_of value.now) }
{
    match version_order(version, value) {
        Some(order) => order_passes(comparison, order),
        None => false,
    }
}

fn order_passes(comparison: Comparison, order: Ordering) -> bool
    ensures { result ≡ order_passes comparison order }
{
    match comparison {
        Comparison::Equal | Comparison::Like => order.is_eq(),
        Comparison::AtLeast => order.is_ge(),
        Comparison::AtMost => order.is_le(),
    }
}

/// Whether an offer meets a need. It takes no memory.
pub(crate) fn meets(need: &WireNeed, offer: &Offer) -> bool
    ensures { result ≡ meets need.now offer.now }
{
    (need.package == offer.package && need.name == offer.name)
        && (is_in_range(&need.range, offer.version.get()) && is_matched(&need.filter, offer))
}

fn is_in_range(range: &Option<Shared<VersionRange>>, version: &Version) -> bool
    ensures { result ≡ is_in_range range.now version.now }
{
    match range {
        Some(range) => range.get().includes(version),
        None => true,
    }
}

fn is_matched(filter: &Option<Shared<Filter>>, offer: &Offer) -> bool
    ensures { result ≡ is_matched filter.now offer.now }
{
    match filter {
        Some(filter) => matches_versioned(
            filter.get(),
            offer.attributes.get(),
            offer.versions.get().as_slice(),
        ),
        None => true,
    }
}
