//! Filters, and when they match properties (OSGi Core 8, section 3.2.7 "Filter Syntax").
ghost use Rattle.ldap_filter.specs.Matching.{matches, match_all, match_one};
ghost use Rattle.ldap_filter.specs.Nodes.{tree_of};
ghost use Rattle.ldap_filter.specs.Sameness.{same_tree, tree_equiv};
ghost use Rattle.ldap_filter.specs.Trees.{trees_of};
ghost use Rattle.std.specs.Cmp.{partial_equiv_from_equiv};
ghost use Rattle.std.specs.Prelude.{◌≡◌, ◌+◌, map, IfOk};

use crate::matching::{value_compares, value_has_parts};
use crate::node::Node;
use crate::sameness::same_node;
use crate::steps::Steps;
use prop_map::{Copies, List, OutOfMemory, Properties};
use std::alloc::Global;
use std::marker::Model;
use std::sync::ledger::Ledger;

/// A filter. Contracts see the tree that its text spells.
#[derive(Debug, Drop)]
pub struct Filter {
    node: Node,
}

impl Model for Filter {
    ghost use Rattle.ldap_filter.specs.Trees.{Tree};
    ghost use Rattle.ldap_filter.specs.TreeCodes.{tree_code};

    ghost Value = { Tree };

    ghost coded = { tree_code };

    ghost use Rattle.ldap_filter.specs.Nodes.{tree_of};

    ghost view = { λ f. tree_of f.node };
}

impl Filter {
    /// The filter that a node is.
    pub(crate) fn of(node: Node) -> Filter
        ensures { result ≡ tree_of node }
    {
        Filter { node }
    }

    /// The filter as a tree in memory, for those who match it against more than properties.
    pub fn node(&self) -> &Node
        ensures { tree_of result.now ≡ self.now }
    {
        &self.node
    }

    /// Whether the filter matches the properties. It takes no memory.
    pub fn matches(&self, properties: &Properties) -> bool
        ensures { result ≡ matches self.now properties.now }
    {
        node_matches(&self.node, properties)
    }

    /// The same, counted as one step.
    pub fn matches_counted<L: Ledger>(&self, properties: &Properties, steps: &mut Steps<L>) -> bool
        ensures answer { result ≡ matches self.now properties.now }
        ensures cost { steps.new ≡ steps.old + 1 }
    {
        steps.tick();
        self.matches(properties)
    }
}

impl PartialEq for Filter {
    ghost eq = { same_tree };

    ghost laws = { partial_equiv_from_equiv tree_equiv };

    fn eq(&self, other: &Filter) -> bool {
        same_node(&self.node, &other.node)
    }
}

impl Eq for Filter {
    ghost laws = { tree_equiv };
}

impl Copies for Filter {
    fn copy(&self, alloc: Global) -> Result<Filter, OutOfMemory> {
        Ok(Filter {
            node: node_copy(alloc, &self.node)?,
        })
    }
}

#[cycle(matching_nodes)]
fn node_matches(node: &Node, properties: &Properties) -> bool
    ensures { result ≡ matches (tree_of node.now) properties.now }
{
    match node {
        Node::Every(nodes) => all_match(nodes.as_slice(), properties),
        Node::Any(nodes) => one_matches(nodes.as_slice(), properties),
        Node::Not(node) => !node_matches(node, properties),
        Node::Present(attribute) => properties.get(attribute.as_str()).is_some(),
        Node::Compare {
            comparison,
            attribute,
            value,
        } => match properties.get(attribute.as_str()) {
            Some(property) => value_compares(*comparison, value.as_str(), property),
            None => false,
        },
        Node::Parts { attribute, parts } => match properties.get(attribute.as_str()) {
            Some(property) => value_has_parts(parts.as_slice(), property),
            None => false,
        },
    }
}

#[cycle(matching_nodes)]
fn all_match(nodes: &[Node], properties: &Properties) -> bool
    ensures { result ≡ match_all (trees_of (map tree_of nodes.now)) properties.now }
{
    for node in nodes {
        if !node_matches(node, properties) {
            return false;
        }
    }
    true
}

#[cycle(matching_nodes)]
fn one_matches(nodes: &[Node], properties: &Properties) -> bool
    ensures { result ≡ match_one (trees_of (map tree_of nodes.now)) properties.now }
{
    for node in nodes {
        if node_matches(node, properties) {
            return true;
        }
    }
    false
}

#[cycle(copying_nodes)]
fn node_copy(alloc: Global, node: &Node) -> Result<Node, OutOfMemory>
    ensures { IfOk result (λ other. tree_of other ≡ tree_of node.now) }
{
    match node {
        Node::Every(nodes) => Ok(Node::Every(nodes_copy(alloc, nodes.as_slice())?)),
        Node::Any(nodes) => Ok(Node::Any(nodes_copy(alloc, nodes.as_slice())?)),
        Node::Not(node) => Ok(Node::Not(Box::new(alloc, node_copy(alloc, node)?)?)),
        Node::Present(attribute) => Ok(Node::Present(attribute.copy(alloc)?)),
        Node::Compare {
            comparison,
            attribute,
            value,
        } => Ok(Node::Compare {
            comparison: *comparison,
            attribute: attribute.copy(alloc)?,
            value: value.copy(alloc)?,
        }),
        Node::Parts { attribute, parts } => Ok(Node::Parts {
            attribute: attribute.copy(alloc)?,
            parts: parts.copy(alloc)?,
        }),
    }
}

#[cycle(copying_nodes)]
fn nodes_copy(alloc: Global, nodes: &[Node]) -> Result<Vec<Node>, OutOfMemory>
    ensures { IfOk result (λ others. map tree_of others.items ≡ map tree_of nodes.now) }
{
    let mut copied = Vec::new(alloc);
    for node in nodes {
        copied.push(node_copy(alloc, node)?)?;
    }
    Ok(copied)
}
