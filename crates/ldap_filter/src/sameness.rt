//! When two filters are equal.
ghost use Rattle.ldap_filter.specs.Nodes.{tree_of};
ghost use Rattle.ldap_filter.specs.Sameness.{same_comparison, same_tree, same_trees};
ghost use Rattle.ldap_filter.specs.Trees.{trees_of};
ghost use Rattle.std.specs.Prelude.{◌≡◌, map};

use crate::Comparison;
use crate::node::Node;

fn same_comparison(a: Comparison, b: Comparison) -> bool
    ensures { result ≡ same_comparison a b }
{
    match (a, b) {
        (Comparison::Equal, Comparison::Equal)
        | (Comparison::Like, Comparison::Like)
        | (Comparison::AtLeast, Comparison::AtLeast)
        | (Comparison::AtMost, Comparison::AtMost) => true,
        _ => false,
    }
}

/// Whether two nodes are the same filter.
#[cycle(comparing_nodes)]
pub(crate) fn same_node(a: &Node, b: &Node) -> bool
    ensures { result ≡ same_tree (tree_of a.now) (tree_of b.now) }
{
    match (a, b) {
        (Node::Every(a), Node::Every(b)) => same_nodes(a.as_slice(), b.as_slice()),
        (Node::Any(a), Node::Any(b)) => same_nodes(a.as_slice(), b.as_slice()),
        (Node::Not(a), Node::Not(b)) => same_node(a, b),
        (Node::Present(a), Node::Present(b)) => a == b,
        (
            Node::Compare {
                comparison: c,
                attribute: a,
                value: v,
            },
            Node::Compare {
                comparison: d,
                attribute: b,
                value: w,
            },
        ) => same_comparison(*c, *d) && (a == b && v == w),
        (
            Node::Parts {
                attribute: a,
                parts: ps,
            },
            Node::Parts {
                attribute: b,
                parts: qs,
            },
        ) => a == b && ps == qs,
        _ => false,
    }
}

#[cycle(comparing_nodes)]
fn same_nodes(a: &[Node], b: &[Node]) -> bool
    ensures { result ≡ same_trees (trees_of (map tree_of a.now)) (trees_of (map tree_of b.now)) }
{
    for (place, node) in a.iter().enumerate() {
        match b.get(place) {
            Some(other) => {
                if !same_node(node, other) {
                    return false;
                }
            }
            None => return false,
        }
    }
    a.len() == b.len()
}
