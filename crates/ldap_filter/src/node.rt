//! A filter as a tree in memory.

use crate::Comparison;
use prop_map::{List, Str};

/// A filter and those in it.
#[derive(Debug, Drop)]
pub enum Node {
    /// Each of the filters matches.
    Every(Vec<Node>),
    /// One of the filters matches.
    Any(Vec<Node>),
    /// The filter doesn't match.
    Not(Box<Node>),
    /// The attribute is there.
    Present(Str),
    /// The attribute compares so with the value.
    Compare {
        /// How it compares.
        comparison: Comparison,
        /// The attribute.
        attribute: Str,
        /// The value, without escapes.
        value: Str,
    },
    /// The attribute's text has these parts in order, the first and the last at its ends.
    Parts {
        /// The attribute.
        attribute: Str,
        /// Two parts or more, without escapes.
        parts: List<Str>,
    },
}
