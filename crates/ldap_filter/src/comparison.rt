//! How an attribute is compared (OSGi Core 8, section 3.2.7 "Filter Syntax").

/// How an attribute is compared with the value of a filter.
#[derive(Clone, Copy, Debug, PartialEq, Eq)]
pub enum Comparison {
    /// `=`
    Equal,
    /// `~=`
    Like,
    /// `>=`
    AtLeast,
    /// `<=`
    AtMost,
}
