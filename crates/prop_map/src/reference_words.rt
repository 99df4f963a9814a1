//! The words that say how a component's reference is to be met (OSGi Compendium 8, chapter 112).

/// How many services a reference needs and takes.
#[derive(Clone, Copy, Debug, PartialEq, Eq)]
pub enum Cardinality {
    /// `0..1`: one or none.
    ZeroOrOne,
    /// `1..1`: just one.
    One,
    /// `0..n`: any number.
    ZeroOrMore,
    /// `1..n`: one or more.
    OneOrMore,
}

/// Whether an instance lives on when its services change.
#[derive(Clone, Copy, Debug, PartialEq, Eq)]
pub enum Policy {
    /// The services of an instance never change.
    Static,
    /// Services are bound and unbound while the instance lives.
    Dynamic,
}

/// Whether a better service takes the place of one that is bound.
#[derive(Clone, Copy, Debug, PartialEq, Eq)]
pub enum PolicyOption {
    /// A bound service stays.
    Reluctant,
    /// The best services are bound.
    Greedy,
}
