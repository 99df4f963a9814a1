//! How far a filter has been read.
ghost use Rattle.ldap_filter.specs.declared.mode.Stop.TheVariants.{OutOfMemory};
ghost use Rattle.std.specs.Prelude.{◌≡◌};

use crate::Comparison;
use crate::node::Node;
use prop_map::Str;
use std::alloc::{AllocError, AllocFailed};

/// A filter that stands open, with those in it that are read already.
#[derive(Drop)]
pub(crate) enum Frame {
    Every(Vec<Node>),
    Any(Vec<Node>),
    Not,
}

/// A comparison whose value is being read.
#[derive(Drop)]
pub(crate) struct Comparing {
    pub(crate) comparison: Comparison,
    pub(crate) name: String,
    /// The parts that a star ended.
    pub(crate) parts: Vec<Str>,
    /// The part begun.
    pub(crate) part: String,
}

/// What has been read of the innermost filter.
#[derive(Drop)]
pub(crate) enum Mode {
    /// Nothing: a bracket has to come.
    Wanted,
    /// Its bracket.
    Opened,
    /// The beginning of an attribute, and blanks behind it.
    Attribute {
        name: String,
        blanks: String,
    },
    /// An attribute and the first character of its sign.
    Operator {
        comparison: Comparison,
        name: String,
    },
    /// An attribute, its sign and the beginning of its value.
    Valued(Comparing),
    /// The same, and a backslash.
    Escaped(Comparing),
    /// All of it.
    After(Node),
}

/// Why the reading stopped.
#[derive(Drop)]
pub(crate) enum Stop {
    Unexpected,
    TooDeep,
    OutOfMemory,
}

impl From<AllocError> for Stop {
    ghost from_gives = { λ _ e. e ≡ OutOfMemory };

    fn from(_: AllocError) -> Stop {
        Stop::OutOfMemory
    }
}

impl<T: Drop> From<AllocFailed<T>> for Stop {
    ghost from_gives = { λ _ e. e ≡ OutOfMemory };

    fn from(_: AllocFailed<T>) -> Stop {
        Stop::OutOfMemory
    }
}
