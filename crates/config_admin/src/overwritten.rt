//! What a set of a configuration overwrites.

use crate::Configuration;
use prop_map::Str;

/// What a set of a PID's configuration overwrites.
#[derive(Debug, PartialEq, Eq, Drop)]
pub struct Overwritten {
    /// The PID.
    pub pid: Str,
    /// The configuration that it had, if any.
    pub was: Option<Configuration>,
}
