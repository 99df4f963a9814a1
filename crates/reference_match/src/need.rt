//! What a reference needs.

use ldap_filter::Filter;
use prop_map::{Cardinality, Policy, PolicyOption, Str};

/// What a reference needs, by the properties of its component configuration.
#[derive(Debug, Drop)]
pub struct Need {
    /// The interface of its services.
    pub interface: Str,
    /// The filter that its services match, if its target is one.
    pub filter: Option<Filter>,
    /// Its target is no text, or no filter: so it has no target services.
    pub none: bool,
    /// How many services it takes.
    pub cardinality: Cardinality,
    /// Whether its services may change while an instance lives.
    pub policy: Policy,
    /// Whether a better service takes the place of a bound one.
    pub option: PolicyOption,
    /// How many target services it needs at least.
    pub minimum: u64,
    /// Just services without a component behind them are its targets.
    pub direct_only: bool,
}
